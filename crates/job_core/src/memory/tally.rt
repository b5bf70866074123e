// Which calls are to fail, and how many have.
ghost use Rattle.std.specs.Prelude.{◌≡◌, ◌≤◌, ◌==◌};
ghost use Rattle.std.specs.Bool.{OnFalse, OnTrue};
ghost use Rattle.std.specs.List.{list_any};
ghost use Rattle.io_ports.specs.Causes.{Rose};
ghost use Rattle.job_core.specs.Fails.{IsFresh, next_call};

/// The numbers of the calls that are to fail, from 1, and the calls and faults so far.
#[derive(Drop)]
pub struct Tally {
    pub failing: Vec<u64>,
    pub calls: u64,
    pub faults: u64,
}

impl Tally {
    /// No call so far.
    pub fn new(failing: Vec<u64>) -> Tally
        ensures { IsFresh failing.items result }
    {
        Tally {
            failing,
            calls: 0,
            faults: 0,
        }
    }

    /// Counts a call, and answers whether it is to fail. A failure raises the count of faults.
    pub fn fails(&mut self) -> bool
        ensures answer { result ≡ list_any (λ n. n == next_call self.old) self.old.failing.items }
        ensures counted { self.new.calls ≡ next_call self.old }
        ensures listed { self.new.failing.items ≡ self.old.failing.items }
        ensures rose { OnTrue result (Rose self.old.faults self.new.faults) }
        ensures later { self.old.faults ≤ self.new.faults }
        ensures stays { OnFalse result (self.new.faults ≡ self.old.faults) }
    {
        self.calls = self.calls.saturating_add(1);
        if self.failing.contains(&self.calls) {
            self.faults = self.faults.saturating_add(1);
            return true;
        }
        false
    }
}
