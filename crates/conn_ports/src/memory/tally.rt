// Which calls are to fail, and how many have.
ghost use Rattle.std.specs.Prelude.{◌≡◌, ◌≤◌};
ghost use Rattle.std.specs.Bool.{OnFalse, OnTrue};
ghost use Rattle.io_ports.specs.Causes.{Rose};

/// The numbers of the calls that are to fail, from 1, and the calls and faults so far.
#[derive(Drop)]
pub struct Tally {
    failing: Vec<u64>,
    calls: u64,
    pub faults: u64,
}

impl Tally {
    /// No call so far.
    pub fn new(failing: Vec<u64>) -> Tally
        ensures { result.faults ≡ 0 }
    {
        Tally {
            failing,
            calls: 0,
            faults: 0,
        }
    }

    /// Counts a call, and answers whether it fails. A failure raises the count of faults.
    pub fn fails(&mut self) -> bool
        ensures rose { OnTrue result (Rose self.old.faults self.new.faults) }
        ensures later { self.old.faults ≤ self.new.faults }
        ensures stays { OnFalse result (self.new.faults ≡ self.old.faults) }
    {
        self.calls = self.calls.saturating_add(1);
        if self.failing.contains(&self.calls) {
            self.faults = self.faults.saturating_add(1);
            return true;
        }
        false
    }
}
