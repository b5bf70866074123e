// A place for reports.
ghost use Rattle.std.specs.Prelude.{◌≡◌, ℕ, List, Bool, is_ok, length, nat_lt, remove, if◌then◌else◌};
ghost use Rattle.std.specs.Bool.{IsFalse};
ghost use Rattle.io_ports.specs.Causes.{HasCause};
ghost use Rattle.io_ports.specs.Reports.{Takes};
ghost use Rattle.io_ports.specs.declared.report.Report.{Report as AReport};

use crate::fault::PortFault;
use crate::report::Report;

/// A place for reports, one after another, that is finished once. It may be dropped at any moment.
pub trait ReportSink: Drop {
    /// The reports that were taken, in order.
    ghost list: { Self → List AReport };

    /// Whether the sink is finished.
    ghost finished: { Self → Bool };

    /// How often a call failed.
    ghost faults: { Self → ℕ };

    /// How many reports were taken.
    fn taken(&self) -> usize
        ensures { result ≡ length (list self.now) };

    /// Whether the sink is finished.
    fn is_finished(&self) -> bool
        ensures { result ≡ finished self.now };

    /// Takes one more report. After `Failed` or `Memory` the list is as before.
    fn take(&mut self, report: &Report) -> Result<(), PortFault>
        requires { IsFalse (finished self.old) }
        ensures list { Takes report.now result (list self.old) (list self.new) }
        ensures unfinished { IsFalse (finished self.new) }
        ensures cause { HasCause (faults self.old) (faults self.new) result };

    /// Finishes the sink. After `Failed` or `Memory` it isn't finished.
    fn finish(&mut self) -> Result<(), PortFault>
        requires { IsFalse (finished self.old) }
        ensures list { list self.new ≡ list self.old }
        ensures finished { finished self.new ≡ is_ok result }
        ensures cause { HasCause (faults self.old) (faults self.new) result };
}

/// Takes the sink at a position out of the list, drops it, and answers true. Answers false, and
/// changes nothing, exactly where the position is past the list. Takes no memory.
pub fn retire(sinks: &mut Vec<Box<dyn ReportSink>>, at: usize) -> bool
    ensures answer { result ≡ nat_lt at (length sinks.old.items) }
    ensures sinks { sinks.new.items ≡ (if nat_lt at (length sinks.old.items) then remove sinks.old.items at else sinks.old.items) }
{
    if at < sinks.len() {
        sinks.remove(at);
        return true;
    }
    false
}
