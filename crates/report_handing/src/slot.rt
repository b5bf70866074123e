// A sink of reports in its box.
ghost use Rattle.std.specs.Prelude.{◌≡◌, ℕ, List, Bool, is_ok};
ghost use Rattle.std.specs.Bool.{IsFalse};
ghost use Rattle.io_ports.specs.Causes.{HasCause};
ghost use Rattle.io_ports.specs.Reports.{Takes};
ghost use Rattle.io_ports.specs.declared.report.Report.{Report as AReport};

use io_ports::{PortFault, Report, ReportSink};

/// A sink of reports among others.
pub trait Slot {
    /// The reports that it took, in order.
    ghost reports: { Self → List AReport };

    /// Whether it is finished.
    ghost closed: { Self → Bool };

    /// How often a call failed.
    ghost failures: { Self → ℕ };

    /// Takes one more report.
    fn give(&mut self, report: &Report) -> Result<(), PortFault>
        requires { IsFalse (closed self.old) }
        ensures reports { Takes report.now result (reports self.old) (reports self.new) }
        ensures unfinished { IsFalse (closed self.new) }
        ensures cause { HasCause (failures self.old) (failures self.new) result };

    /// Finishes it.
    fn close(&mut self) -> Result<(), PortFault>
        requires { IsFalse (closed self.old) }
        ensures reports { reports self.new ≡ reports self.old }
        ensures finished { closed self.new ≡ is_ok result }
        ensures cause { HasCause (failures self.old) (failures self.new) result };
}

impl Slot for Box<dyn ReportSink> {
    ghost reports = { λ s. (ReportSink-box s).list s.value };

    ghost closed = { λ s. (ReportSink-box s).finished s.value };

    ghost failures = { λ s. (ReportSink-box s).faults s.value };

    fn give(&mut self, report: &Report) -> Result<(), PortFault> {
        (**self).take(report)
    }

    fn close(&mut self) -> Result<(), PortFault> {
        (**self).finish()
    }
}
