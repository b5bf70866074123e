// Reports in memory.
ghost use Rattle.std.specs.Prelude.{◌≡◌, is_ok};
ghost use Rattle.std.specs.Bool.{IsFalse};
ghost use Rattle.io_ports.specs.Causes.{HasCause};
ghost use Rattle.io_ports.specs.Fails.{Fails, IsFresh};
ghost use Rattle.io_ports.specs.Lists.{list_sink_list, list_sink_finished, list_sink_faults, list_sink_tally};
ghost use Rattle.io_ports.specs.Reports.{Takes};

use crate::fault::PortFault;
use crate::memory::tally::Tally;
use crate::report::{Report, keep_copy};
use crate::report_sink::ReportSink;
use std::alloc::Global;

/// Reports in memory. Contracts see `list_sink_list`, `list_sink_finished` and
/// `list_sink_tally`.
#[derive(Drop)]
pub struct ListSink {
    alloc: Global,
    reports: Vec<Report>,
    is_finished: bool,
    tally: Tally,
}

impl ListSink {
    /// These reports, not finished. `failing` has the numbers, from 1, of the calls of `take` and
    /// `finish` that fail.
    pub fn new(alloc: Global, reports: Vec<Report>, failing: Vec<u64>) -> ListSink
        ensures list { list_sink_list result ≡ reports.items }
        ensures unfinished { IsFalse (list_sink_finished result) }
        ensures tally { IsFresh failing.items (list_sink_tally result) }
    {
        ListSink {
            alloc,
            reports,
            is_finished: false,
            tally: Tally::new(failing),
        }
    }

    /// The reports.
    pub fn reports(&self) -> &[Report]
        ensures { result.now ≡ list_sink_list self.now }
    {
        self.reports.as_slice()
    }
}

impl ReportSink for ListSink {
    ghost use Rattle.io_ports.specs.Lists.{list_sink_list, list_sink_finished, list_sink_faults};

    ghost list = { list_sink_list };

    ghost finished = { list_sink_finished };

    ghost faults = { list_sink_faults };

    fn taken(&self) -> usize {
        self.reports.len()
    }

    fn is_finished(&self) -> bool {
        self.is_finished
    }

    fn take(&mut self, report: &Report) -> Result<(), PortFault>
        requires { IsFalse (list_sink_finished self.old) }
        ensures list { Takes report.now result (list_sink_list self.old) (list_sink_list self.new) }
        ensures unfinished { IsFalse (list_sink_finished self.new) }
        ensures cause { HasCause (list_sink_faults self.old) (list_sink_faults self.new) result }
        ensures fails { Fails (list_sink_tally self.old) (list_sink_tally self.new) result }
    {
        if self.tally.fails() {
            return Err(PortFault::Failed);
        }
        Ok(keep_copy(self.alloc, &mut self.reports, report)?)
    }

    fn finish(&mut self) -> Result<(), PortFault>
        requires { IsFalse (list_sink_finished self.old) }
        ensures list { list_sink_list self.new ≡ list_sink_list self.old }
        ensures finished { list_sink_finished self.new ≡ is_ok result }
        ensures cause { HasCause (list_sink_faults self.old) (list_sink_faults self.new) result }
        ensures fails { Fails (list_sink_tally self.old) (list_sink_tally self.new) result }
    {
        if self.tally.fails() {
            return Err(PortFault::Failed);
        }
        self.is_finished = true;
        Ok(())
    }
}
