// Reports in memory, where no call fails.
ghost use Rattle.std.specs.Prelude.{◌≡◌};
ghost use Rattle.std.specs.Bool.{IsFalse};
ghost use Rattle.io_ports.specs.Lists.{calm_list, calm_list_finished};

use crate::fault::PortFault;
use crate::report::{Report, keep_copy};
use crate::report_sink::ReportSink;
use std::alloc::Global;

/// Reports in memory, where no call fails. Contracts see `calm_list` and `calm_list_finished`.
#[derive(Drop)]
pub struct CalmList {
    alloc: Global,
    reports: Vec<Report>,
    is_finished: bool,
}

impl CalmList {
    /// These reports, not finished.
    pub fn new(alloc: Global, reports: Vec<Report>) -> CalmList
        ensures list { calm_list result ≡ reports.items }
        ensures unfinished { IsFalse (calm_list_finished result) }
    {
        CalmList {
            alloc,
            reports,
            is_finished: false,
        }
    }

    /// The reports.
    pub fn reports(&self) -> &[Report]
        ensures { result.now ≡ calm_list self.now }
    {
        self.reports.as_slice()
    }
}

impl ReportSink for CalmList {
    ghost use Rattle.io_ports.specs.Lists.{calm_list, calm_list_finished};

    ghost list = { calm_list };

    ghost finished = { calm_list_finished };

    ghost faults = { λ _. 0 };

    fn taken(&self) -> usize {
        self.reports.len()
    }

    fn is_finished(&self) -> bool {
        self.is_finished
    }

    fn take(&mut self, report: &Report) -> Result<(), PortFault> {
        Ok(keep_copy(self.alloc, &mut self.reports, report)?)
    }

    fn finish(&mut self) -> Result<(), PortFault> {
        self.is_finished = true;
        Ok(())
    }
}
