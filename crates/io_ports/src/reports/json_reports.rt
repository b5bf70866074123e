// Reports as lines of JSON.
ghost use Rattle.std.specs.Prelude.{◌≡◌, [], is_ok};
ghost use Rattle.std.specs.Bool.{IsFalse};
ghost use Rattle.io_ports.specs.Causes.{HasCause};
ghost use Rattle.io_ports.specs.Lines.{json_line};
ghost use Rattle.io_ports.specs.Lists.{json_reports_sink, json_reports_list, json_reports_finished};
ghost use Rattle.io_ports.specs.Reports.{PutsText, StaysWritten, Takes};

use crate::fault::PortFault;
use crate::report::Report;
use crate::report_sink::ReportSink;
use crate::reports::json_text::report_json;
use crate::reports::kept::Kept;
use crate::sink::Sink;
use std::alloc::Global;

/// Writes `report_json` of each report to a sink of bytes as it is taken. Contracts see
/// `json_reports_sink`, `json_reports_list` and `json_reports_finished`.
#[derive(Drop)]
pub struct JsonReports<S> {
    kept: Kept<S>,
}

impl<S: Sink> JsonReports<S> {
    /// No reports so far, over this sink.
    pub fn new(alloc: Global, sink: S) -> Self
        ensures sink { json_reports_sink result ≡ sink }
        ensures list { json_reports_list result ≡ [] }
        ensures unfinished { IsFalse (json_reports_finished result) }
    {
        JsonReports {
            kept: Kept::new(alloc, sink),
        }
    }

    /// The sink of bytes.
    pub fn sink(&self) -> &S
        ensures { result.now ≡ json_reports_sink self.now }
    {
        &self.kept.sink
    }
}

impl<S: Sink + Drop> ReportSink for JsonReports<S> {
    ghost use Rattle.io_ports.specs.Lists.{json_reports_sink, json_reports_list, json_reports_finished};

    ghost list = { λ s. json_reports_list s };

    ghost finished = { λ s. json_reports_finished s };

    ghost faults = { λ s. S.faults (json_reports_sink s) };

    fn taken(&self) -> usize {
        self.kept.reports.len()
    }

    fn is_finished(&self) -> bool {
        self.kept.is_finished
    }

    // The line of the report is put, and nothing else.
    fn take(&mut self, report: &Report) -> Result<(), PortFault>
        requires { IsFalse (json_reports_finished self.old) }
        ensures list { Takes report.now result (json_reports_list self.old) (json_reports_list self.new) }
        ensures unfinished { IsFalse (json_reports_finished self.new) }
        ensures cause { HasCause (S.faults (json_reports_sink self.old)) (S.faults (json_reports_sink self.new)) result }
        ensures bytes { PutsText (json_line report.now) result
            (S.held (json_reports_sink self.old)) (S.held (json_reports_sink self.new)) }
        ensures written { StaysWritten json_line result
            (json_reports_list self.old) (S.held (json_reports_sink self.old))
            (json_reports_list self.new) (S.held (json_reports_sink self.new)) }
    {
        let line = report_json(self.kept.alloc, report)?;
        self.kept.put_line(report, line.as_slice())
    }

    // No line is left: the empty slice is put.
    fn finish(&mut self) -> Result<(), PortFault>
        requires { IsFalse (json_reports_finished self.old) }
        ensures list { json_reports_list self.new ≡ json_reports_list self.old }
        ensures finished { json_reports_finished self.new ≡ is_ok result }
        ensures cause { HasCause (S.faults (json_reports_sink self.old)) (S.faults (json_reports_sink self.new)) result }
        ensures bytes { PutsText [] result
            (S.held (json_reports_sink self.old)) (S.held (json_reports_sink self.new)) }
        ensures written { StaysWritten json_line result
            (json_reports_list self.old) (S.held (json_reports_sink self.old))
            (json_reports_list self.new) (S.held (json_reports_sink self.new)) }
    {
        self.kept.close(&[])
    }
}
