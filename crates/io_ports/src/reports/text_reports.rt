// Reports as lines of text.
ghost use Rattle.std.specs.Prelude.{◌≡◌, [], is_ok};
ghost use Rattle.std.specs.Bool.{IsFalse};
ghost use Rattle.io_ports.specs.Causes.{HasCause};
ghost use Rattle.io_ports.specs.Lines.{line};
ghost use Rattle.io_ports.specs.Lists.{text_reports_sink, text_reports_list, text_reports_finished};
ghost use Rattle.io_ports.specs.Reports.{PutsText, StaysWritten, Takes};

use crate::fault::PortFault;
use crate::report::Report;
use crate::report_sink::ReportSink;
use crate::reports::kept::Kept;
use crate::reports::line_text::report_line;
use crate::sink::Sink;
use std::alloc::Global;

/// Writes `report_line` of each report to a sink of bytes as it is taken. Contracts see
/// `text_reports_sink`, `text_reports_list` and `text_reports_finished`.
#[derive(Drop)]
pub struct TextReports<S> {
    kept: Kept<S>,
}

impl<S: Sink> TextReports<S> {
    /// No reports so far, over this sink.
    pub fn new(alloc: Global, sink: S) -> Self
        ensures sink { text_reports_sink result ≡ sink }
        ensures list { text_reports_list result ≡ [] }
        ensures unfinished { IsFalse (text_reports_finished result) }
    {
        TextReports {
            kept: Kept::new(alloc, sink),
        }
    }

    /// The sink of bytes.
    pub fn sink(&self) -> &S
        ensures { result.now ≡ text_reports_sink self.now }
    {
        &self.kept.sink
    }
}

impl<S: Sink + Drop> ReportSink for TextReports<S> {
    ghost use Rattle.io_ports.specs.Lists.{text_reports_sink, text_reports_list, text_reports_finished};

    ghost list = { λ s. text_reports_list s };

    ghost finished = { λ s. text_reports_finished s };

    ghost faults = { λ s. S.faults (text_reports_sink s) };

    fn taken(&self) -> usize {
        self.kept.reports.len()
    }

    fn is_finished(&self) -> bool {
        self.kept.is_finished
    }

    // The line of the report is put, and nothing else.
    fn take(&mut self, report: &Report) -> Result<(), PortFault>
        requires { IsFalse (text_reports_finished self.old) }
        ensures list { Takes report.now result (text_reports_list self.old) (text_reports_list self.new) }
        ensures unfinished { IsFalse (text_reports_finished self.new) }
        ensures cause { HasCause (S.faults (text_reports_sink self.old)) (S.faults (text_reports_sink self.new)) result }
        ensures bytes { PutsText (line report.now) result
            (S.held (text_reports_sink self.old)) (S.held (text_reports_sink self.new)) }
        ensures written { StaysWritten line result
            (text_reports_list self.old) (S.held (text_reports_sink self.old))
            (text_reports_list self.new) (S.held (text_reports_sink self.new)) }
    {
        let line = report_line(self.kept.alloc, report)?;
        self.kept.put_line(report, line.as_slice())
    }

    // No line is left: the empty slice is put.
    fn finish(&mut self) -> Result<(), PortFault>
        requires { IsFalse (text_reports_finished self.old) }
        ensures list { text_reports_list self.new ≡ text_reports_list self.old }
        ensures finished { text_reports_finished self.new ≡ is_ok result }
        ensures cause { HasCause (S.faults (text_reports_sink self.old)) (S.faults (text_reports_sink self.new)) result }
        ensures bytes { PutsText [] result
            (S.held (text_reports_sink self.old)) (S.held (text_reports_sink self.new)) }
        ensures written { StaysWritten line result
            (text_reports_list self.old) (S.held (text_reports_sink self.old))
            (text_reports_list self.new) (S.held (text_reports_sink self.new)) }
    {
        self.kept.close(&[])
    }
}
