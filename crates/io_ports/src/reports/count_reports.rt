// Reports as counts of their codes.
ghost use Rattle.std.specs.Prelude.{◌≡◌, ◌≤◌, ◌^◌, ◌++◌, [], is_ok, OnOk, IfOk};
ghost use Rattle.std.specs.Bool.{IsFalse};
ghost use Rattle.io_ports.specs.Causes.{HasCause};
ghost use Rattle.io_ports.specs.Lines.{code_bound, count_line, count_lines};
ghost use Rattle.io_ports.specs.Lists.{count_reports_sink, count_reports_list, count_reports_finished};
ghost use Rattle.io_ports.specs.Reports.{PutsText, Takes};

use crate::fault::PortFault;
use crate::report::{Report, keep_copy};
use crate::report_sink::ReportSink;
use crate::reports::kept::Kept;
use crate::reports::names::text_of_code;
use crate::sink::Sink;
use std::alloc::{AllocError, Global};

// Above each code of the reports.
fn bound_of(reports: &[Report]) -> u32
    ensures bound { result ≡ code_bound reports.now }
    ensures small { result ≤ 2 ^ 16 }
{
    let mut bound = 0;
    for report in reports {
        bound = bound.max(u32::from(report.code) + 1);
    }
    bound
}

// Adds the line of one code, where a report has it.
fn add_line(
    alloc: Global,
    text: &mut Vec<u8>,
    reports: &[Report],
    code: u16,
) -> Result<(), AllocError>
    ensures { OnOk result (text.new.items ≡ text.old.items ++ count_line code reports.now) }
{
    let count = reports.iter().filter(|r| r.code == code).count();
    if count == 0 {
        return Ok(());
    }
    let name = text_of_code(alloc, code)?;
    let line = format!(in alloc; "{name} {count}\n")?;
    text.extend_from_slice(line.as_bytes())
}

// The lines of all codes.
#[tactic(auto, unfolding(crate::specs::Lines::count_lines))]
fn counts_of(alloc: Global, reports: &[Report]) -> Result<Vec<u8>, AllocError>
    ensures { IfOk result (λ v. v.items ≡ count_lines reports.now) }
{
    let mut text = Vec::new(alloc);
    let bound = bound_of(reports);
    for code in 0..bound {
        add_line(alloc, &mut text, reports, code as u16)?;
    }
    Ok(text)
}

/// Writes one line `CODE N` to a sink of bytes at finish for each code that N reports have, N above
/// 0, in order of the codes' numbers. Contracts see `count_reports_sink`, `count_reports_list` and
/// `count_reports_finished`.
#[derive(Drop)]
pub struct CountReports<S> {
    kept: Kept<S>,
}

impl<S: Sink> CountReports<S> {
    /// No reports so far, over this sink.
    pub fn new(alloc: Global, sink: S) -> Self
        ensures sink { count_reports_sink result ≡ sink }
        ensures list { count_reports_list result ≡ [] }
        ensures unfinished { IsFalse (count_reports_finished result) }
    {
        CountReports {
            kept: Kept::new(alloc, sink),
        }
    }

    /// The sink of bytes.
    pub fn sink(&self) -> &S
        ensures { result.now ≡ count_reports_sink self.now }
    {
        &self.kept.sink
    }
}

impl<S: Sink + Drop> ReportSink for CountReports<S> {
    ghost use Rattle.io_ports.specs.Lists.{count_reports_sink, count_reports_list, count_reports_finished};

    ghost list = { λ s. count_reports_list s };

    ghost finished = { λ s. count_reports_finished s };

    ghost faults = { λ s. S.faults (count_reports_sink s) };

    fn taken(&self) -> usize {
        self.kept.reports.len()
    }

    fn is_finished(&self) -> bool {
        self.kept.is_finished
    }

    // Nothing is put before the end.
    fn take(&mut self, report: &Report) -> Result<(), PortFault>
        requires { IsFalse (count_reports_finished self.old) }
        ensures list { Takes report.now result (count_reports_list self.old) (count_reports_list self.new) }
        ensures unfinished { IsFalse (count_reports_finished self.new) }
        ensures cause { HasCause (S.faults (count_reports_sink self.old)) (S.faults (count_reports_sink self.new)) result }
        ensures bytes { count_reports_sink self.new ≡ count_reports_sink self.old }
    {
        Ok(keep_copy(self.kept.alloc, &mut self.kept.reports, report)?)
    }

    // All lines are put at once, or the empty slice where there is none.
    fn finish(&mut self) -> Result<(), PortFault>
        requires { IsFalse (count_reports_finished self.old) }
        ensures list { count_reports_list self.new ≡ count_reports_list self.old }
        ensures finished { count_reports_finished self.new ≡ is_ok result }
        ensures cause { HasCause (S.faults (count_reports_sink self.old)) (S.faults (count_reports_sink self.new)) result }
        ensures bytes { PutsText (count_lines (count_reports_list self.old)) result
            (S.held (count_reports_sink self.old)) (S.held (count_reports_sink self.new)) }
    {
        let text = counts_of(self.kept.alloc, self.kept.reports.as_slice())?;
        self.kept.close(text.as_slice())
    }
}
