// Rows of sinks of reports.
use crate::shown::{put_bytes, put_done, put_number, put_word};
use crate::words::{number, parts};
use io_ports::{
    CalmList, CalmSink, CountReports, JsonReports, ListSink, MemorySink, PathText, Report,
    ReportSink, Span, TextReports, Weight, retire,
};
use std::alloc::{AllocError, Global};

// A report of the first byte of `a.php`.
fn report_of(alloc: Global, code: u16) -> Result<Report, AllocError> {
    let path = PathText::new(String::from_str(alloc, "a.php")?);
    let span = Span { start: 0, end: 1 };
    Ok(Report {
        path,
        span,
        code,
        cause: 2,
        weight: Weight::Stop,
    })
}

// Hands a report to a sink that isn't finished.
fn take<S: ReportSink>(
    alloc: Global,
    sink: &mut S,
    code: &str,
    out: &mut String,
) -> Result<(), AllocError> {
    let report = report_of(alloc, code.parse::<u16>().unwrap_or(0))?;
    if sink.is_finished() {
        return put_word(out, "late");
    }
    put_done(out, sink.take(&report))
}

// Finishes a sink that isn't finished.
fn finish<S: ReportSink>(sink: &mut S, out: &mut String) -> Result<(), AllocError> {
    if sink.is_finished() {
        return put_word(out, "late");
    }
    put_done(out, sink.finish())
}

// How many reports a sink has, and whether it is finished.
fn put_state<S: ReportSink>(sink: &S, out: &mut String) -> Result<(), AllocError> {
    put_number(out, sink.taken() as u64)?;
    put_word(
        out,
        if sink.is_finished() {
            "finished"
        } else {
            "open"
        },
    )
}

// The calls of a sink: `take:CODE`, `finish` or `state` each.
fn call_all<S: ReportSink>(
    alloc: Global,
    sink: &mut S,
    words: &str,
    out: &mut String,
) -> Result<(), AllocError> {
    for word in words.split(' ') {
        let (call, code, _) = parts(word);
        match call {
            "take" => take(alloc, sink, code, out)?,
            "finish" => finish(sink, out)?,
            _ => put_state(sink, out)?,
        }
    }
    Ok(())
}

// Adds the codes of reports.
fn put_codes(out: &mut String, reports: &[Report]) -> Result<(), AllocError> {
    out.push_str(" [")?;
    for report in reports {
        put_number(out, u64::from(report.code))?;
    }
    out.push_str(" ]")
}

/// A list that fails at some calls.
pub fn memory_list(
    alloc: Global,
    failing: Vec<u64>,
    words: &str,
    out: &mut String,
) -> Result<(), AllocError> {
    let mut list = ListSink::new(alloc, Vec::new(alloc), failing);
    call_all(alloc, &mut list, words, out)?;
    put_codes(out, list.reports())
}

/// A list that never fails.
pub fn calm_list(alloc: Global, words: &str, out: &mut String) -> Result<(), AllocError> {
    let mut list = CalmList::new(alloc, Vec::new(alloc));
    call_all(alloc, &mut list, words, out)?;
    put_codes(out, list.reports())
}

/// Lines in a sink that never fails.
pub fn text(alloc: Global, words: &str, out: &mut String) -> Result<(), AllocError> {
    let mut lines = TextReports::new(alloc, CalmSink::new(Vec::new(alloc)));
    call_all(alloc, &mut lines, words, out)?;
    put_bytes(out, lines.sink().bytes())
}

/// Rows in JSON, in a sink that fails at some calls.
pub fn json(
    alloc: Global,
    failing: Vec<u64>,
    words: &str,
    out: &mut String,
) -> Result<(), AllocError> {
    let mut rows = JsonReports::new(alloc, MemorySink::new(Vec::new(alloc), failing));
    call_all(alloc, &mut rows, words, out)?;
    put_bytes(out, rows.sink().bytes())
}

/// Counts of codes, in a sink that fails at some calls.
pub fn counts(
    alloc: Global,
    failing: Vec<u64>,
    words: &str,
    out: &mut String,
) -> Result<(), AllocError> {
    let mut counts = CountReports::new(alloc, MemorySink::new(Vec::new(alloc), failing));
    call_all(alloc, &mut counts, words, out)?;
    put_bytes(out, counts.sink().bytes())
}

/// Of two lists, with no report and with one, takes that at a position out.
pub fn retired(alloc: Global, at: &str, out: &mut String) -> Result<(), AllocError> {
    let first: Box<dyn ReportSink> = Box::new(alloc, CalmList::new(alloc, Vec::new(alloc)))?;
    let taken = vec![in alloc; report_of(alloc, 4)?]?;
    let second: Box<dyn ReportSink> = Box::new(alloc, CalmList::new(alloc, taken))?;
    let mut sinks = vec![in alloc; first, second]?;
    put_word(
        out,
        if retire(&mut sinks, number(at) as usize) {
            "out"
        } else {
            "none"
        },
    )?;
    for sink in &sinks {
        put_number(out, sink.taken() as u64)?;
    }
    Ok(())
}
