// A row, run.
ghost use Rattle.std.specs.Prelude.{IfOk};
ghost use Rattle.io_ports.specs.Files.{AreDistinct, IsTree};

use crate::escapes::push_bytes;
use crate::order::are_sources;
use crate::row::{Failing, File, Row};
use crate::short::ShortTarget;
use crate::told::{push_files, sinks_told};
use folder_ports::FileSink;
use io_ports::{
    ListSink, MemorySink, MemorySource, MemoryTarget, ReportSink, Sink, SourceTree, TargetTree,
    TextReports,
};
use std::alloc::{AllocError, Global};
use std::{fs, io};
use upgrade_cli::{run, status_number};

// One file, or none.
fn at_most_one(alloc: Global, file: Option<File>) -> Result<Vec<File>, AllocError>
    ensures distinct { IfOk result (λ v. AreDistinct v.items) }
    ensures tree { IfOk result (λ v. IsTree v.items) }
{
    let mut files = Vec::new(alloc);
    if let Some(file) = file {
        files.push(file)?;
    }
    Ok(files)
}

// A run with three sinks of reports: two in memory, and one of lines. Answers its status, and what stands in the sinks.
fn run_with<T: SourceTree, D: TargetTree, O: Sink>(
    alloc: Global,
    words: &[String],
    source: &mut T,
    target: &mut D,
    out: &mut O,
    failing: (Vec<u64>, Vec<u64>),
    lines: FileSink,
) -> Result<(u8, String), AllocError> {
    let mut sinks: Vec<Box<dyn ReportSink>> = Vec::new(alloc);
    sinks.push(Box::new(alloc, ListSink::new(alloc, Vec::new(alloc), failing.0))?)?;
    sinks.push(Box::new(alloc, ListSink::new(alloc, Vec::new(alloc), failing.1))?)?;
    sinks.push(Box::new(alloc, TextReports::new(alloc, lines))?)?;
    let status = status_number(run(alloc, words, source, target, out, &mut sinks));
    let told = sinks_told(alloc, sinks.as_slice())?;
    Ok((status, told))
}

// Puts the lines of reports on a line; a file that isn't there has none.
fn push_reports(rt: &HostRuntime, text: &mut String, name: &str) -> Result<(), AllocError> {
    match fs::read(rt, name) {
        Ok(bytes) => push_bytes(text, bytes.as_slice()),
        Err(_) => text.push_str("none"),
    }
}

// What stands after a run over these ports.
fn run_ports(
    rt: &HostRuntime,
    words: &[String],
    source: &mut MemorySource,
    target: &mut ShortTarget,
    out: &mut MemorySink,
    failing: (Vec<u64>, Vec<u64>),
    name: &str,
) -> io::Result<String> {
    let alloc = rt.alloc();
    let lines = FileSink::new(rt.clone()?, alloc, name)?;
    let (status, sinks) = run_with(alloc, words, source, target, out, failing, lines)?;
    let mut text = format!(in alloc; "{status} ")?;
    push_bytes(&mut text, out.bytes())?;
    text.push_str(" target")?;
    push_files(alloc, &mut text, target.files())?;
    text.push_str(" sinks")?;
    text.push_str(sinks.as_str())?;
    text.push_str(" reports ")?;
    push_reports(rt, &mut text, name)?;
    Ok(text)
}

/// What a run makes of a row, which has this number: its status, the line that it puts, what the target holds, what stands
/// in the sinks, and the lines of reports.
pub fn run_row(rt: &HostRuntime, row: Row, number: u64) -> io::Result<String> {
    let alloc = rt.alloc();
    let Row {
        name: _,
        words,
        settings,
        files,
        held,
        others: _,
        links: _,
        failing,
        short,
    } = row;
    let Failing {
        source,
        target,
        out,
        first,
        second,
    } = failing;
    if !are_sources(files.as_slice()) {
        return Ok(String::from_str(alloc, "these are no sources")?);
    }
    let settings = at_most_one(alloc, settings)?;
    let held = at_most_one(alloc, held)?;
    let mut source = MemorySource::new(files, settings, source);
    let mut target = ShortTarget::new(MemoryTarget::new(alloc, held, target), short);
    let mut out = MemorySink::new(Vec::new(alloc), out);
    let name = format!(in alloc; "reports{number}.txt")?;
    run_ports(
        rt,
        words.as_slice(),
        &mut source,
        &mut target,
        &mut out,
        (first, second),
        name.as_str(),
    )
}
