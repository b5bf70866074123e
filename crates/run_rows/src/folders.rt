// A row, run over folders.
use crate::escapes::push_bytes;
use crate::row::{File, Link, Row};
use crate::standing::push_standing;
use folder_ports::{FileSink, FolderSource, FolderTarget};
use io_ports::{CountReports, JsonReports, MemorySink, ReportSink, TextReports};
use std::alloc::{AllocError, Global};
use std::fs::Files;
use std::{env, fs, io};
use upgrade_cli::{run, status_number};

// Makes the folders above a path.
fn make_parents(rt: &HostRuntime, path: &str) -> io::Result<()> {
    match path.rsplit_once('/') {
        Some((parents, _)) => fs::create_dir_all(rt, parents),
        None => Ok(()),
    }
}

// Writes a file in a folder, or in the working folder where that is the empty path.
fn put_file(rt: &HostRuntime, folder: &str, file: &File) -> io::Result<()> {
    let mut path = String::from_str(rt.alloc(), folder)?;
    path.push_str(file.0.as_str())?;
    make_parents(rt, path.as_str())?;
    fs::write(rt, path.as_str(), file.1.as_slice())
}

// Makes a link.
fn put_link(rt: &HostRuntime, link: &Link) -> io::Result<()> {
    make_parents(rt, link.path.as_str())?;
    rt.symlink(link.original.as_str(), link.path.as_str())
}

// Writes what stands before a run: the sources, in their order, what the target holds, the settings, the other files, and
// the links.
fn lay_out(rt: &HostRuntime, row: &Row) -> io::Result<()> {
    for file in &row.files {
        put_file(rt, "source/", file)?;
    }
    for file in &row.held {
        put_file(rt, "target/", file)?;
    }
    for file in &row.settings {
        put_file(rt, "", file)?;
    }
    for file in &row.others {
        put_file(rt, "", file)?;
    }
    for link in &row.links {
        put_link(rt, link)?;
    }
    Ok(())
}

// Runs over the ports of the program. Answers the status, and puts the line.
fn run_over(
    alloc: Global,
    words: &[String],
    ports: (FolderSource, FolderTarget),
    files: (FileSink, FileSink, FileSink),
    out: &mut MemorySink,
) -> Result<u8, AllocError> {
    let (mut source, mut target) = ports;
    let mut sinks: Vec<Box<dyn ReportSink>> = Vec::new(alloc);
    sinks.push(Box::new(alloc, TextReports::new(alloc, files.0))?)?;
    sinks.push(Box::new(alloc, JsonReports::new(alloc, files.1))?)?;
    sinks.push(Box::new(alloc, CountReports::new(alloc, files.2))?)?;
    Ok(status_number(run(alloc, words, &mut source, &mut target, out, &mut sinks)))
}

// What a run makes of the working folder.
fn run_here(rt: &HostRuntime, words: &[String]) -> io::Result<String> {
    let alloc = rt.alloc();
    let source = FolderSource::new(rt.clone()?, alloc, "source")?;
    let target = FolderTarget::beside(rt.clone()?, alloc, "target", "source")?;
    let text = FileSink::new(rt.clone()?, alloc, "reports.txt")?;
    let json = FileSink::new(rt.clone()?, alloc, "reports.jsonl")?;
    let counts = FileSink::new(rt.clone()?, alloc, "counts.txt")?;
    let mut out = MemorySink::new(Vec::new(alloc), Vec::new(alloc));
    let status = run_over(
        alloc,
        words,
        (source, target),
        (text, json, counts),
        &mut out,
    )?;
    let mut line = format!(in alloc; "{status} ")?;
    push_bytes(&mut line, out.bytes())?;
    push_standing(rt, alloc, &mut line)?;
    Ok(line)
}

/// What a run over folders makes of a row, in a folder of its own, which is named by this number: its status, the line that
/// it puts, and all that stands in that folder then.
pub fn run_row(rt: &HostRuntime, row: &Row, number: u64) -> io::Result<String> {
    let home = format!(in rt.alloc(); "row{number}")?;
    fs::create_dir(rt, home.as_str())?;
    env::set_current_dir(rt, home.as_str())?;
    lay_out(rt, row)?;
    let text = run_here(rt, row.words.as_slice())?;
    env::set_current_dir(rt, "..")?;
    Ok(text)
}
