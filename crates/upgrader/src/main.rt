//! The program: it upgrades the folder `source` into the folder `target`, writes three files of reports, and prints one
//! line.
#![tactic(auto)]

use folder_ports::{FileSink, FolderSource, FolderTarget, StdoutSink};
use io_ports::{CountReports, JsonReports, ReportSink, TextReports, retire};
use std::alloc::{AllocError, Global};
use std::process::ExitCode;
use std::{env, io};
use upgrade_cli::{Status, run, status_number};

/// The exit status where the words can't be read.
const UNREADABLE_WORDS: u8 = 74;

/// The exit status where no memory is left to begin with.
const NO_MEMORY: u8 = 71;

// The words behind the program's name.
fn words_of(rt: &HostRuntime) -> io::Result<Vec<String>> {
    let mut words = Vec::new(rt.alloc());
    for word in env::args(rt)?.skip(1) {
        words.push(word)?;
    }
    Ok(words)
}

// Runs over the folders, with three sinks of reports: as lines, as JSON, and as counts.
fn run_with(
    alloc: Global,
    words: &[String],
    source: &mut FolderSource,
    target: &mut FolderTarget,
    out: &mut StdoutSink,
    files: (FileSink, FileSink, FileSink),
) -> Result<Status, AllocError> {
    let (text, json, counts) = files;
    let mut sinks: Vec<Box<dyn ReportSink>> = Vec::new(alloc);
    sinks.push(Box::new(alloc, TextReports::new(alloc, text))?)?;
    sinks.push(Box::new(alloc, JsonReports::new(alloc, json))?)?;
    sinks.push(Box::new(alloc, CountReports::new(alloc, counts))?)?;
    let status = run(alloc, words, source, target, out, &mut sinks);
    for _ in 0..u64::MAX {
        if !retire(&mut sinks, 0) {
            break;
        }
    }
    Ok(status)
}

fn run_in_folders(rt: HostRuntime, words: &[String]) -> Result<Status, AllocError> {
    let alloc = rt.alloc();
    let mut source = FolderSource::new(rt.clone()?, alloc, "source")?;
    let mut target = FolderTarget::beside(rt.clone()?, alloc, "target", "source")?;
    let text = FileSink::new(rt.clone()?, alloc, "reports.txt")?;
    let json = FileSink::new(rt.clone()?, alloc, "reports.jsonl")?;
    let counts = FileSink::new(rt.clone()?, alloc, "counts.txt")?;
    let mut out = StdoutSink::new(rt, alloc)?;
    run_with(
        alloc,
        words,
        &mut source,
        &mut target,
        &mut out,
        (text, json, counts),
    )
}

fn main(rt: HostRuntime) -> ExitCode {
    let Ok(words) = words_of(&rt) else {
        return ExitCode::from(UNREADABLE_WORDS);
    };
    match run_in_folders(rt, words.as_slice()) {
        Ok(status) => ExitCode::from(status_number(status)),
        Err(_) => ExitCode::from(NO_MEMORY),
    }
}
