//! Prints each report of `reports.txt` with its line and column, its line of `source/`, and a mark below it.
#![tactic(auto)]

use folder_ports::FolderSource;
use io_ports::{Found, SourceTree};
use report_places::{read_line, shown};
use std::alloc::{AllocError, Global};
use std::io;
use std::io::Write;
use std::process::ExitCode;

/// The exit status where a file can't be read, or has another form.
const UNREADABLE: u8 = 74;

/// The most bytes of a file that is read.
const MOST: u64 = 1 << 30;

// The bytes of a file of the source, or none where it can't be read.
fn source_of(
    alloc: Global,
    source: &mut FolderSource,
    path: &str,
) -> Result<Option<Vec<u8>>, AllocError> {
    let mut bytes = Vec::new(alloc);
    match source.read(path, MOST, &mut bytes) {
        Ok(Found::Whole) => Ok(Some(bytes)),
        _ => Ok(None),
    }
}

// What is shown of a line, or none where it is no report of a file that is there.
fn shown_line(
    alloc: Global,
    source: &mut FolderSource,
    line: &str,
) -> Result<Option<Vec<u8>>, AllocError> {
    let Some(report) = read_line(line) else {
        return Ok(None);
    };
    let (Ok(start), Ok(end)) = (report.start.parse::<usize>(), report.end.parse::<usize>()) else {
        return Ok(None);
    };
    let Some(bytes) = source_of(alloc, source, report.path)? else {
        return Ok(None);
    };
    if start > end || start > bytes.len() {
        return Ok(None);
    }
    let text = shown(alloc, &report, bytes.as_slice(), start, end)?;
    Ok(Some(text))
}

// The bytes of the file of reports, or none where it can't be read.
fn reports_of(alloc: Global, source: &mut FolderSource) -> Result<Option<Vec<u8>>, AllocError> {
    let mut bytes = Vec::new(alloc);
    match source.settings("reports.txt", MOST, &mut bytes) {
        Ok(Found::Whole) => Ok(Some(bytes)),
        _ => Ok(None),
    }
}

// Prints each report; answers whether all could be shown.
fn print_all(rt: HostRuntime) -> io::Result<bool> {
    let alloc = rt.alloc();
    let mut source = FolderSource::new(rt.clone()?, alloc, "source")?;
    let Some(reports) = reports_of(alloc, &mut source)? else {
        eprintln!(rt; "places: there is no reports.txt here")?;
        return Ok(false);
    };
    let mut is_whole = true;
    let Ok(text) = str::from_utf8(reports.as_slice()) else {
        return Ok(false);
    };
    let mut out = rt.stdout();
    for line in text.lines() {
        match shown_line(alloc, &mut source, line)? {
            Some(shown) => out.write_all(shown.as_slice())?,
            None => {
                eprintln!(rt; "places: not to be shown: {line}")?;
                is_whole = false;
            }
        }
    }
    Ok(is_whole)
}

fn main(rt: HostRuntime) -> ExitCode {
    match print_all(rt) {
        Ok(true) => ExitCode::SUCCESS,
        _ => ExitCode::from(UNREADABLE),
    }
}
