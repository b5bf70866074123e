// What stands after a run, on a line.
use crate::escapes::push_bytes;
use io_ports::{Bytes, PathText, ReportSink};
use std::alloc::{AllocError, Global};

/// The most files that are told one by one.
const MOST_FILES: usize = 8;

/// The most bytes of a file that are told one by one.
const MOST_BYTES: usize = 2_000;

/// A file: its path and its bytes, or how many.
pub fn push_file(
    alloc: Global,
    text: &mut String,
    file: &(PathText, Bytes),
) -> Result<(), AllocError> {
    text.push_str(" ")?;
    text.push_str(file.0.as_str())?;
    let bytes = file.1.as_slice();
    if bytes.len() > MOST_BYTES {
        let count = bytes.len();
        return text.push_str(format!(in alloc; " has {count} bytes")?.as_str());
    }
    text.push_str("=")?;
    push_bytes(text, bytes)
}

/// Puts the files of a target on a line, or how many there are.
pub fn push_files(
    alloc: Global,
    text: &mut String,
    files: &[(PathText, Bytes)],
) -> Result<(), AllocError> {
    if files.len() > MOST_FILES {
        let count = files.len();
        return text.push_str(format!(in alloc; " {count} files")?.as_str());
    }
    for file in files {
        push_file(alloc, text, file)?;
    }
    Ok(())
}

// A sink: how many reports it took, and a `+` where it is finished.
fn push_sink(
    alloc: Global,
    text: &mut String,
    count: usize,
    is_finished: bool,
) -> Result<(), AllocError> {
    text.push_str(format!(in alloc; " {count}")?.as_str())?;
    if is_finished {
        text.push_str("+")?;
    }
    Ok(())
}

/// What stands in the sinks.
pub fn sinks_told(alloc: Global, sinks: &[Box<dyn ReportSink>]) -> Result<String, AllocError> {
    let mut text = String::new(alloc);
    for sink in sinks {
        push_sink(alloc, &mut text, sink.taken(), sink.is_finished())?;
    }
    Ok(text)
}
