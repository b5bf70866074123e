// A report beside its source.
ghost use Rattle.std.specs.Prelude.{◌≡◌, ◌≤◌, IfOk, length, string_bytes};
ghost use Rattle.report_places.specs.Shown as spec;

use crate::line::ReportLine;
use crate::place::{Place, line_at, place_at};
use std::alloc::{AllocError, Global};

// `PATH:LINE:COLUMN: CODE CAUSE WEIGHT`.
fn head(alloc: Global, report: &ReportLine, place: Place) -> Result<String, AllocError>
    ensures { IfOk result (λ s. string_bytes s ≡ spec.head report.now place) }
{
    let path = report.path;
    let line = place.line;
    let column = place.column;
    let code = report.code;
    let cause = report.cause;
    let weight = report.weight;
    format!(in alloc; "{path}:{line}:{column}: {code} {cause} {weight}\n")
}

// What stands below the bytes in front of a marked place: a blank for each, and a tab for a tab.
fn blanks(alloc: Global, front: &[u8]) -> Result<Vec<u8>, AllocError>
    ensures { IfOk result (λ v. v.items ≡ spec.blanks front.now) }
{
    front
        .iter()
        .map(|byte| if *byte == b'\t' { b'\t' } else { b' ' })
        .collect(alloc)
}

// A line, and below it the mark of a place of so many bytes behind so many.
fn marked_line(
    alloc: Global,
    line: &[u8],
    before: usize,
    count: usize,
) -> Result<Vec<u8>, AllocError>
    ensures { IfOk result (λ v. v.items ≡ spec.marked_line line.now before count) }
{
    let mut text = Vec::from_slice(alloc, line)?;
    text.push(b'\n')?;
    let front = before.min(line.len());
    text.extend_from_slice(blanks(alloc, &line[..front])?.as_slice())?;
    let marked = count.min(line.len() - front).max(1);
    text.extend_from_slice(vec![in alloc; b'^'; marked]?.as_slice())?;
    text.push(b'\n')?;
    Ok(text)
}

/// A report of the bytes from `start` to `end` of its source: its line, the line of source that it begins in, and a mark
/// below the bytes that are meant. The only error is want of memory.
pub fn shown(
    alloc: Global,
    report: &ReportLine,
    source: &[u8],
    start: usize,
    end: usize,
) -> Result<Vec<u8>, AllocError>
    requires within { start ≤ length source.now }
    requires order { start ≤ end }
    ensures { IfOk result (λ v. v.items ≡ spec.shown report.now source.now start end) }
{
    let place = place_at(source, start);
    let mut text = head(alloc, report, place)?.into_bytes();
    let line = line_at(source, start);
    let marked = marked_line(alloc, line, place.column - 1, end - start)?;
    text.extend_from_slice(marked.as_slice())?;
    Ok(text)
}
