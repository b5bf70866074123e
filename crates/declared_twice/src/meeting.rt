// The files that one run reaches together with a file.
ghost use Rattle.std.specs.Prelude.{◌≡◌, ◌<◌, length, IfOk, OnOk};
ghost use Rattle.std.specs.Option.{ForSome};
ghost use Rattle.graph_search.specs.Graph.{graph_of};
ghost use Rattle.declared_twice.specs.Runs.{AreMet, AreRuns};

use crate::marks::{is_marked, no_marks};
use crate::running::Runs;
use graph_search::mark_from;
use std::alloc::{AllocError, Global};

/// What one run reaches that reaches a file.
#[derive(Drop)]
pub(crate) struct Met {
    pub(crate) file: u32,
    pub(crate) marks: Vec<bool>,
}

// What the entries lead to that lead to a file; the other way round these are what the file leads to.
fn marks_met(
    alloc: Global,
    next: &[Vec<u32>],
    before: &[Vec<u32>],
    entries: &[u32],
    file: u32,
) -> Result<Vec<bool>, AllocError>
    requires runs { AreRuns (graph_of next.now) (graph_of before.now) entries.now }
    requires file { file < length (graph_of next.now) }
    ensures { IfOk result (λ ms. AreMet (graph_of next.now) entries.now file ms.items) }
{
    let mut reaching = no_marks(alloc, before.len())?;
    mark_from(alloc, before, &mut reaching, file)?;
    let mut reached = no_marks(alloc, next.len())?;
    for entry in entries {
        let is_before = is_marked(reaching.as_slice(), *entry);
        if !is_before {
            continue;
        }
        mark_from(alloc, next, &mut reached, *entry)?;
    }
    Ok(reached)
}

/// What one run reaches that reaches a file, unless that is known.
pub(crate) fn met_with(
    alloc: Global,
    runs: &Runs,
    entries: &[u32],
    file: u32,
    known: Option<Met>,
) -> Result<Met, AllocError>
    requires runs { AreRuns (graph_of runs.now.next.items) (graph_of runs.now.before.items) entries.now }
    requires file { file < length (graph_of runs.now.next.items) }
    requires known { ForSome known (λ m. AreMet (graph_of runs.now.next.items) entries.now m.file m.marks.items) }
    ensures file { IfOk result (λ m. m.file ≡ file) }
    ensures met { IfOk result (λ m. AreMet (graph_of runs.now.next.items) entries.now file m.marks.items) }
{
    if let Some(old) = known {
        if old.file == file {
            return Ok(old);
        }
    }
    let marks = marks_met(
        alloc,
        runs.next.as_slice(),
        runs.before.as_slice(),
        entries,
        file,
    )?;
    Ok(Met { file, marks })
}
