// Entries that are not listed.
ghost use Rattle.std.specs.Prelude.{◌≡◌, length, IfOk};
ghost use Rattle.std.specs.Option.{ForSome};
ghost use Rattle.graph_search.specs.Graph.{graph_of};
ghost use Rattle.graph_search.specs.Marks.{AreBelow};
ghost use Rattle.program_names.specs.Entries.{paths_of};
ghost use Rattle.program_names.specs.Table.{table_of};
ghost use Rattle.program_names.specs.Told.{all_told};
ghost use Rattle.program_names.specs.Whole.{files_of};
ghost use Rattle.scope_names.specs.Numbers.{counted};
ghost use Rattle.declared_twice.specs.Asked.{AreAll, IsCompleted};
ghost use Rattle.declared_twice.specs.Includes.{IsIncludeGraph};

use crate::includes::include_graph;
use crate::marks::marks_of;
use graph_search::mark_from;
use program_names::{Program, Told};
use std::alloc::{AllocError, Global};

// The numbers of so many files.
fn every_file(alloc: Global, count: u32) -> Result<Vec<u32>, AllocError>
    ensures { IfOk result (λ fs. fs.items ≡ counted 0 count) }
{
    let mut files = Vec::new(alloc);
    for file in 0..count {
        files.push(file)?;
    }
    Ok(files)
}

// Some entries, and then, in the order of paths, each file that no entry so far reaches. Each file is asked once.
fn complete(
    alloc: Global,
    program: &Program,
    next: &[Vec<u32>],
    mut entries: Vec<u32>,
) -> Result<Vec<u32>, AllocError>
    requires graph { IsIncludeGraph
        (paths_of (files_of program.now)) (table_of (files_of program.now)) (graph_of next.now) }
    requires within { AreBelow entries.items (length (files_of program.now)) }
    ensures { IfOk result (λ es. IsCompleted (files_of program.now) entries.items es.items) }
{
    let mut marks = marks_of(alloc, next, entries.as_slice())?;
    for file in 0..program.file_count() {
        if marks[file as usize] {
            continue;
        }
        mark_from(alloc, next, &mut marks, file)?;
        entries.push(file)?;
    }
    Ok(entries)
}

// The same, over the graph of what each file includes.
fn completed(
    alloc: Global,
    program: &Program,
    told: &[Told],
    entries: Vec<u32>,
) -> Result<Vec<u32>, AllocError>
    requires told { told.now ≡ all_told (table_of (files_of program.now)) }
    requires within { AreBelow entries.items (length (files_of program.now)) }
    ensures { IfOk result (λ es. IsCompleted (files_of program.now) entries.items es.items) }
{
    let next = include_graph(alloc, program, told)?;
    let all = complete(alloc, program, next.as_slice(), entries)?;
    Ok(all)
}

/// The entries: every file, or those of a list and then each file that no entry so far reaches.
pub(crate) fn all_entries(
    alloc: Global,
    program: &Program,
    told: &[Told],
    listed: Option<Vec<u32>>,
) -> Result<Vec<u32>, AllocError>
    requires told { told.now ≡ all_told (table_of (files_of program.now)) }
    requires within { ForSome listed (λ es. AreBelow es.items (length (files_of program.now))) }
    ensures { IfOk result (λ es. AreAll (files_of program.now) listed es.items) }
{
    match listed {
        Some(entries) => completed(alloc, program, told, entries),
        None => every_file(alloc, program.file_count()),
    }
}
