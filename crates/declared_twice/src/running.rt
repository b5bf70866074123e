// The files that runs reach, as a graph.
ghost use Rattle.std.specs.Prelude.{◌≡◌, ◌<◌, ◌++◌, length, map, IfOk, OnOk};
ghost use Rattle.std.specs.Option.{ForSome};
ghost use Rattle.graph_search.specs.Graph.{graph_of};
ghost use Rattle.graph_search.specs.Marks.{AreBelow};
ghost use Rattle.program_names.specs.Table.{table_of};
ghost use Rattle.program_names.specs.Told.{all_told};
ghost use Rattle.program_names.specs.Whole.{files_of};
ghost use Rattle.declared_twice.specs.Runs.{AreBothWays, ArePairsWithin, IsRuns, starts, turned as other_way};

use crate::includes::include_pairs;
use graph_search::edges;
use program_names::{Program, Told};
use std::alloc::{AllocError, Global};

/// Files as a graph: what each file includes, and for each entry the file before it; and the same the other way round.
#[derive(Drop)]
pub(crate) struct Runs {
    pub(crate) next: Vec<Vec<u32>>,
    pub(crate) before: Vec<Vec<u32>>,
}

// Besides some pairs, each entry with the file before it.
fn add_starts(
    pairs: &mut Vec<(u32, u32)>,
    entries: &[u32],
    prepend: Option<u32>,
) -> Result<(), AllocError>
    ensures { OnOk result (pairs.new.items ≡ pairs.old.items ++ starts entries.now prepend) }
{
    let Some(first) = prepend else {
        return Ok(());
    };
    for entry in entries {
        pairs.push((*entry, first))?;
    }
    Ok(())
}

// Some pairs the other way round.
fn turned(alloc: Global, pairs: &[(u32, u32)]) -> Result<Vec<(u32, u32)>, AllocError>
    ensures { IfOk result (λ ps. ps.items ≡ map other_way pairs.now) }
{
    let mut all = Vec::new(alloc);
    for p in pairs {
        all.push((p.1, p.0))?;
    }
    Ok(all)
}

// Two graphs of some pairs, the second the other way round.
fn both_ways(alloc: Global, count: u32, pairs: &[(u32, u32)]) -> Result<Runs, AllocError>
    requires { ArePairsWithin count pairs.now }
    ensures { IfOk result (λ r. AreBothWays count pairs.now (graph_of r.next.items) (graph_of r.before.items)) }
{
    let back = turned(alloc, pairs)?;
    let next = edges(alloc, count, pairs)?;
    let before = edges(alloc, count, back.as_slice())?;
    Ok(Runs { next, before })
}

/// The graph of the files that each run reaches.
pub(crate) fn run_graphs(
    alloc: Global,
    program: &Program,
    told: &[Told],
    entries: &[u32],
    prepend: Option<u32>,
) -> Result<Runs, AllocError>
    requires told { told.now ≡ all_told (table_of (files_of program.now)) }
    requires entries { AreBelow entries.now (length (files_of program.now)) }
    requires prepend { ForSome prepend (λ p. p < length (files_of program.now)) }
    ensures { IfOk result (λ r. IsRuns
        (files_of program.now) entries.now prepend (graph_of r.next.items) (graph_of r.before.items)) }
{
    let mut pairs = include_pairs(alloc, program, told)?;
    add_starts(&mut pairs, entries, prepend)?;
    let runs = both_ways(alloc, program.file_count(), pairs.as_slice())?;
    Ok(runs)
}
