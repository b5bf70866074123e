// Graphs by their edges.
ghost use Rattle.std.specs.Prelude.{◌≡◌, ◌<◌, ◌∷◌, ◌++◌, [], length, slice_index_or, slice_set, IfOk, OnOk};
ghost use Rattle.graph_search.specs.Graph.{ArePairsBelow, IsGraph, graph_of};

use std::alloc::{AllocError, Global};

// A graph of so many numbers, of which none follows another.
#[tactic(auto, using(crate::proofs::EdgeLemmas::graph_none, crate::proofs::EdgeLemmas::graph_push))]
fn apart(alloc: Global, count: u32) -> Result<Vec<Vec<u32>>, AllocError>
    ensures { IfOk result (λ next. IsGraph count [] (graph_of next.items)) }
{
    let mut next = Vec::new(alloc);
    for _number in 0..count {
        next.push(Vec::new(alloc))?;
    }
    Ok(next)
}

// One more edge.
fn add_edge(next: &mut Vec<Vec<u32>>, from: u32, to: u32) -> Result<(), AllocError>
    requires { from < length next.old.items }
    ensures { OnOk result (graph_of next.new.items
        ≡ slice_set (graph_of next.old.items) from (slice_index_or (graph_of next.old.items) from [] ++ to ∷ [])) }
{
    next[from as usize].push(to)?;
    Ok(())
}

/// The graph of so many numbers that has these edges. The only error is want of memory.
pub fn edges(alloc: Global, count: u32, pairs: &[(u32, u32)]) -> Result<Vec<Vec<u32>>, AllocError>
    requires { ArePairsBelow count pairs.now }
    ensures { IfOk result (λ next. IsGraph count pairs.now (graph_of next.items)) }
{
    let mut next = apart(alloc, count)?;
    for (from, to) in pairs {
        add_edge(&mut next, *from, *to)?;
    }
    Ok(next)
}
