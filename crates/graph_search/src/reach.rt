// What is reached from a number.
ghost use Rattle.std.specs.Prelude.{◌≡◌, ◌<◌, ◌∷◌, [], Some, length, slice_get, OnOk};
ghost use Rattle.graph_search.specs.Graph.{IsClosed, IsMarkedFrom, IsWithin, graph_of};
ghost use Rattle.graph_search.specs.Marks.{AreBelow, Marks};

use std::alloc::{AllocError, Global};

// A number that is marked, and is still to be followed unless it was marked before.
#[tactic(auto, using(crate::proofs::MarkLemmas::marks_old, crate::proofs::MarkLemmas::marks_new))]
fn mark(target: u32, marked: &mut Vec<bool>, pending: &mut Vec<u32>) -> Result<(), AllocError>
    requires { target < length marked.old.items }
    ensures { OnOk result (Marks (target ∷ []) marked.old.items marked.new.items pending.old.items pending.new.items) }
{
    if marked[target as usize] {
        return Ok(());
    }
    marked[target as usize] = true;
    pending.push(target)?;
    Ok(())
}

// Some numbers, one after another.
fn mark_all(
    targets: &[u32],
    marked: &mut Vec<bool>,
    pending: &mut Vec<u32>,
) -> Result<(), AllocError>
    requires { AreBelow targets.now (length marked.old.items) }
    ensures { OnOk result (Marks targets.now marked.old.items marked.new.items pending.old.items pending.new.items) }
{
    for target in targets {
        mark(*target, marked, pending)?;
    }
    Ok(())
}

// What follows a number.
fn following(next: &[Vec<u32>], number: u32) -> &[u32]
    requires { number < length next.now }
    ensures { slice_get (graph_of next.now) number ≡ Some result.now }
{
    next[number as usize].as_slice()
}

/// Marks what a number leads to in a graph, besides what is marked already, which leads to nothing else. The only error is
/// want of memory, and stands too for 2^64 steps.
pub fn mark_from(
    alloc: Global,
    next: &[Vec<u32>],
    marked: &mut Vec<bool>,
    from: u32,
) -> Result<(), AllocError>
    requires within { IsWithin (graph_of next.now) }
    requires size { length marked.old.items ≡ length next.now }
    requires start { from < length next.now }
    requires closed { IsClosed (graph_of next.now) marked.old.items }
    ensures { OnOk result (IsMarkedFrom (graph_of next.now) from marked.old.items marked.new.items) }
{
    let mut pending = Vec::new(alloc);
    mark(from, marked, &mut pending)?;
    for _turn in 0..u64::MAX {
        let Some(number) = pending.pop() else {
            return Ok(());
        };
        mark_all(following(next, number), marked, &mut pending)?;
    }
    Err(AllocError)
}
