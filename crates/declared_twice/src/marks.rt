// Marks of what some files reach.
ghost use Rattle.std.specs.Prelude.{◌≡◌, ◌<◌, false, length, replicate, IfOk};
ghost use Rattle.graph_search.specs.Graph.{IsWithin, graph_of, marked};
ghost use Rattle.graph_search.specs.Marks.{AreBelow};
ghost use Rattle.declared_twice.specs.Marked.{Marked};

use graph_search::mark_from;
use std::alloc::{AllocError, Global};

// No mark.
pub(crate) fn no_marks(alloc: Global, count: usize) -> Result<Vec<bool>, AllocError>
    ensures { IfOk result (λ ms. ms.items ≡ replicate count false) }
{
    vec![in alloc; false; count]
}

/// Whether a number is marked.
pub(crate) fn is_marked(marks: &[bool], number: u32) -> bool
    requires { number < length marks.now }
    ensures { result ≡ marked marks.now number }
{
    marks[number as usize]
}

// What some numbers lead to.
pub(crate) fn marks_of(
    alloc: Global,
    next: &[Vec<u32>],
    from: &[u32],
) -> Result<Vec<bool>, AllocError>
    requires within { IsWithin (graph_of next.now) }
    requires below { AreBelow from.now (length next.now) }
    ensures { IfOk result (λ ms. Marked (graph_of next.now) from.now ms.items) }
{
    let mut marks = no_marks(alloc, next.len())?;
    for number in from {
        mark_from(alloc, next, &mut marks, *number)?;
    }
    Ok(marks)
}
