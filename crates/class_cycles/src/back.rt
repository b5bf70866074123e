// Ways back to a number, past none of those that are taken.
ghost use Rattle.std.specs.Prelude.{◌≡◌, ◌<◌, ◌^◌, ◌++◌, ◌∷◌, ◌==◌, ◌&&◌, length, IfOk, OnOk};
ghost use Rattle.graph_search.specs.Graph.{marked};
ghost use Rattle.class_cycles.specs.Circuits.{AreWithin};
ghost use Rattle.class_cycles.specs.Back.{IsLeading, IsLeastAfter, IsOnward, IsTurned, lesser_of, turned_one};

use graph_search::{edges, mark_from};
use std::alloc::{AllocError, Global};

// One more pair, the other way round, unless its first number is taken.
fn turn(pairs: &mut Vec<(u32, u32)>, taken: &[bool], from: u32, to: u32) -> Result<(), AllocError>
    requires { from < length taken.now }
    ensures { OnOk result (pairs.new.items ≡ pairs.old.items ++ turned_one taken.now from to) }
{
    if !taken[from as usize] {
        pairs.push((to, from))?;
    }
    Ok(())
}

/// The pairs whose first number isn't taken, the other way round. The only error is want of memory.
pub(crate) fn turned(
    alloc: Global,
    pairs: &[(u32, u32)],
    taken: &[bool],
) -> Result<Vec<(u32, u32)>, AllocError>
    requires { AreWithin (length taken.now) pairs.now }
    ensures { IfOk result (λ v. IsTurned pairs.now taken.now v.items) }
{
    let mut back = Vec::new(alloc);
    for (from, to) in pairs {
        turn(&mut back, taken, *from, *to)?;
    }
    Ok(back)
}

// Marks exactly the numbers that lead back.
fn leading(
    alloc: Global,
    pairs: &[(u32, u32)],
    taken: &[bool],
    end: u32,
) -> Result<Vec<bool>, AllocError>
    requires size { length taken.now < 2 ^ 32 }
    requires within { AreWithin (length taken.now) pairs.now }
    requires end { end < length taken.now }
    ensures { IfOk result (λ v. IsLeading pairs.now taken.now end v.items) }
{
    let back = turned(alloc, pairs, taken)?;
    let next = edges(alloc, taken.len() as u32, back.as_slice())?;
    let mut marks = vec![in alloc; false; taken.len()]?;
    mark_from(alloc, next.as_slice(), &mut marks, end)?;
    Ok(marks)
}

// The lesser of a number and one that was found, if it counts.
fn lesser(found: Option<u32>, counts: bool, number: u32) -> Option<u32>
    ensures { result ≡ lesser_of found counts number }
{
    if !counts {
        return found;
    }
    match found {
        None => Some(number),
        Some(least) => {
            if number < least {
                Some(number)
            } else {
                Some(least)
            }
        }
    }
}

// Whether a pair leads from a number to one that is marked.
fn counts(marks: &[bool], number: u32, from: u32, to: u32) -> bool
    requires { to < length marks.now }
    ensures { result ≡ (from == number && marked marks.now to) }
{
    from == number && marks[to as usize]
}

// The least number that follows one and is marked.
fn least_after(pairs: &[(u32, u32)], marks: &[bool], number: u32) -> Option<u32>
    requires { AreWithin (length marks.now) pairs.now }
    ensures { IsLeastAfter pairs.now marks.now number result }
{
    let mut found = None;
    for (from, to) in pairs {
        found = lesser(found, counts(marks, number, *from, *to), *to);
    }
    found
}

/// The least number that follows one and leads back to `end`, past none that is taken. The only error is want of
/// memory.
pub(crate) fn onward(
    alloc: Global,
    pairs: &[(u32, u32)],
    taken: &[bool],
    end: u32,
    number: u32,
) -> Result<Option<u32>, AllocError>
    requires size { length taken.now < 2 ^ 32 }
    requires within { AreWithin (length taken.now) pairs.now }
    requires end { end < length taken.now }
    ensures { IfOk result (λ o. IsOnward pairs.now taken.now end number o) }
{
    let marks = leading(alloc, pairs, taken, end)?;
    Ok(least_after(pairs, marks.as_slice(), number))
}
