// The first cycle of numbers.
ghost use Rattle.std.specs.Prelude.{◌≡◌, ◌<◌, ◌^◌, ℕ, false, [], length, IfOk};
ghost use Rattle.graph_search.specs.Graph.{marked};
ghost use Rattle.class_cycles.specs.Circuits.{AreWithin, IsFirstCircuit, IsCircuitAnswer};
ghost use Rattle.class_cycles.specs.Back.{IsLeastBack};
ghost use Rattle.class_cycles.specs.Begins.{AreBeginnings, IsSecond};
ghost use Rattle.class_cycles.specs.Walked.{LeadsBack, Walked};

use crate::back::onward;
use crate::beginnings::beginnings;
use crate::levels::levels_of;
use std::alloc::{AllocError, Global};

// The least number that follows one and leads back to `end`, where there is one.
fn next_number(
    alloc: Global,
    pairs: &[(u32, u32)],
    taken: &[bool],
    end: u32,
    number: u32,
) -> Result<u32, AllocError>
    requires size { length taken.now < 2 ^ 32 }
    requires within { AreWithin (length taken.now) pairs.now }
    requires end { end < length taken.now }
    requires leads { LeadsBack pairs.now taken.now end number }
    ensures { IfOk result (λ s. IsLeastBack pairs.now taken.now end number s) }
{
    match onward(alloc, pairs, taken, end, number)? {
        Some(next) => Ok(next),
        None => unreachable!(),
    }
}

// The first cycle, from its first two numbers on.
fn around(
    alloc: Global,
    pairs: &[(u32, u32)],
    taken: &mut [bool],
    first: u32,
    second: u32,
) -> Result<Vec<u32>, AllocError>
    requires size { length taken.old < 2 ^ 32 }
    requires begun { Walked pairs.now taken.old first [] second }
    ensures { IfOk result (λ v. IsFirstCircuit pairs.now v.items) }
{
    let mut path = Vec::new(alloc);
    path.push(first)?;
    let mut next = second;
    for _turn in 0..u64::MAX {
        if next == first {
            return Ok(path);
        }
        path.push(next)?;
        taken[next as usize] = true;
        next = next_number(alloc, pairs, taken, first, next)?;
    }
    Err(AllocError)
}

// The second number of the first cycle that begins with a number, if one does.
fn second_number(
    alloc: Global,
    pairs: &[(u32, u32)],
    taken: &[bool],
    begins: &[bool],
    first: u32,
) -> Result<Option<u32>, AllocError>
    requires size { length taken.now < 2 ^ 32 }
    requires within { AreWithin (length taken.now) pairs.now }
    requires first { first < length taken.now }
    requires others { (b : ℕ) → first < b → marked taken.now b ≡ false }
    requires begins_size { length begins.now ≡ length taken.now }
    requires begins { AreBeginnings pairs.now begins.now }
    ensures { IfOk result (λ o. IsSecond pairs.now taken.now first o) }
{
    if !begins[first as usize] {
        return Ok(None);
    }
    onward(alloc, pairs, taken, first, first)
}

/// The first of the cycles of numbers below `count`, the second of each pair following the first one, in the order of
/// dictionaries; none exactly where there is none. The only error is want of memory, and stands too for 2^64 steps.
pub(crate) fn first_circuit(
    alloc: Global,
    count: u32,
    pairs: &[(u32, u32)],
) -> Result<Option<Vec<u32>>, AllocError>
    requires { AreWithin count pairs.now }
    ensures { IfOk result (λ o. IsCircuitAnswer pairs.now o) }
{
    let levels = levels_of(alloc, count, pairs)?;
    let begins = beginnings(alloc, pairs, levels.as_slice())?;
    let mut taken = vec![in alloc; false; count as usize]?;
    for first in 0..count {
        taken[first as usize] = true;
        match second_number(alloc, pairs, taken.as_slice(), begins.as_slice(), first)? {
            None => {}
            Some(second) => {
                let circuit = around(alloc, pairs, taken.as_mut_slice(), first, second)?;
                return Ok(Some(circuit));
            }
        }
    }
    Ok(None)
}
