// Levels of numbers: the same for the numbers of a cycle, and no less for what follows a number.
//
// No contract says so: the one who calls tests what it needs of them, and a wrong level costs time alone.
ghost use Rattle.std.specs.Prelude.{◌≡◌, length, IfOk};
ghost use Rattle.class_cycles.specs.Circuits.{AreWithin};

use crate::back::turned;
use graph_search::edges;
use std::alloc::{AllocError, Global};

// What a search in depth does next.
#[derive(Clone, Copy)]
enum Step {
    Enter(u32),
    Leave(u32),
}

// A number that is entered is left when all that it leads to has been.
fn enter(
    next: &[Vec<u32>],
    seen: &mut [bool],
    pending: &mut Vec<Step>,
    number: u32,
) -> Result<(), AllocError> {
    let Some(is_seen) = seen.get_mut(number as usize) else {
        return Ok(());
    };
    if *is_seen {
        return Ok(());
    }
    *is_seen = true;
    pending.push(Step::Leave(number))?;
    let Some(following) = next.get(number as usize) else {
        return Ok(());
    };
    for other in following {
        pending.push(Step::Enter(*other))?;
    }
    Ok(())
}

// The numbers below a bound in the order in which a search in depth leaves them.
fn leaving(alloc: Global, count: u32, next: &[Vec<u32>]) -> Result<Vec<u32>, AllocError> {
    let mut seen = vec![in alloc; false; count as usize]?;
    let mut pending = Vec::new(alloc);
    for number in 0..count {
        pending.push(Step::Enter(number))?;
    }
    let mut left = Vec::new(alloc);
    for _turn in 0..u64::MAX {
        match pending.pop() {
            None => return Ok(left),
            Some(Step::Leave(number)) => left.push(number)?,
            Some(Step::Enter(number)) => enter(next, seen.as_mut_slice(), &mut pending, number)?,
        }
    }
    Err(AllocError)
}

// A level for a number that has none; those before it are still to get it.
fn raise(
    before: &[Vec<u32>],
    levels: &mut [u32],
    pending: &mut Vec<u32>,
    number: u32,
    level: u32,
) -> Result<(), AllocError> {
    let Some(own) = levels.get_mut(number as usize) else {
        return Ok(());
    };
    if *own != 0 {
        return Ok(());
    }
    *own = level;
    let Some(others) = before.get(number as usize) else {
        return Ok(());
    };
    pending.extend_from_slice(others.as_slice())?;
    Ok(())
}

// A level for a number and all that lead to it, where they have none.
fn spread(
    alloc: Global,
    before: &[Vec<u32>],
    levels: &mut [u32],
    number: u32,
    level: u32,
) -> Result<(), AllocError> {
    let mut pending = Vec::new(alloc);
    pending.push(number)?;
    for _turn in 0..u64::MAX {
        let Some(other) = pending.pop() else {
            return Ok(());
        };
        raise(before, levels, &mut pending, other, level)?;
    }
    Err(AllocError)
}

// A level for each number: the last that was left first.
fn raise_all(
    alloc: Global,
    before: &[Vec<u32>],
    levels: &mut [u32],
    left: &[u32],
) -> Result<(), AllocError> {
    let mut level = 0u32;
    for number in left.iter().rev() {
        level = level.saturating_add(1);
        spread(alloc, before, levels, *number, level)?;
    }
    Ok(())
}

/// Levels of the numbers below a bound. The only error is want of memory, and stands too for 2^64 steps.
pub(crate) fn levels_of(
    alloc: Global,
    count: u32,
    pairs: &[(u32, u32)],
) -> Result<Vec<u32>, AllocError>
    requires { AreWithin count pairs.now }
    ensures { IfOk result (λ v. length v.items ≡ count) }
{
    let untaken = vec![in alloc; false; count as usize]?;
    let back = turned(alloc, pairs, untaken.as_slice())?;
    let next = edges(alloc, count, pairs)?;
    let before = edges(alloc, count, back.as_slice())?;
    let left = leaving(alloc, count, next.as_slice())?;
    let mut levels = vec![in alloc; 0u32; count as usize]?;
    raise_all(
        alloc,
        before.as_slice(),
        levels.as_mut_slice(),
        left.as_slice(),
    )?;
    Ok(levels)
}
