// Numbers that a cycle may begin with.
ghost use Rattle.std.specs.Prelude.{◌≡◌, ◌<◌, ◌==◌, if◌then◌else◌, false, true, length, slice_index, slice_set, IfOk};
ghost use Rattle.class_cycles.specs.Circuits.{AreWithin};
ghost use Rattle.class_cycles.specs.Begins.{AreBeginnings, NeverDown};

use std::alloc::{AllocError, Global};

// Whether a pair leads to a lesser level.
fn leads_down(pairs: &[(u32, u32)], levels: &[u32]) -> bool
    requires { AreWithin (length levels.now) pairs.now }
    ensures { result ≡ false → NeverDown pairs.now levels.now }
{
    for (from, to) in pairs {
        if levels[*to as usize] < levels[*from as usize] {
            return true;
        }
    }
    false
}

// A number that is marked, if it counts.
fn mark_if(marks: &mut Vec<bool>, number: u32, counts: bool)
    requires { number < length marks.old.items }
    ensures { marks.new.items ≡ (if counts then slice_set marks.old.items number true else marks.old.items) }
{
    if counts {
        marks[number as usize] = true;
    }
}

// Whether two numbers have one level.
fn is_level(levels: &[u32], from: u32, to: u32) -> bool
    requires from { from < length levels.now }
    requires to { to < length levels.now }
    ensures { result ≡ (slice_index levels.now from == slice_index levels.now to) }
{
    levels[from as usize] == levels[to as usize]
}

/// Marks of the numbers that a cycle may begin with: where no pair leads to a lesser level, those that lead to one of
/// their own level, and all otherwise. The only error is want of memory.
pub(crate) fn beginnings(
    alloc: Global,
    pairs: &[(u32, u32)],
    levels: &[u32],
) -> Result<Vec<bool>, AllocError>
    requires { AreWithin (length levels.now) pairs.now }
    ensures marked { IfOk result (λ v. AreBeginnings pairs.now v.items) }
    ensures size { IfOk result (λ v. length v.items ≡ length levels.now) }
{
    let is_any = leads_down(pairs, levels);
    let mut marks = vec![in alloc; is_any; levels.len()]?;
    for (from, to) in pairs {
        mark_if(&mut marks, *from, is_level(levels, *from, *to));
    }
    Ok(marks)
}
