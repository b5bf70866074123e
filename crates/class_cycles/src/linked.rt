// Which names extend which.
ghost use Rattle.std.specs.Prelude.{◌≡◌, ◌<◌, ◌^◌, ◌++◌, length, IfOk, OnOk};
ghost use Rattle.node_names.specs.Seen.{texts_of};
ghost use Rattle.program_names.specs.Classes.{AreAscending, place_of};
ghost use Rattle.class_cycles.specs.Names.{linked, pair_if, pairs_of};

use crate::place::place;
use file_declarations::Told;
use span_edits::Bytes;
use std::alloc::{AllocError, Global};

/// Each class that extends another, and that one behind it. The only error is want of memory.
pub(crate) fn linked_names<'a>(alloc: Global, told: &'a [Told]) -> Result<Vec<&'a [u8]>, AllocError>
    ensures { IfOk result (λ v. texts_of v.items ≡ linked told.now) }
{
    let mut names = Vec::new(alloc);
    for one in told {
        if let Told::Extends(class, parent) = one {
            names.push(class.as_slice())?;
            names.push(parent.as_slice())?;
        }
    }
    Ok(names)
}

// The places of two names, if both are there.
fn add_places(
    pairs: &mut Vec<(u32, u32)>,
    names: &[Bytes],
    class: &[u8],
    parent: &[u8],
) -> Result<(), AllocError>
    requires few { length names.now < 2 ^ 32 }
    requires ascending { AreAscending names.now }
    ensures { OnOk result (pairs.new.items ≡ pairs.old.items
        ++ pair_if (place_of class.now names.now) (place_of parent.now names.now)) }
{
    let Some(from) = place(names, class) else {
        return Ok(());
    };
    let Some(to) = place(names, parent) else {
        return Ok(());
    };
    pairs.push((from as u32, to as u32))?;
    Ok(())
}

/// The places of each class that extends another, and of that one, among names that ascend. The only error is want of
/// memory.
pub(crate) fn linked_places(
    alloc: Global,
    told: &[Told],
    names: &[Bytes],
) -> Result<Vec<(u32, u32)>, AllocError>
    requires few { length names.now < 2 ^ 32 }
    requires ascending { AreAscending names.now }
    ensures { IfOk result (λ v. v.items ≡ pairs_of names.now told.now) }
{
    let mut pairs = Vec::new(alloc);
    for one in told {
        if let Told::Extends(class, parent) = one {
            add_places(&mut pairs, names, class.as_slice(), parent.as_slice())?;
        }
    }
    Ok(pairs)
}
