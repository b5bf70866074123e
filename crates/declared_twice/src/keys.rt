// What declarations are compared by.
ghost use Rattle.std.specs.Prelude.{◌≡◌, option_map, IfOk};
ghost use Rattle.program_names.specs.Table.{is_declared_once};
ghost use Rattle.declared_twice.specs.Keys.{AreNext, key_of, lent, lent_key};

use crate::later::later_same;
use node_names::NameSort;
use program_names::Declaration;
use std::alloc::{AllocError, Global};

// Whether a run makes a declaration of this sort once.
fn is_once(sort: NameSort) -> bool
    ensures { result ≡ is_declared_once sort }
{
    match sort {
        NameSort::Function | NameSort::Class | NameSort::Constant => true,
        NameSort::Method | NameSort::ClassConstant | NameSort::Property => false,
    }
}

// The sort and the text of a name that a run begins with and declares once.
fn key(declaration: &Declaration) -> Option<(NameSort, &[u8])>
    ensures { option_map lent_key result ≡ key_of declaration.now }
{
    if declaration.is_top && is_once(declaration.name.sort) {
        Some((declaration.name.sort, declaration.name.text.as_slice()))
    } else {
        None
    }
}

/// For each declaration that a run begins with and makes once the next one of the same name.
pub(crate) fn next_same(
    alloc: Global,
    declared: &[&Declaration],
) -> Result<Vec<Option<usize>>, AllocError>
    ensures { IfOk result (λ ns. AreNext (lent declared.now) ns.items) }
{
    let mut keys = Vec::new(alloc);
    for declaration in declared {
        keys.push(key(declaration))?;
    }
    let later = later_same(alloc, keys.as_slice())?;
    Ok(later)
}
