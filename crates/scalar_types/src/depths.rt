// Types of less depth, and elements.
ghost use Rattle.std.specs.Prelude.{◌≡◌, IfOk};
ghost use Rattle.scalar_types.specs.Terms.{term};
ghost use Rattle.scalar_types.specs.Join.{flattened, element_of};

use crate::labels::Labels;
use crate::php_type::{PhpType, copy_array, copy_plain, plain_of};
use std::alloc::{AllocError, Global};

/// The type with Any in place of each element that stands deeper than `depth`, and no label beside
/// it. The element of a type stands at depth 1, the element of that at depth 2, and so on: at depth
/// 0 every array has the element Any. The only error is want of memory.
pub fn flatten(alloc: Global, a: &PhpType, depth: u32) -> Result<PhpType, AllocError>
    ensures { IfOk result (λ t. term t ≡ flattened depth (term a.now)) }
{
    match a {
        PhpType::Any => Ok(PhpType::Any),
        PhpType::Known(p) => match &p.element {
            None => copy_plain(alloc, p),
            Some(_) if depth == 0 => {
                copy_array(alloc, p, Labels::of(Vec::new(alloc)), PhpType::Any)
            }
            Some(e) => copy_array(
                alloc,
                p,
                p.shared.copy(alloc)?,
                flatten(alloc, e, depth - 1)?,
            ),
        },
    }
}

/// The type of the elements of a type's arrays: Any of Any, and the type of no value where it has no
/// array. The only error is want of memory.
pub fn element(alloc: Global, a: &PhpType) -> Result<PhpType, AllocError>
    ensures { IfOk result (λ t. term t ≡ element_of (term a.now)) }
{
    match a {
        PhpType::Any => Ok(PhpType::Any),
        PhpType::Known(p) => match &p.element {
            None => Ok(plain_of(alloc, 0)),
            Some(e) => e.copy(alloc),
        },
    }
}
