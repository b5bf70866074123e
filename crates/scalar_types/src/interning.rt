// Storing what isn't there yet.
ghost use Rattle.std.specs.Prelude.{◌≡◌, Some, true, false, Bool, ℕ, IfOk, length, map, slice_get};
ghost use Rattle.scalar_types.specs.Terms.{term};
ghost use Rattle.scalar_types.specs.Rows.{rows};
ghost use Rattle.scalar_types.specs.Pool.{KeepsEach, HasNoRepeat, KeepsOrAdds};

use crate::php_type::PhpType;
use crate::pool::{Packed, TypeId};
use indexmap::IndexSet;
use std::alloc::{AllocError, Global};

// The position of a list, which is put at the end if it isn't there yet.
pub(crate) fn position_of(
    lists: &mut IndexSet<Vec<u32>>,
    alloc: Global,
    numbers: &[u32],
) -> Result<u64, AllocError>
    requires { HasNoRepeat (rows lists.old.keys) }
    ensures kept { KeepsEach (rows lists.old.keys) (rows lists.new.keys) }
    ensures found { IfOk result (λ at. slice_get (rows lists.new.keys) at ≡ Some numbers.now) }
    ensures differ { HasNoRepeat (rows lists.new.keys) }
{
    let numbers = Vec::from_slice(alloc, numbers)?;
    let (at, _) = lists.insert_full(numbers)?;
    Ok(at as u64)
}

// The number of a packed form. A new one is put at the end, and a copy of its type too.
pub(crate) fn store(
    types: &mut Vec<PhpType>,
    packed: &mut IndexSet<Packed>,
    alloc: Global,
    a: &PhpType,
    form: Packed,
) -> Result<TypeId, AllocError>
    requires { HasNoRepeat packed.old.keys }
    ensures found { IfOk result (λ id. slice_get packed.new.keys id.0 ≡ Some form) }
    ensures adds { (added : Bool) × (KeepsOrAdds packed.old.keys packed.new.keys form added
        × KeepsOrAdds (map term types.old.items) (map term types.new.items) (term a.now) added) }
    ensures differ { HasNoRepeat packed.new.keys }
{
    if let Some(at) = packed.get_index_of(&form) {
        return Ok(TypeId(at as u64));
    }
    let copy = a.copy(alloc)?;
    types.reserve(1)?;
    let (at, _) = packed.insert_full(form)?;
    types.push(copy)?;
    Ok(TypeId(at as u64))
}
