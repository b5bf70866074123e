// Slots as keys.
ghost use Rattle.std.specs.Prelude.{◌≡◌, ◌∷◌, [], Some, map, slice_get, IfOk, OnOk};
ghost use Rattle.slot_numbers.specs.Growing.{HasOnly, Keeps};
ghost use Rattle.slot_numbers.specs.Keys as spec;

use indexmap::IndexSet;
use node_facts::SlotName;
use std::alloc::AllocError;

/// A slot as a key: the number of its file, and its number there, where it has these; its sort; its name.
pub(crate) type Key = (u32, u32, u32, Vec<u8>);

/// The key of a slot in the file with a number.
pub(crate) fn key(file: u32, slot: SlotName) -> Key
    ensures { spec.seen result ≡ spec.key_of file slot }
{
    match slot {
        SlotName::File(name) => (0, 0, 0, name),
        SlotName::Body(number, name) => (file, number, 1, name),
        SlotName::Static(number, name) => (file, number, 2, name),
        SlotName::Closure(number, name) => (file, number, 3, name),
        SlotName::Property(name) => (0, 0, 4, name),
        SlotName::StaticProperty(name) => (0, 0, 5, name),
    }
}

/// The place of a key among those that were seen, the last one where it was not. The only error is want of memory.
pub(crate) fn place(keys: &mut IndexSet<Key>, key: Key) -> Result<usize, AllocError>
    ensures stored { IfOk result (λ i. slice_get (map spec.seen keys.new.keys) i ≡ Some (spec.seen key)) }
    ensures keeps { OnOk result (Keeps (map spec.seen keys.old.keys) (map spec.seen keys.new.keys)) }
    ensures only { OnOk result (HasOnly (map spec.seen keys.old.keys) (spec.seen key ∷ []) (map spec.seen keys.new.keys)) }
{
    let (place, _) = keys.insert_full(key)?;
    Ok(place)
}

/// A place as a number of 32 bits. The only error is that it has more.
pub(crate) fn number(place: usize) -> Result<u32, AllocError>
    ensures { IfOk result (λ n. n ≡ place) }
{
    u32::try_from(place).map_err(|_| AllocError)
}
