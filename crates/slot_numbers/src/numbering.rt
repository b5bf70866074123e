// Numbers of the slots of a file.
ghost use Rattle.std.specs.Prelude.{IfOk, OnOk};
ghost use Rattle.slot_numbers.specs.Growing.{HasOnly, Keeps};
ghost use Rattle.slot_numbers.specs.Keys.{keys_of_pair, keys_of_pairs, keys_of_slots};
ghost use Rattle.slot_numbers.specs.Numbered.{AreNumbered, ArePairsNumbered, IsPairNumbered, keys_of};

use crate::numbers::SlotNumbers;
use node_facts::SlotName;
use program_names::SlotId;
use std::alloc::{AllocError, Global};

/// The number of each of some slots of the file with a number. The only error is want of memory, of which 2^32 slots are one.
pub fn slot_numbers(
    alloc: Global,
    numbers: &mut SlotNumbers,
    file: u32,
    slots: Vec<SlotName>,
) -> Result<Vec<SlotId>, AllocError>
    ensures numbered { IfOk result (λ v. AreNumbered (keys_of numbers.new) file slots.items v.items) }
    ensures keeps { OnOk result (Keeps (keys_of numbers.old) (keys_of numbers.new)) }
    ensures only { OnOk result (HasOnly (keys_of numbers.old) (keys_of_slots file slots.items) (keys_of numbers.new)) }
{
    let mut all = Vec::new(alloc);
    for slot in slots {
        let number = numbers.number(file, slot)?;
        all.push(number)?;
    }
    Ok(all)
}

// The numbers of two slots.
fn pair_numbers(
    numbers: &mut SlotNumbers,
    file: u32,
    pair: (SlotName, SlotName),
) -> Result<(SlotId, SlotId), AllocError>
    ensures numbered { IfOk result (λ i. IsPairNumbered (keys_of numbers.new) file pair i) }
    ensures keeps { OnOk result (Keeps (keys_of numbers.old) (keys_of numbers.new)) }
    ensures only { OnOk result (HasOnly (keys_of numbers.old) (keys_of_pair file pair) (keys_of numbers.new)) }
{
    let (first, second) = pair;
    let first = numbers.number(file, first)?;
    let second = numbers.number(file, second)?;
    Ok((first, second))
}

/// The numbers of each of some pairs of slots of the file with a number. The only error is want of memory, of which 2^32 slots
/// are one.
pub fn listed_numbers(
    alloc: Global,
    numbers: &mut SlotNumbers,
    file: u32,
    listed: Vec<(SlotName, SlotName)>,
) -> Result<Vec<(SlotId, SlotId)>, AllocError>
    ensures numbered { IfOk result (λ v. ArePairsNumbered (keys_of numbers.new) file listed.items v.items) }
    ensures keeps { OnOk result (Keeps (keys_of numbers.old) (keys_of numbers.new)) }
    ensures only { OnOk result (HasOnly (keys_of numbers.old) (keys_of_pairs file listed.items) (keys_of numbers.new)) }
{
    let mut all = Vec::new(alloc);
    for pair in listed {
        let both = pair_numbers(numbers, file, pair)?;
        all.push(both)?;
    }
    Ok(all)
}
