// Numbers of slots.
use crate::key::{Key, key, number, place};
use indexmap::IndexSet;
use node_facts::SlotName;
use program_names::SlotId;
use std::alloc::{AllocError, Global};

/// The slots that were seen so far, each with the number of those before it.
#[derive(Drop)]
pub struct SlotNumbers {
    seen: IndexSet<Key>,
}

impl SlotNumbers {
    ghost use Rattle.std.specs.Prelude.{◌≡◌, ◌∷◌, [], length, IfOk, OnOk};
    ghost use Rattle.slot_numbers.specs.Growing.{AreApart, HasOnly, Keeps};
    ghost use Rattle.slot_numbers.specs.Keys.{key_of};
    ghost use Rattle.slot_numbers.specs.Numbered.{IsNumbered, keys_of};

    /// No slots.
    pub fn new(alloc: Global) -> SlotNumbers
        ensures { keys_of result ≡ [] }
    {
        SlotNumbers {
            seen: IndexSet::new(alloc),
        }
    }

    /// The number of a slot in the file with a number: a new one where it was not seen so far. The only error is want of
    /// memory, of which 2^32 slots are one.
    pub fn number(&mut self, file: u32, slot: SlotName) -> Result<SlotId, AllocError>
        ensures number { IfOk result (λ i. IsNumbered (keys_of self.new) file slot i) }
        ensures keeps { OnOk result (Keeps (keys_of self.old) (keys_of self.new)) }
        ensures only { OnOk result (HasOnly (keys_of self.old) (key_of file slot ∷ []) (keys_of self.new)) }
    {
        let place = place(&mut self.seen, key(file, slot))?;
        let number = number(place)?;
        Ok(SlotId(number))
    }

    /// How many slots were seen. The only error is that there are 2^32.
    pub fn count(&self) -> Result<u32, AllocError>
        ensures count { IfOk result (λ n. n ≡ length (keys_of self.now)) }
        ensures apart { AreApart (keys_of self.now) }
    {
        number(self.seen.len())
    }
}
