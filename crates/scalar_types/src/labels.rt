// Sets of numbers, as strictly ascending lists.
ghost use Rattle.std.specs.Prelude.{◌≡◌, IfOk};
ghost use Rattle.std.specs.List.Sorted.{IsStrictlyIncreasing};

use std::alloc::{AllocError, Global};
use std::marker::Model;

/// A set of labels of cells, strictly ascending. Contracts see the list.
#[derive(Drop)]
pub struct Labels {
    numbers: Vec<u32>,
}

impl Model for Labels {
    ghost use Rattle.std.specs.List.Sorted.{IsStrictlyIncreasing};
    ghost use Rattle.std.specs.Prelude.{List, ℕ};

    ghost Value = { List ℕ };

    ghost view = { λ l. l.numbers.items };

    ghost invariant = { λ l. IsStrictlyIncreasing l.numbers.items };
}

impl Labels {
    /// The set of these labels. Takes no memory.
    pub fn of(numbers: Vec<u32>) -> Labels
        requires { IsStrictlyIncreasing numbers.items }
        ensures { result ≡ numbers.items }
    {
        Labels { numbers }
    }

    /// An equal set. The only error is want of memory.
    pub fn copy(&self, alloc: Global) -> Result<Labels, AllocError>
        ensures { IfOk result (λ l. l ≡ self.now) }
    {
        let numbers = Vec::from_slice(alloc, self.numbers.as_slice())?;
        Ok(Labels { numbers })
    }

    /// The labels, ascending. Takes no memory.
    pub fn as_slice(&self) -> &[u32]
        ensures labels { result.now ≡ self.now }
        ensures ascending { IsStrictlyIncreasing self.now }
    {
        self.numbers.as_slice()
    }
}

/// A set of classes by their numbers, strictly ascending. Contracts see the list.
#[derive(Drop)]
pub struct Classes {
    numbers: Vec<u32>,
}

impl Model for Classes {
    ghost use Rattle.std.specs.List.Sorted.{IsStrictlyIncreasing};
    ghost use Rattle.std.specs.Prelude.{List, ℕ};

    ghost Value = { List ℕ };

    ghost view = { λ c. c.numbers.items };

    ghost invariant = { λ c. IsStrictlyIncreasing c.numbers.items };
}

impl Classes {
    /// The set of these classes. Takes no memory.
    pub fn of(numbers: Vec<u32>) -> Classes
        requires { IsStrictlyIncreasing numbers.items }
        ensures { result ≡ numbers.items }
    {
        Classes { numbers }
    }

    /// An equal set. The only error is want of memory.
    pub fn copy(&self, alloc: Global) -> Result<Classes, AllocError>
        ensures { IfOk result (λ l. l ≡ self.now) }
    {
        let numbers = Vec::from_slice(alloc, self.numbers.as_slice())?;
        Ok(Classes { numbers })
    }

    /// The numbers of the classes, ascending. Takes no memory.
    pub fn as_slice(&self) -> &[u32]
        ensures classes { result.now ≡ self.now }
        ensures ascending { IsStrictlyIncreasing self.now }
    {
        self.numbers.as_slice()
    }
}
