// What was handed out and taken back.
ghost use Rattle.std.specs.Prelude.{◌≡◌, ◌≤◌, vec_len};

use std::alloc::AllocError;

/// Values that were taken back, in order, behind which room was made for others.
#[derive(Drop)]
pub struct Returned<C> {
    slots: Vec<C>,
    count: usize,
    ghost within: { count ≤ vec_len slots },
}

impl<C: Drop> Returned<C> {
    ghost use Rattle.std.specs.Prelude.{◌+◌, ◌<◌, [], ◌∷◌, ◌++◌, OnOk, OnErr};
    ghost use Rattle.conn_ports.specs.Returned.{returned, room, free};

    /// Nothing, in the given empty collection.
    pub fn new(slots: Vec<C>) -> Returned<C>
        requires { slots.items ≡ [] }
        ensures returned { returned result ≡ [] }
        ensures room { room result ≡ 0 }
    {
        Returned { slots, count: 0 }
    }

    /// Makes room for one more. `filler` stands there until one is taken back.
    pub fn make_room(&mut self, filler: C) -> Result<(), AllocError>
        ensures returned { returned self.new ≡ returned self.old }
        ensures ok { OnOk result (room self.new ≡ room self.old + 1) }
        ensures err { OnErr result (room self.new ≡ room self.old) }
        ensures count { OnOk result (free self.new ≡ free self.old + 1) }
    {
        self.slots.push(filler)?;
        Ok(())
    }

    /// Takes one back.
    pub fn take_back(&mut self, value: C)
        requires { 0 < free self.old }
        ensures returned { returned self.new ≡ returned self.old ++ value ∷ [] }
        ensures room { room self.new ≡ room self.old }
        ensures free { free self.old ≡ free self.new + 1 }
    {
        let at = self.count;
        self.slots[at] = value;
        self.count = at + 1;
    }

    /// What was taken back, in order.
    pub fn values(&self) -> &[C]
        ensures { result.now ≡ returned self.now }
    {
        &self.slots[..self.count]
    }
}
