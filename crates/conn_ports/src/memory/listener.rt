// A listener in memory, some of whose calls fail.
ghost use Rattle.std.specs.Prelude.{IfSome};
ghost use Rattle.conn_ports.specs.Fresh.{AreFresh, IsFreshConn, fresh_prop};

use crate::listener::Listener;
use crate::memory::conn::MemoryConn;
use crate::memory::tally::Tally;
use crate::returned::Returned;
use io_ports::PortFault;
use std::alloc::Global;

// A connection without input.
fn without_input(alloc: Global) -> MemoryConn
    ensures { IsFreshConn result }
{
    MemoryConn::new(Vec::new(alloc), 1, Vec::new(alloc))
}

// The last of these connections.
#[tactic(auto, using(crate::proofs::FreshLemmas::fresh_rest, crate::proofs::FreshLemmas::fresh_last))]
fn pop_fresh(conns: &mut Vec<MemoryConn>) -> Option<MemoryConn>
    requires { AreFresh conns.old.items }
    ensures rest { AreFresh conns.new.items }
    ensures last { IfSome result IsFreshConn }
{
    conns.pop()
}

/// Connections in memory, for tests: the calls with the given numbers fail. Contracts see
/// `memory_given`, `memory_spare` and `listener_faults`.
#[derive(Drop)]
pub struct MemoryListener {
    alloc: Global,
    links: Vec<MemoryConn>,
    back: Returned<MemoryConn>,
    tally: Tally,
    ghost fresh: { AreFresh links.items } by { fresh_prop links.items },
}

impl MemoryListener {
    ghost use Rattle.std.specs.Prelude.{◌≡◌, [], map};
    ghost use Rattle.conn_ports.specs.Memory.{memory_given, listener_faults};
    ghost use Rattle.conn_ports.specs.Wire.{memory_ended};

    /// Hands out these connections, of which no call was made, and then ones without input.
    /// `failing` has the numbers, from 1, of the calls of `open` and `next` that fail.
    #[tactic(auto, using(crate::proofs::FreshLemmas::fresh_reverse))]
    pub fn new(alloc: Global, mut links: Vec<MemoryConn>, failing: Vec<u64>) -> MemoryListener
        requires { AreFresh links.items }
        ensures given { memory_given result ≡ record { out = 0; back = [] } }
        ensures faults { listener_faults result ≡ 0 }
    {
        links.reverse();
        MemoryListener {
            alloc,
            links,
            back: Returned::new(Vec::new(alloc)),
            tally: Tally::new(failing),
        }
    }

    /// The connections that were taken back, in order.
    pub fn given_back(&self) -> &[MemoryConn]
        ensures { map memory_ended result.now ≡ (memory_given self.now).back }
    {
        self.back.values()
    }
}

impl Listener for MemoryListener {
    ghost use Rattle.std.specs.Prelude.{Some};
    ghost use Rattle.conn_ports.specs.Memory.{memory_given, memory_spare, listener_faults};

    type Link = MemoryConn;

    ghost given = { λ l. Some (memory_given l) };

    ghost spare = { memory_spare };

    ghost faults = { listener_faults };

    fn open(&mut self, _port: u16) -> Result<(), PortFault> {
        if self.tally.fails() {
            return Err(PortFault::Failed);
        }
        Ok(())
    }

    fn next(&mut self) -> Result<MemoryConn, PortFault> {
        if self.tally.fails() {
            return Err(PortFault::Failed);
        }
        self.back.make_room(without_input(self.alloc))?;
        match pop_fresh(&mut self.links) {
            Some(link) => Ok(link),
            None => Ok(without_input(self.alloc)),
        }
    }

    fn ended(&mut self, link: MemoryConn) {
        self.back.take_back(link);
    }
}
