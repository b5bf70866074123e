// A connection in memory, some of whose calls fail.
ghost use Rattle.std.specs.Prelude.{◌≡◌, ◌<◌, []};
ghost use Rattle.conn_ports.specs.Wire.{memory_link, memory_faults};

use crate::conn::Conn;
use crate::memory::tally::Tally;
use crate::wire::Wire;
use io_ports::PortFault;

/// A connection in memory, for tests: the calls with the given numbers fail. Contracts see
/// `memory_link` and `memory_faults`.
#[derive(Drop)]
pub struct MemoryConn {
    wire: Wire,
    tally: Tally,
}

impl MemoryConn {
    /// This input, of which each read gives at most `piece` bytes. `failing` has the numbers, from
    /// 1, of the calls that fail.
    pub fn new(input: Vec<u8>, piece: usize, failing: Vec<u64>) -> MemoryConn
        requires { 0 < piece }
        ensures link { memory_link result ≡ record { taken = []; left = input.items; written = [] } }
        ensures faults { memory_faults result ≡ 0 }
    {
        MemoryConn {
            wire: Wire::new(input, piece),
            tally: Tally::new(failing),
        }
    }

    /// The bytes that were read.
    pub fn taken(&self) -> &[u8]
        ensures { result.now ≡ (memory_link self.now).taken }
    {
        self.wire.taken()
    }

    /// The bytes that are still to be read.
    pub fn left(&self) -> &[u8]
        ensures { result.now ≡ (memory_link self.now).left }
    {
        self.wire.left()
    }

    /// The bytes that were written.
    pub fn written(&self) -> &[u8]
        ensures { result.now ≡ (memory_link self.now).written }
    {
        self.wire.written()
    }

    /// How often a call failed.
    pub fn faults(&self) -> u64
        ensures { result ≡ memory_faults self.now }
    {
        self.tally.faults
    }
}

impl Conn for MemoryConn {
    ghost use Rattle.std.specs.Prelude.{Some};
    ghost use Rattle.conn_ports.specs.Wire.{memory_link, memory_faults};

    ghost link = { λ c. Some (memory_link c) };

    ghost faults = { memory_faults };

    fn read(&mut self, max: usize, into: &mut Vec<u8>) -> Result<usize, PortFault> {
        if self.tally.fails() {
            return Err(PortFault::Failed);
        }
        Ok(self.wire.read(max, into)?)
    }

    fn write(&mut self, bytes: &[u8]) -> Result<(), PortFault> {
        if self.tally.fails() {
            return Err(PortFault::Failed);
        }
        Ok(self.wire.write(bytes)?)
    }
}
