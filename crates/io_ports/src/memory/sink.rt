// A sink of bytes in memory.
ghost use Rattle.std.specs.Prelude.{◌≡◌, Some};
ghost use Rattle.io_ports.specs.Causes.{HasCause};
ghost use Rattle.io_ports.specs.Fails.{Fails, IsFresh};
ghost use Rattle.io_ports.specs.Files.{Appends};
ghost use Rattle.io_ports.specs.Memory.{memory_sink_bytes, memory_sink_faults, memory_sink_tally};

use crate::fault::PortFault;
use crate::memory::tally::Tally;
use crate::sink::Sink;

/// Bytes in memory. Contracts see `memory_sink_bytes` and `memory_sink_tally`.
#[derive(Drop)]
pub struct MemorySink {
    bytes: Vec<u8>,
    tally: Tally,
}

impl MemorySink {
    /// These bytes. `failing` has the numbers, from 1, of the calls that fail.
    pub fn new(bytes: Vec<u8>, failing: Vec<u64>) -> MemorySink
        ensures bytes { memory_sink_bytes result ≡ bytes.items }
        ensures tally { IsFresh failing.items (memory_sink_tally result) }
    {
        MemorySink {
            bytes,
            tally: Tally::new(failing),
        }
    }

    /// The bytes.
    pub fn bytes(&self) -> &[u8]
        ensures { result.now ≡ memory_sink_bytes self.now }
    {
        self.bytes.as_slice()
    }
}

impl Sink for MemorySink {
    ghost use Rattle.std.specs.Prelude.{Some};
    ghost use Rattle.io_ports.specs.Memory.{memory_sink_bytes, memory_sink_faults};

    ghost held = { λ s. Some (memory_sink_bytes s) };

    ghost faults = { memory_sink_faults };

    fn put(&mut self, bytes: &[u8]) -> Result<(), PortFault>
        ensures told { Appends bytes.now result (memory_sink_bytes self.old) (Some (memory_sink_bytes self.new)) }
        ensures cause { HasCause (memory_sink_faults self.old) (memory_sink_faults self.new) result }
        ensures fails { Fails (memory_sink_tally self.old) (memory_sink_tally self.new) result }
    {
        if self.tally.fails() {
            return Err(PortFault::Failed);
        }
        self.bytes.extend_from_slice(bytes)?;
        Ok(())
    }
}
