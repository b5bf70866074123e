// A target in memory that finds no memory at one of its calls.
ghost use Rattle.std.specs.Prelude.{◌≡◌};
ghost use Rattle.io_ports.specs.Memory.{memory_target_files, memory_target_faults};

use io_ports::{Bytes, MemoryTarget, PathText, PortFault, TargetTree};

/// A target in memory; of its calls, counted from 1, the one of this number finds no memory.
#[derive(Drop)]
pub struct ShortTarget {
    inner: MemoryTarget,
    short: u64,
    calls: u64,
}

impl ShortTarget {
    /// This target. No call has the number 0.
    pub fn new(inner: MemoryTarget, short: u64) -> ShortTarget {
        ShortTarget {
            inner,
            short,
            calls: 0,
        }
    }

    /// The files.
    pub fn files(&self) -> &[(PathText, Bytes)] {
        self.inner.files()
    }
}

impl TargetTree for ShortTarget {
    ghost use Rattle.std.specs.Prelude.{Some};
    ghost use Rattle.io_ports.specs.Memory.{memory_target_files, memory_target_faults};

    ghost files = { λ s. Some (memory_target_files s.inner) };

    ghost faults = { λ s. memory_target_faults s.inner };

    fn put(&mut self, path: &str, bytes: &[u8]) -> Result<(), PortFault> {
        self.calls = self.calls.saturating_add(1);
        if self.calls == self.short {
            return Err(PortFault::Memory);
        }
        self.inner.put(path, bytes)
    }
}
