// Targets in memory.
ghost use Rattle.std.specs.Prelude.{◌≡◌};
ghost use Rattle.io_ports.specs.Files.{IsTree};
ghost use Rattle.io_ports.specs.Props.{tree_prop};

use crate::fault::PortFault;
use crate::memory::files;
use crate::memory::tally::Tally;
use crate::target::TargetTree;
use span_edits::{Bytes, PathText};
use std::alloc::Global;

/// A target in memory. Contracts see `memory_target_files` and `memory_target_tally`.
#[derive(Drop)]
pub struct MemoryTarget {
    alloc: Global,
    files: Vec<(PathText, Bytes)>,
    tally: Tally,
    ghost ordered: { IsTree files.items } by { tree_prop files.items },
}

impl MemoryTarget {
    ghost use Rattle.io_ports.specs.Fails.{IsFresh};
    ghost use Rattle.io_ports.specs.Memory.{memory_target_files, memory_target_tally};

    /// These files, whose paths strictly ascend. `failing` has the numbers, from 1, of the calls
    /// that fail.
    pub fn new(alloc: Global, files: Vec<(PathText, Bytes)>, failing: Vec<u64>) -> MemoryTarget
        requires { IsTree files.items }
        ensures files { memory_target_files result ≡ files.items }
        ensures tally { IsFresh failing.items (memory_target_tally result) }
    {
        MemoryTarget {
            alloc,
            files,
            tally: Tally::new(failing),
        }
    }

    /// The files.
    pub fn files(&self) -> &[(PathText, Bytes)]
        ensures { result.now ≡ memory_target_files self.now }
    {
        self.files.as_slice()
    }
}

impl TargetTree for MemoryTarget {
    ghost use Rattle.std.specs.Prelude.{Some};
    ghost use Rattle.io_ports.specs.Causes.{HasCause};
    ghost use Rattle.io_ports.specs.Fails.{Fails};
    ghost use Rattle.io_ports.specs.Files.{Puts};
    ghost use Rattle.io_ports.specs.Memory.{memory_target_files, memory_target_faults, memory_target_tally};

    ghost files = { λ s. Some (memory_target_files s) };

    ghost faults = { memory_target_faults };

    fn put(&mut self, path: &str, bytes: &[u8]) -> Result<(), PortFault>
        ensures told { Puts path.now bytes.now result (memory_target_files self.old) (Some (memory_target_files self.new)) }
        ensures cause { HasCause (memory_target_faults self.old) (memory_target_faults self.new) result }
        ensures fails { Fails (memory_target_tally self.old) (memory_target_tally self.new) result }
    {
        if self.tally.fails() {
            return Err(PortFault::Failed);
        }
        Ok(files::put_into(self.alloc, &mut self.files, path, bytes)?)
    }
}
