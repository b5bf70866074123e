// Sources in memory.
ghost use Rattle.std.specs.Prelude.{◌≡◌};
ghost use Rattle.io_ports.specs.Props.{sources_prop};
ghost use Rattle.io_ports.specs.Files.{AreDistinct, IsSources};

use crate::fault::PortFault;
use crate::memory::files;
use crate::memory::tally::Tally;
use crate::source::{Found, SourceTree};
use span_edits::{Bytes, PathText};
use std::alloc::Global;

/// Sources in memory. Contracts see `memory_source_files`, `memory_source_stored` and
/// `memory_source_tally`.
#[derive(Drop)]
pub struct MemorySource {
    files: Vec<(PathText, Bytes)>,
    stored: Vec<(PathText, Bytes)>,
    tally: Tally,
    ghost ordered: { IsSources files.items } by { sources_prop files.items },
}

impl MemorySource {
    ghost use Rattle.io_ports.specs.Fails.{IsFresh};
    ghost use Rattle.io_ports.specs.Memory.{memory_source_files, memory_source_stored, memory_source_tally};

    /// These files, whose paths strictly ascend and end in `.php`, and these settings files, whose
    /// names are distinct. `failing` has the numbers, from 1, of the calls that fail.
    pub fn new(
        files: Vec<(PathText, Bytes)>,
        settings: Vec<(PathText, Bytes)>,
        failing: Vec<u64>,
    ) -> MemorySource
        requires files { IsSources files.items }
        requires settings { AreDistinct settings.items }
        ensures files { memory_source_files result ≡ files.items }
        ensures stored { memory_source_stored result ≡ settings.items }
        ensures tally { IsFresh failing.items (memory_source_tally result) }
    {
        MemorySource {
            files,
            stored: settings,
            tally: Tally::new(failing),
        }
    }

    /// The files.
    pub fn files(&self) -> &[(PathText, Bytes)]
        ensures { result.now ≡ memory_source_files self.now }
    {
        self.files.as_slice()
    }
}

impl SourceTree for MemorySource {
    ghost use Rattle.std.specs.Prelude.{Some, map, IfOk, OnOk, OnErr};
    ghost use Rattle.io_ports.specs.Causes.{HasCause};
    ghost use Rattle.io_ports.specs.Fails.{Fails};
    ghost use Rattle.io_ports.specs.Files.{Reads};
    ghost use Rattle.io_ports.specs.Memory.{memory_source_files, memory_source_stored, memory_source_faults, memory_source_tally};

    ghost files = { λ s. Some (memory_source_files s) };

    ghost stored = { λ s. Some (memory_source_stored s) };

    ghost faults = { memory_source_faults };

    fn paths(&mut self, alloc: Global) -> Result<Vec<PathText>, PortFault>
        ensures told { IfOk result (λ ps. ps.items ≡ map (λ f. f.0) (memory_source_files self.old)) }
        ensures order { OnOk result (IsSources (memory_source_files self.old)) }
        ensures same { memory_source_files self.new ≡ memory_source_files self.old }
        ensures settled { memory_source_stored self.new ≡ memory_source_stored self.old }
        ensures cause { HasCause (memory_source_faults self.old) (memory_source_faults self.new) result }
        ensures fails { Fails (memory_source_tally self.old) (memory_source_tally self.new) result }
    {
        if self.tally.fails() {
            return Err(PortFault::Failed);
        }
        Ok(files::paths_of(alloc, self.files.as_slice())?)
    }

    fn read(&mut self, path: &str, max: u64, into: &mut Vec<u8>) -> Result<Found, PortFault>
        ensures told { IfOk result
            (λ answer. Reads (memory_source_files self.old) path.now max answer into.old.items into.new.items) }
        ensures err { OnErr result (into.new.items ≡ into.old.items) }
        ensures longer { IfOk result (λ answer. answer ≡ Found.Longer → into.new.items ≡ into.old.items) }
        ensures same { memory_source_files self.new ≡ memory_source_files self.old }
        ensures settled { memory_source_stored self.new ≡ memory_source_stored self.old }
        ensures cause { HasCause (memory_source_faults self.old) (memory_source_faults self.new) result }
        ensures fails { Fails (memory_source_tally self.old) (memory_source_tally self.new) result }
    {
        if self.tally.fails() {
            return Err(PortFault::Failed);
        }
        Ok(files::read_of(self.files.as_slice(), path, max, into)?)
    }

    fn settings(&mut self, name: &str, max: u64, into: &mut Vec<u8>) -> Result<Found, PortFault>
        ensures told { IfOk result
            (λ answer. Reads (memory_source_stored self.old) name.now max answer into.old.items into.new.items) }
        ensures err { OnErr result (into.new.items ≡ into.old.items) }
        ensures longer { IfOk result (λ answer. answer ≡ Found.Longer → into.new.items ≡ into.old.items) }
        ensures same { memory_source_files self.new ≡ memory_source_files self.old }
        ensures settled { memory_source_stored self.new ≡ memory_source_stored self.old }
        ensures cause { HasCause (memory_source_faults self.old) (memory_source_faults self.new) result }
        ensures fails { Fails (memory_source_tally self.old) (memory_source_tally self.new) result }
    {
        if self.tally.fails() {
            return Err(PortFault::Failed);
        }
        Ok(files::read_unordered(self.stored.as_slice(), name, max, into)?)
    }
}
