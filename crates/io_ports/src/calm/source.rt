// Sources in memory, of which no call fails.
ghost use Rattle.std.specs.Prelude.{◌≡◌};
ghost use Rattle.io_ports.specs.Props.{sources_prop};
ghost use Rattle.io_ports.specs.Files.{AreDistinct, IsSources};

use crate::fault::PortFault;
use crate::memory::files;
use crate::source::{Found, SourceTree};
use span_edits::{Bytes, PathText};
use std::alloc::Global;

/// Sources in memory, of which no call fails. Contracts see `calm_source_files` and
/// `calm_source_stored`.
#[derive(Drop)]
pub struct CalmSource {
    files: Vec<(PathText, Bytes)>,
    stored: Vec<(PathText, Bytes)>,
    ghost ordered: { IsSources files.items } by { sources_prop files.items },
}

impl CalmSource {
    ghost use Rattle.io_ports.specs.Memory.{calm_source_files, calm_source_stored};

    /// These files, whose paths strictly ascend and end in `.php`, and these settings files, whose
    /// names are distinct.
    pub fn new(files: Vec<(PathText, Bytes)>, settings: Vec<(PathText, Bytes)>) -> CalmSource
        requires files { IsSources files.items }
        requires settings { AreDistinct settings.items }
        ensures files { calm_source_files result ≡ files.items }
        ensures stored { calm_source_stored result ≡ settings.items }
    {
        CalmSource {
            files,
            stored: settings,
        }
    }

    /// The files.
    pub fn files(&self) -> &[(PathText, Bytes)]
        ensures { result.now ≡ calm_source_files self.now }
    {
        self.files.as_slice()
    }
}

impl SourceTree for CalmSource {
    ghost use Rattle.std.specs.Prelude.{Some};
    ghost use Rattle.io_ports.specs.Memory.{calm_source_files, calm_source_stored};

    ghost files = { λ s. Some (calm_source_files s) };

    ghost stored = { λ s. Some (calm_source_stored s) };

    ghost faults = { λ _. 0 };

    fn paths(&mut self, alloc: Global) -> Result<Vec<PathText>, PortFault> {
        Ok(files::paths_of(alloc, self.files.as_slice())?)
    }

    fn read(&mut self, path: &str, max: u64, into: &mut Vec<u8>) -> Result<Found, PortFault> {
        Ok(files::read_of(self.files.as_slice(), path, max, into)?)
    }

    fn settings(&mut self, name: &str, max: u64, into: &mut Vec<u8>) -> Result<Found, PortFault> {
        Ok(files::read_unordered(self.stored.as_slice(), name, max, into)?)
    }
}
