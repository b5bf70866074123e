// A target in memory, of which no call fails.
ghost use Rattle.std.specs.Prelude.{◌≡◌};
ghost use Rattle.io_ports.specs.Files.{IsTree};
ghost use Rattle.io_ports.specs.Props.{tree_prop};

use crate::fault::PortFault;
use crate::memory::files;
use crate::target::TargetTree;
use span_edits::{Bytes, PathText};
use std::alloc::Global;

/// A target in memory, of which no call fails. Contracts see `calm_target_files`.
#[derive(Drop)]
pub struct CalmTarget {
    alloc: Global,
    files: Vec<(PathText, Bytes)>,
    ghost ordered: { IsTree files.items } by { tree_prop files.items },
}

impl CalmTarget {
    ghost use Rattle.io_ports.specs.Memory.{calm_target_files};

    /// These files, whose paths strictly ascend.
    pub fn new(alloc: Global, files: Vec<(PathText, Bytes)>) -> CalmTarget
        requires { IsTree files.items }
        ensures { calm_target_files result ≡ files.items }
    {
        CalmTarget { alloc, files }
    }

    /// The files.
    pub fn files(&self) -> &[(PathText, Bytes)]
        ensures { result.now ≡ calm_target_files self.now }
    {
        self.files.as_slice()
    }
}

impl TargetTree for CalmTarget {
    ghost use Rattle.std.specs.Prelude.{Some};
    ghost use Rattle.io_ports.specs.Memory.{calm_target_files};

    ghost files = { λ s. Some (calm_target_files s) };

    ghost faults = { λ _. 0 };

    fn put(&mut self, path: &str, bytes: &[u8]) -> Result<(), PortFault> {
        Ok(files::put_into(self.alloc, &mut self.files, path, bytes)?)
    }
}
