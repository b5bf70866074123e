// A tree of written files.
ghost use Rattle.std.specs.Prelude.{ℕ, List, Option, IfSome};
ghost use Rattle.io_ports.specs.Causes.{HasCause};
ghost use Rattle.io_ports.specs.Files.{Puts};

use crate::fault::PortFault;

/// A tree of written files.
pub trait TargetTree {
    /// The files by path in byte order, where the tree tells them.
    ghost files: { Self → Option (List (List ℕ × List ℕ)) };

    /// How often a call failed.
    ghost faults: { Self → ℕ };

    /// Sets one file. After `Failed` that file is unspecified and all others are as before; after `Memory` all is
    /// as before.
    fn put(&mut self, path: &str, bytes: &[u8]) -> Result<(), PortFault>
        ensures told { IfSome (files self.old) (λ fs. Puts path.now bytes.now result fs (files self.new)) }
        ensures cause { HasCause (faults self.old) (faults self.new) result };
}
