// A place for bytes.
ghost use Rattle.std.specs.Prelude.{ℕ, List, Option, IfSome};
ghost use Rattle.io_ports.specs.Causes.{HasCause};
ghost use Rattle.io_ports.specs.Files.{Appends};

use crate::fault::PortFault;

/// A place for bytes, one after another.
pub trait Sink {
    /// The bytes, where the sink tells them.
    ghost held: { Self → Option (List ℕ) };

    /// How often a call failed.
    ghost faults: { Self → ℕ };

    /// Adds bytes at the end. After `Failed` some first bytes of them were added, after `Memory` none.
    fn put(&mut self, bytes: &[u8]) -> Result<(), PortFault>
        ensures told { IfSome (held self.old) (λ old. Appends bytes.now result old (held self.new)) }
        ensures cause { HasCause (faults self.old) (faults self.new) result };
}
