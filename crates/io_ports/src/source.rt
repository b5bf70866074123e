// A tree of sources.
ghost use Rattle.std.specs.Prelude.{◌≡◌, ℕ, List, Option, map, IfSome, IfOk, OnOk, OnErr, IsSome};
ghost use Rattle.io_ports.specs.Causes.{HasCause};
ghost use Rattle.io_ports.specs.Files.{IsSources, Reads};

use crate::fault::PortFault;
use span_edits::PathText;
use std::alloc::Global;

/// What a read came to.
#[derive(Clone, Copy, Debug, PartialEq, Eq)]
pub enum Found {
    /// The whole file was read.
    Whole,
    /// The file has more bytes than were asked for.
    Longer,
    /// There is no such file.
    Absent,
}

/// A tree of sources. No call changes what it holds.
pub trait SourceTree {
    /// The files by path in byte order, where the tree tells them.
    ghost files: { Self → Option (List (List ℕ × List ℕ)) };

    /// The settings files by name, where the tree tells them.
    ghost stored: { Self → Option (List (List ℕ × List ℕ)) };

    /// How often a call failed.
    ghost faults: { Self → ℕ };

    /// The paths of the files whose names end in `.php`, with `/` between folders, in byte order.
    fn paths(&mut self, alloc: Global) -> Result<Vec<PathText>, PortFault>
        ensures told { IfSome (files self.old) (λ fs. IfOk result (λ ps. ps.items ≡ map (λ f. f.0) fs)) }
        ensures order { IfSome (files self.old) (λ fs. OnOk result (IsSources fs)) }
        ensures same { files self.new ≡ files self.old }
        ensures settled { stored self.new ≡ stored self.old }
        ensures cause { HasCause (faults self.old) (faults self.new) result };

    /// Appends a whole file of at most `max` bytes. A path that `paths` listed is never absent.
    fn read(&mut self, path: &str, max: u64, into: &mut Vec<u8>) -> Result<Found, PortFault>
        ensures told { IfSome (files self.old)
            (λ fs. IfOk result (λ answer. Reads fs path.now max answer into.old.items into.new.items)) }
        ensures err { OnErr result (into.new.items ≡ into.old.items) }
        ensures longer { IfOk result (λ answer. answer ≡ Found.Longer → into.new.items ≡ into.old.items) }
        ensures absent { IfOk result (λ answer. answer ≡ Found.Absent → IsSome (files self.old)) }
        ensures same { files self.new ≡ files self.old }
        ensures settled { stored self.new ≡ stored self.old }
        ensures cause { HasCause (faults self.old) (faults self.new) result };

    /// Appends a whole settings file of at most `max` bytes.
    fn settings(&mut self, name: &str, max: u64, into: &mut Vec<u8>) -> Result<Found, PortFault>
        ensures told { IfSome (stored self.old)
            (λ fs. IfOk result (λ answer. Reads fs name.now max answer into.old.items into.new.items)) }
        ensures err { OnErr result (into.new.items ≡ into.old.items) }
        ensures longer { IfOk result (λ answer. answer ≡ Found.Longer → into.new.items ≡ into.old.items) }
        ensures same { files self.new ≡ files self.old }
        ensures settled { stored self.new ≡ stored self.old }
        ensures cause { HasCause (faults self.old) (faults self.new) result };
}
