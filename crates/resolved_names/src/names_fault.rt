// Why the names of a program are refused.
use program_names::NodeRef;
use span_edits::{Bytes, PathText};
use std::alloc::AllocError;
use thiserror::Error;

/// Why the names of a program are refused.
#[derive(Debug, Drop, Error)]
pub enum NamesFault {
    /// One run would begin with two declarations of this function, class or constant.
    #[error("a name is declared twice")]
    Twice {
        name: Bytes,
        first: NodeRef,
        second: NodeRef,
    },
    /// Each of these classes extends the next one, and the last one the first.
    #[error("classes extend one another in a cycle")]
    Cycle(Vec<Bytes>),
    /// No file has this path, which is that of an entry or of the file before each.
    #[error("no file {}", .0.as_str())]
    NoFile(PathText),
    /// No memory was at hand.
    #[error("no memory")]
    Memory,
}

impl From<AllocError> for NamesFault {
    ghost use Rattle.std.specs.Prelude.{◌≡◌};
    ghost use Rattle.resolved_names.specs.declared.names_fault.NamesFault.TheVariants.{Memory};

    ghost from_gives = { λ _ e. e ≡ Memory };

    fn from(_: AllocError) -> Self {
        NamesFault::Memory
    }
}
