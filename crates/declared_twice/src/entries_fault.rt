// Why the entries of a program are refused.
use span_edits::PathText;
use std::alloc::{AllocError, AllocFailed};
use thiserror::Error;

/// Why the entries of a program are refused.
#[derive(Debug, Drop, Error)]
pub enum EntriesFault {
    /// No file has this path, which is that of an entry or of the file before each.
    #[error("no file {}", .0.as_str())]
    NoFile(PathText),
    /// No memory was at hand.
    #[error("no memory")]
    Memory,
}

impl From<AllocError> for EntriesFault {
    ghost use Rattle.std.specs.Prelude.{◌≡◌};
    ghost use Rattle.declared_twice.specs.declared.entries_fault.EntriesFault.TheVariants.{Memory};

    ghost from_gives = { λ _ e. e ≡ Memory };

    fn from(_: AllocError) -> Self {
        EntriesFault::Memory
    }
}

impl<T: Drop> From<AllocFailed<T>> for EntriesFault {
    ghost use Rattle.std.specs.Prelude.{◌≡◌};
    ghost use Rattle.declared_twice.specs.declared.entries_fault.EntriesFault.TheVariants.{Memory};

    ghost from_gives = { λ _ e. e ≡ Memory };

    fn from(_: AllocFailed<T>) -> Self {
        EntriesFault::Memory
    }
}
