// Why the database refuses.
ghost use Rattle.std.specs.Prelude.{◌≡◌, ◌≤◌};
ghost use Rattle.io_ports.specs.Causes.{Rose};

use job_core::KeepFault;
use sqlite::{Error, ErrorCode};
use std::alloc::AllocError;

/// Why a call on the database refused.
#[derive(Clone, Copy)]
pub enum Refusal {
    /// A statement was refused for another cause than memory, or a row is no value of the types
    /// of jobs.
    Failed,
    /// No memory was at hand.
    Memory,
}

impl From<AllocError> for Refusal {
    fn from(_: AllocError) -> Self {
        Refusal::Memory
    }
}

impl From<Error> for Refusal {
    fn from(error: Error) -> Self {
        match error {
            Error::SqliteFailure(ErrorCode::OutOfMemory) => Refusal::Memory,
            _ => Refusal::Failed,
        }
    }
}

/// Counts a refusal. Want of memory isn't one.
pub fn counted(faults: &mut u64, refusal: Refusal) -> KeepFault
    ensures failed { result ≡ KeepFault.Failed → Rose faults.old faults.new }
    ensures memory { result ≡ KeepFault.Memory → faults.new ≡ faults.old }
    ensures later { faults.old ≤ faults.new }
{
    match refusal {
        Refusal::Memory => KeepFault::Memory,
        Refusal::Failed => {
            *faults = faults.saturating_add(1);
            KeepFault::Failed
        }
    }
}
