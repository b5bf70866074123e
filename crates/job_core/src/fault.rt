// Why work or a keeper refuses.
use io_ports::PathText;
use std::alloc::AllocError;
use std::fmt;
use thiserror::Error;

/// Why work on files was refused.
#[derive(Drop, Error)]
pub enum WorkFault {
    /// The files or the settings are refused. The text says why.
    #[error("the work was refused")]
    Refused(PathText),
    /// No memory was at hand.
    #[error("out of memory")]
    Memory,
}

impl fmt::Debug for WorkFault {
    fn fmt<W: fmt::Write>(&self, f: &mut fmt::Formatter<W>) -> fmt::Result {
        match self {
            WorkFault::Refused(text) => {
                let text = text.as_str();
                write!(f, "Refused({text:?})")
            }
            WorkFault::Memory => write!(f, "Memory"),
        }
    }
}

/// Why a keeper refused.
#[derive(Clone, Copy, Debug, PartialEq, Eq, Error)]
pub enum KeepFault {
    /// The keeper failed. Its count of faults rose in this call.
    #[error("the keeper failed")]
    Failed,
    /// No memory was at hand.
    #[error("out of memory")]
    Memory,
}

impl From<AllocError> for KeepFault {
    ghost use Rattle.std.specs.Prelude.{◌≡◌};
    ghost use Rattle.job_core.specs.declared.fault.KeepFault.TheVariants.{Memory};

    ghost from_gives = { λ _ e. e ≡ Memory };

    fn from(_: AllocError) -> Self {
        KeepFault::Memory
    }
}
