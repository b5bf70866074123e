// Why an upgrade is refused.
use io_ports::PathText;
use resolved_names::NamesFault;
use std::alloc::AllocError;
use thiserror::Error;

/// What may be too many, or too large.
#[derive(Clone, Copy, Debug, PartialEq, Eq)]
pub enum LimitKind {
    /// The files: 2,000.
    Files,
    /// The bytes of a file: 1,048,576.
    FileBytes,
    /// The bytes of all files: 4,194,304.
    AllBytes,
    /// The bytes of the settings: 65,536.
    SettingsBytes,
    /// The variables of a body.
    Variables,
    /// The cells of all bodies.
    Cells,
}

/// A size that passes its limit, with the number that is told: for files the number that was counted, and for
/// bytes the limit plus 1.
#[derive(Clone, Copy, Debug, PartialEq, Eq)]
pub struct LimitFault {
    pub kind: LimitKind,
    pub number: u64,
}

/// Why an upgrade is refused.
#[derive(Debug, Drop, Error)]
pub enum UpgradeFault {
    /// 7.4 reads no tree in the file of this path, the first such.
    #[error("no tree in {}", .0.as_str())]
    Source(PathText),
    /// The names are refused, and never for want of memory.
    #[error("the names are refused")]
    Names(NamesFault),
    /// A size passes its limit.
    #[error("a size passes its limit")]
    Limit(LimitFault),
    /// The sink at this position failed.
    #[error("sink {0} failed")]
    Sink(u32),
    /// No memory was at hand.
    #[error("no memory")]
    Memory,
}

impl From<AllocError> for UpgradeFault {
    ghost use Rattle.std.specs.Prelude.{◌≡◌};
    ghost use Rattle.upgrade_core.specs.declared.fault.UpgradeFault.TheVariants.{Memory};

    ghost from_gives = { λ _ e. e ≡ Memory };

    fn from(_: AllocError) -> Self {
        UpgradeFault::Memory
    }
}
