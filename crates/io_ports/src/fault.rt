// Why a port refuses.
use std::alloc::AllocError;

/// Why a call on the outside refused.
#[derive(Clone, Copy, Debug, PartialEq, Eq)]
pub enum PortFault {
    /// The outside failed. The object's count of faults rose in this call.
    Failed,
    /// No memory was at hand.
    Memory,
}

impl From<AllocError> for PortFault {
    ghost use Rattle.std.specs.Prelude.{◌≡◌};
    ghost use Rattle.io_ports.specs.declared.fault.PortFault.TheVariants.{Memory};

    ghost from_gives = { λ _ e. e ≡ Memory };

    fn from(_: AllocError) -> Self {
        PortFault::Memory
    }
}
