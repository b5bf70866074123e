// Counting what the system refuses.
ghost use Rattle.std.specs.Prelude.{◌≡◌, ◌≤◌};
ghost use Rattle.io_ports.specs.Causes.{Rose};

use crate::fault::PortFault;
use std::io::{Error, ErrorKind};

/// Counts an error of the system in an adapter's count of faults, which stops at its last value, and
/// answers the port's fault. Want of memory isn't counted.
pub fn refused(faults: &mut u64, error: Error) -> PortFault
    ensures failed { result ≡ PortFault.Failed → Rose faults.old faults.new }
    ensures memory { result ≡ PortFault.Memory → faults.new ≡ faults.old }
    ensures later { faults.old ≤ faults.new }
{
    if error.kind() == ErrorKind::OutOfMemory {
        return PortFault::Memory;
    }
    *faults = faults.saturating_add(1);
    PortFault::Failed
}
