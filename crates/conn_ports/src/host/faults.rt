// Counting what the system refuses.
ghost use Rattle.std.specs.Prelude.{◌≡◌, ◌≤◌};
ghost use Rattle.io_ports.specs.Causes.{Rose};

use io_ports::PortFault;
use std::io::{Error, ErrorKind};

/// Counts an error of the system. Want of memory isn't one.
pub fn refused(faults: &mut u64, error: Error) -> PortFault
    ensures failed { result ≡ PortFault.Failed → Rose faults.old faults.new }
    ensures memory { result ≡ PortFault.Memory → faults.new ≡ faults.old }
    ensures later { faults.old ≤ faults.new }
{
    if error.kind() == ErrorKind::OutOfMemory {
        return PortFault::Memory;
    }
    *faults = faults.saturating_add(1);
    PortFault::Failed
}
