// A sink of bytes in memory, of which no call fails.
ghost use Rattle.std.specs.Prelude.{◌≡◌};
ghost use Rattle.io_ports.specs.Memory.{calm_sink_bytes};

use crate::fault::PortFault;
use crate::sink::Sink;

/// Bytes in memory, where no call fails. Contracts see `calm_sink_bytes`.
#[derive(Drop)]
pub struct CalmSink {
    bytes: Vec<u8>,
}

impl CalmSink {
    /// These bytes.
    pub fn new(bytes: Vec<u8>) -> CalmSink
        ensures { calm_sink_bytes result ≡ bytes.items }
    {
        CalmSink { bytes }
    }

    /// The bytes.
    pub fn bytes(&self) -> &[u8]
        ensures { result.now ≡ calm_sink_bytes self.now }
    {
        self.bytes.as_slice()
    }
}

impl Sink for CalmSink {
    ghost use Rattle.std.specs.Prelude.{Some};
    ghost use Rattle.io_ports.specs.Memory.{calm_sink_bytes};

    ghost held = { λ s. Some (calm_sink_bytes s) };

    ghost faults = { λ _. 0 };

    fn put(&mut self, bytes: &[u8]) -> Result<(), PortFault> {
        self.bytes.extend_from_slice(bytes)?;
        Ok(())
    }
}
