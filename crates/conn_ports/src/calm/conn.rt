// A connection in memory that never fails.
ghost use Rattle.std.specs.Prelude.{◌≡◌, ◌<◌, []};
ghost use Rattle.conn_ports.specs.Wire.{calm_link};

use crate::conn::Conn;
use crate::wire::Wire;
use io_ports::PortFault;

/// A connection in memory, of which no call fails, but for want of memory. Contracts see
/// `calm_link`.
#[derive(Drop)]
pub struct CalmConn {
    wire: Wire,
}

impl CalmConn {
    /// This input, of which each read gives at most `piece` bytes.
    pub fn new(input: Vec<u8>, piece: usize) -> CalmConn
        requires { 0 < piece }
        ensures { calm_link result ≡ record { taken = []; left = input.items; written = [] } }
    {
        CalmConn {
            wire: Wire::new(input, piece),
        }
    }

    /// The bytes that were read.
    pub fn taken(&self) -> &[u8]
        ensures { result.now ≡ (calm_link self.now).taken }
    {
        self.wire.taken()
    }

    /// The bytes that are still to be read.
    pub fn left(&self) -> &[u8]
        ensures { result.now ≡ (calm_link self.now).left }
    {
        self.wire.left()
    }

    /// The bytes that were written.
    pub fn written(&self) -> &[u8]
        ensures { result.now ≡ (calm_link self.now).written }
    {
        self.wire.written()
    }

    /// 0, since no call fails.
    pub fn faults(&self) -> u64
        ensures { result ≡ 0 }
    {
        0
    }
}

impl Conn for CalmConn {
    ghost use Rattle.std.specs.Prelude.{Some};
    ghost use Rattle.conn_ports.specs.Wire.{calm_link};

    ghost link = { λ c. Some (calm_link c) };

    ghost faults = { λ _. 0 };

    fn read(&mut self, max: usize, into: &mut Vec<u8>) -> Result<usize, PortFault> {
        Ok(self.wire.read(max, into)?)
    }

    fn write(&mut self, bytes: &[u8]) -> Result<(), PortFault> {
        Ok(self.wire.write(bytes)?)
    }
}
