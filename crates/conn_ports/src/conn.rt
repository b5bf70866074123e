// A connection.
ghost use Rattle.std.specs.Prelude.{◌≡◌, ℕ, ◌<◌, Option, IfOk, OnErr};
ghost use Rattle.io_ports.specs.Causes.{HasCause};
ghost use Rattle.conn_ports.specs.Link.{Link, Reads, Writes};

use io_ports::PortFault;

/// A connection to a peer, that bytes are read from and written to.
pub trait Conn {
    /// What went through the connection, and what is still to come, where the connection tells it.
    ghost link: { Self → Option Link };

    /// How often a call failed.
    ghost faults: { Self → ℕ };

    /// Appends at least 1 and at most `max` bytes, and answers how many. It answers 0 exactly at
    /// the end of the input. After an `Err` no byte was taken.
    fn read(&mut self, max: usize, into: &mut Vec<u8>) -> Result<usize, PortFault>
        requires { 0 < max }
        ensures read { IfOk result (Reads max into.old.items into.new.items (link self.old) (link self.new)) }
        ensures bytes { OnErr result (into.new.items ≡ into.old.items) }
        ensures link { OnErr result (link self.new ≡ link self.old) }
        ensures cause { HasCause (faults self.old) (faults self.new) result };

    /// Sends bytes. After `Failed` some first bytes of them were sent, after `Memory` none.
    fn write(&mut self, bytes: &[u8]) -> Result<(), PortFault>
        ensures written { Writes bytes.now result (link self.old) (link self.new) }
        ensures cause { HasCause (faults self.old) (faults self.new) result };
}
