// What takes connections.
ghost use Rattle.std.specs.Prelude.{◌≡◌, ℕ, ◌+◌, ◌<◌, ◌≤◌, Option, IfSome, IfOk, OnOk};
ghost use Rattle.io_ports.specs.Causes.{HasCause};
ghost use Rattle.conn_ports.specs.Given.{Given, HandsOut, TakesBack};
ghost use Rattle.conn_ports.specs.Link.{IsFresh, Moves};

use crate::conn::Conn;
use io_ports::PortFault;

/// Hands out the connections of peers, one after another, and takes them back.
pub trait Listener {
    type Link: Conn;

    /// How many connections were handed out, and those that were taken back, where the listener
    /// tells it.
    ghost given: { Self → Option Given };

    /// How many connections can be taken back before the next one is handed out.
    ghost spare: { Self → ℕ };

    /// How often a call failed.
    ghost faults: { Self → ℕ };

    /// Listens on a port, from 1 to 65,535.
    fn open(&mut self, port: u16) -> Result<(), PortFault>
        ensures same { given self.new ≡ given self.old }
        ensures cause { HasCause (faults self.old) (faults self.new) result };

    /// The next connection, of which no call was made yet. It makes room for taking it back.
    fn next(&mut self) -> Result<Self::Link, PortFault>
        ensures told { Moves (HandsOut result) (given self.old) (given self.new) }
        ensures spare { OnOk result (0 < spare self.new) }
        ensures calm { IfOk result (λ link. Self.Link.faults link ≡ 0) }
        ensures fresh { IfOk result (λ link. IfSome (Self.Link.link link) IsFresh) }
        ensures cause { HasCause (faults self.old) (faults self.new) result };

    /// Takes a connection back. It needs no memory.
    fn ended(&mut self, link: Self::Link)
        requires { 0 < spare self.old }
        ensures told { Moves (TakesBack (record { link = Self.Link.link link; faults = Self.Link.faults link })) (given self.old) (given self.new) }
        ensures spare { spare self.old ≤ spare self.new + 1 }
        ensures faults { faults self.new ≡ faults self.old };
}
