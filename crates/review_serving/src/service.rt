// What answers a connection.
ghost use Rattle.std.specs.Prelude.{ℕ, Result};

use conn_ports::Conn;
use std::alloc::Global;

/// Answers a request on a connection, over what a keeper keeps between requests.
pub trait Service<C: Conn, K> {
    type Fault: Drop;

    /// What an answer does: to the service, to the keeper and to the connection, and what comes of it.
    ghost answers: { Self → Self → K → K → C → C → Result ℕ Self.Fault → Type 0 };

    /// Answers one request, and gives the status that was sent. An `Err` says that none was.
    fn answer(&mut self, alloc: Global, conn: &mut C, keeper: &mut K) -> Result<u16, Self::Fault>
        ensures { answers self.old self.new keeper.old keeper.new conn.old conn.new result };
}
