//! Connections of a peer and what takes them: their traits, their forms in memory, and thin
//! adapters of TCP on loopback.
#![tactic(auto)]

mod calm;
mod conn;
mod host;
mod listener;
mod memory;
mod returned;
mod wire;

pub use calm::{CalmConn, CalmListener};
pub use conn::Conn;
pub use host::{TcpConn, TcpListenerPort};
pub use io_ports::PortFault;
pub use listener::Listener;
pub use memory::{MemoryConn, MemoryListener};
