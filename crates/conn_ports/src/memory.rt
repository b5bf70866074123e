// Connections and listeners in memory, some of whose calls fail.
mod conn;
mod listener;
mod tally;

pub use conn::MemoryConn;
pub use listener::MemoryListener;
