// Connections and listeners in memory that never fail.
mod conn;
mod listener;

pub use conn::CalmConn;
pub use listener::CalmListener;
