// Adapters of TCP on loopback. They tell nothing of what they hold.
mod faults;
mod tcp_conn;
mod tcp_listener;

pub use tcp_conn::TcpConn;
pub use tcp_listener::TcpListenerPort;
