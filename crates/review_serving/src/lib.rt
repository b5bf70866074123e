//! Connections of a listener, answered one after another.
#![tactic(auto)]

mod service;
mod serving;

pub use conn_ports::{Conn, Listener, PortFault};
pub use service::Service;
pub use serving::serve;
