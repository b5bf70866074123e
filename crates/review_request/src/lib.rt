//! One HTTP request of a review: its head, its route, who sends it, and its body.
#![tactic(auto)]

mod body;
mod fields;
mod frame;
mod head;
mod head_bytes;
mod length;
mod number;
mod refusal;
mod request;
mod route;
mod stop;

pub use io_ports::PathText;
pub use refusal::Refusal;
pub use request::{Request, read_request};
pub use route::Ask;
pub use stop::Stop;
