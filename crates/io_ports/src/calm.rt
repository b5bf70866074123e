// Forms in memory, of which no call fails.
mod list;
mod sink;
mod source;
mod target;

pub use list::CalmList;
pub use sink::CalmSink;
pub use source::CalmSource;
pub use target::CalmTarget;
