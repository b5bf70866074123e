// Forms in memory, whose calls fail where they are told to.
pub mod files;
mod list_sink;
mod sink;
mod source;
mod tally;
mod target;

pub use list_sink::ListSink;
pub use sink::MemorySink;
pub use source::MemorySource;
pub use target::MemoryTarget;
