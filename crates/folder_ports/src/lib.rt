//! Folders, files and standard output as ports: thin adapters, which tell nothing of what they hold.
#![tactic(auto)]

mod apart;
mod file_sink;
mod folder_source;
mod folder_target;
mod places;
mod stdout_sink;

pub use file_sink::FileSink;
pub use folder_source::FolderSource;
pub use folder_target::FolderTarget;
pub use stdout_sink::StdoutSink;
