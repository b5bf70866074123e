//! The upgrade of a program: its files in 7.4, their bytes for 8.3, and what is reported of them, handed to sinks.
#![tactic(auto)]

mod fault;
mod file;
mod limits;
mod names;
mod place;
mod reading;
mod reporting;
mod upgraded;
mod whole;

pub use fault::{LimitFault, LimitKind, UpgradeFault};
pub use file::SourceFile;
pub use limits::{MAX_ALL_BYTES, MAX_FILE_BYTES, MAX_FILES, limit_of};
pub use place::{Place, place_of};
pub use report_handing::Slot;
pub use resolved_names::{NamesFault, NodeRef};
pub use upgraded::Upgraded;
pub use whole::{upgrade, upgrade_into};
