//! The upgrader's top call: PHP 7.4 sources in, PHP 8.3 sources out.
#![tactic(auto)]

mod files;
mod line;
mod listing;
mod names;
mod ready;
mod settings;
mod stop;
mod top;
mod whole;
mod writing;

pub use stop::{Status, status_number};
pub use top::run;
