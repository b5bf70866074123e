//! The rules of the upgrade, what each may decide at a place, and the settings.
#![tactic(auto)]

mod cause;
mod checks;
mod decision;
mod laws;
mod reads;
mod rule;
mod settings;
mod settings_fault;

pub use cause::Cause;
pub use decision::Decision;
pub use io_ports::Weight;
pub use laws::rule_is_on_unless_switched_off;
pub use rule::RuleId;
pub use settings::Settings;
pub use settings_fault::SettingsFault;
pub use span_edits::{Bytes, Edit, PathText, Span};
