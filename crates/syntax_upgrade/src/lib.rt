//! The rules on syntax, run over one file in one walk: its new bytes, how many edits made them, and its reports. A rule is a
//! file here.
#![tactic(auto)]

mod behind;
mod brace_offset;
mod calm;
mod casts;
mod dollar_brace;
mod dot_precedence;
mod found;
mod hash_comment;
mod labels;
mod laws;
mod nested_ternary;
mod next;
mod node_rule;
mod node_rules;
mod off_places;
mod past;
mod progress;
mod recorder;
mod reserved_name;
mod rounds;
mod rules_on;
mod split_name;
mod start_of;
mod steps;
mod token_standing;
mod unset_cast;
mod walk;
mod whole;
mod word;
mod words;
mod writer;

pub use found::Found;
pub use laws::{edits_are_written, insides_are_written, names_are_walked, nodes_are_written};
pub use rules_on::rules_of;
pub use syntax_rules::Rules;
pub use whole::{Upgrade, upgraded};
