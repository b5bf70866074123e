//! The rules on syntax: where each stands, what it changes, that the change loses no byte of the source, and that all
//! together keep the meaning. A rule is a file here and one in `specs/`.
#![tactic(auto)]

mod brace_offset;
mod dollar_brace;
mod hash_comment;
mod keeps;
mod nested_ternary;
mod real_cast;
mod rules;
mod split_name;
mod together;
mod unset_cast;

pub use brace_offset::brace_offset_is_written;
pub use dollar_brace::dollar_brace_is_written;
pub use hash_comment::hash_comment_is_written;
pub use keeps::{braces_do_the_same, rewriting_keeps_meaning, unset_casts_are_null};
pub use nested_ternary::nested_ternary_keeps_meaning;
pub use real_cast::real_cast_is_written;
pub use rules::Rules;
pub use split_name::split_name_is_written;
pub use together::syntax_is_rewritten;
pub use unset_cast::unset_cast_is_written;
