//! Spans of bytes, edits of them, and the two texts that they are made of.
#![tactic(auto)]

mod bytes;
mod edit;
mod edit_fault;
mod edits;
mod laws;
mod path_text;
mod places;
mod span;

pub use bytes::Bytes;
pub use edit::Edit;
pub use edit_fault::EditFault;
pub use edits::Edits;
pub use laws::{byte_outside_stays, last_edit_is_made_first, no_edit_keeps_all, splices_join};
pub use path_text::PathText;
pub use span::Span;
