//! What each node of a tree tells of names: what it declares and uses.
#![tactic(auto)]

mod comparing;
mod declares;
mod draft;
mod forms;
mod name;
mod name_sort;
mod parted;
mod piece;
mod spelled;

pub use comparing::{compared, in_space, member_names, named, space_names};
pub use declares::declared_names;
pub use draft::{Draft, add_token};
pub use forms::{form, pieces_of};
pub use name::Name;
pub use name_sort::NameSort;
pub use parted::{behind_keyword, behind_text, first_member, is_keyword, without_ampersand};
pub use piece::Piece;
pub use spelled::{behind_dollar, names, values, variables};
