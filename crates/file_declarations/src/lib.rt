//! What a file declares, extends and includes, read from its rows in one walk.
#![tactic(auto)]

mod class_name;
mod declaration;
mod import;
mod import_sort;
mod importing;
mod include_path;
mod laws;
mod loose;
mod next;
mod node_ref;
mod parents;
mod path_parts;
mod role;
mod row_forms;
mod standing;
mod telling;
mod told;
mod walk;
mod whole;
mod words;

pub use class_name::{Names, alias_of, class_named, qualified};
pub use declaration::Declaration;
pub use import::Import;
pub use import_sort::ImportSort;
pub use importing::imports;
pub use laws::files_tell_their_facts;
pub use node_ref::NodeRef;
pub use row_forms::row_form;
pub use standing::{Standing, pass, space_named, space_of};
pub use told::Told;
pub use whole::file_told;
pub use words::{drop_first, first_word, split, texts, word_behind};
