//! What each node of a file tells of names: what it declares and uses, and which slots it names and lists, in one walk over
//! the file's rows.
#![tactic(auto)]

mod candidates;
mod class_uses;
mod counts;
mod ends;
mod fact;
mod facts;
mod form_at;
mod inner;
mod kinds;
mod listed;
mod member_uses;
mod name_use;
mod node_fact;
mod opened;
mod scene;
mod slot_name;
mod slots;
mod spelled;
mod spot;
mod use_role;
mod uses;
mod walk;
mod whole;

pub use ends::Ends;
pub use facts::FileFacts;
pub use name_use::NameUse;
pub use node_fact::NodeFact;
pub use slot_name::SlotName;
pub use whole::file_facts;
