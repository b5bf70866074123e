//! What the edits of a file make of its tokens and trivia, and which tokens the written bytes have: within 7.4 tile by tile, text
//! by text and name by name, then in 8.3. The definitions stand in `specs/`; the functions here carry their laws.
#![tactic(auto)]

pub mod name_laws;
pub mod text_laws;
pub mod tile_laws;
pub mod token_laws;
