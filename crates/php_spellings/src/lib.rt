//! How tokens are spelled: classes of bytes, keywords, whole numbers, and what rows of token tables are made of.
#![tactic(auto)]

pub mod classes;
pub mod keywords;
pub mod numbers;
pub mod table;
