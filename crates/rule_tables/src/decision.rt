// What a rule decides at a place.
use span_edits::Edit;

/// What a rule decides at a place of a program.
#[derive(Drop)]
pub enum Decision {
    /// The place keeps its text, or is no place of the rule.
    Keep,
    /// These edits are made.
    Change(Vec<Edit>),
    /// The place stays and is reported, with the number of a cause.
    Undecided(u16),
}
