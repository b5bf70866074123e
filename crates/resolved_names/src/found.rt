// What a use may stand for.
use program_names::NodeRef;

/// What a use stands for: no declaration, those of the name at an index, or these.
#[derive(Drop)]
pub(crate) enum Found {
    Nothing,
    At(usize),
    Each(Vec<NodeRef>),
}
