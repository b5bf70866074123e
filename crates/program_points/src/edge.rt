// Edges of a program.
use program_names::NodeRef;

/// Evaluation may step from one point to another, by their numbers, by what a node does.
#[derive(Clone, Copy, Debug, PartialEq, Eq)]
pub struct Edge {
    pub from: u32,
    pub to: u32,
    pub node: NodeRef,
}
