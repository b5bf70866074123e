// Nodes and slots by number.

/// A node of a program: the number of its file, in the order of the paths, and its number there, in preorder from 0.
#[derive(Clone, Copy, Debug, PartialEq, Eq, PartialOrd, Ord)]
pub struct NodeRef {
    pub file: u32,
    pub node: u32,
}
