// Nodes.
use crate::kind::NodeKind;
use crate::token::Token;
use sqlite_items::Items;

/// A part of a node.
#[cycle(tree)]
#[derive(Drop)]
pub enum Part {
    /// A token of the node itself.
    Leaf(Token),
    /// A node inside it.
    Child(Node),
}

/// A node: its kind, and its tokens and child nodes in the order of the source.
#[cycle(tree)]
#[derive(Drop)]
pub struct Node {
    pub kind: NodeKind,
    pub parts: Items<Part>,
}
