// What a node tells of names.
use crate::ends::Ends;
use php_tree::NodeKind;

/// A node: its kind, and where in the lists of its file what it tells ends. It begins where that of the node before ends.
#[derive(Clone, Copy)]
pub struct NodeFact {
    pub kind: NodeKind,
    pub ends: Ends,
}
