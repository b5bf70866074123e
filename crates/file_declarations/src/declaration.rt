// Declarations.
use crate::node_ref::NodeRef;
use node_names::Name;

/// A name with the node that declares it, and whether that stands unconditionally: at the top level of a file or of a
/// namespace.
#[derive(Debug, Drop)]
pub struct Declaration {
    pub name: Name,
    pub at: NodeRef,
    pub is_top: bool,
}
