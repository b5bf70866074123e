// What the nodes of a file tell of names.
use crate::name_use::NameUse;
use crate::node_fact::NodeFact;
use crate::slot_name::SlotName;
use node_names::Name;

/// What the nodes of a file tell of names, each list in the order of the source: its nodes in preorder; the names that they
/// declare and use; the slots that they name, and those that they list, each with the one to which it is linked there.
#[derive(Drop)]
pub struct FileFacts {
    pub nodes: Vec<NodeFact>,
    pub declares: Vec<Name>,
    pub uses: Vec<NameUse>,
    pub slots: Vec<SlotName>,
    pub listed: Vec<(SlotName, SlotName)>,
}
