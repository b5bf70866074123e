// What the names of a file stand for.
use crate::found::Found;
use node_facts::NodeFact;
use program_names::SlotId;

/// What the names of a file stand for: its nodes, each with the place where its items end in the lists that follow; what is
/// found for each use; the number of each class that is declared, if what is declared is one; the number of each slot that is
/// named; and of those that are listed, each with the one to which it is linked there.
#[derive(Drop)]
pub(crate) struct FileNames {
    pub(crate) nodes: Vec<NodeFact>,
    pub(crate) uses: Vec<Found>,
    pub(crate) classes: Vec<Option<u32>>,
    pub(crate) slots: Vec<SlotId>,
    pub(crate) listed: Vec<(SlotId, SlotId)>,
}
