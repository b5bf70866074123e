// Names that are used.
use node_names::NameSort;
use span_edits::Bytes;

/// A name that is used: the full names that it may stand for, as they are compared.
#[derive(Drop)]
pub struct NameUse {
    pub sort: NameSort,
    pub texts: Vec<Bytes>,
}
