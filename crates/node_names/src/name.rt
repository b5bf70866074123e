// Names.
use crate::name_sort::NameSort;
use span_edits::Bytes;

/// A full name as it is compared: without a backslash in front, and in lower case where case doesn't count.
#[derive(Debug, Drop)]
pub struct Name {
    pub sort: NameSort,
    pub text: Bytes,
}
