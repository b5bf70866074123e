// Imports.
use crate::import_sort::ImportSort;
use span_edits::Bytes;

/// An alias as it is compared, and the full name that it stands for, without a backslash in front.
#[derive(Debug, Drop)]
pub struct Import {
    pub sort: ImportSort,
    pub alias: Bytes,
    pub full: Bytes,
}
