// All files of a program.
use crate::file_names::FileNames;

/// What the names of each file stand for, and how many slots they name.
#[derive(Drop)]
pub(crate) struct AllFiles {
    pub(crate) files: Vec<FileNames>,
    pub(crate) slots: u32,
}
