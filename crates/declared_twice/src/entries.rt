// Entries.

/// The entries of a program by the numbers of their files, and that of the file that runs before each, if there is one.
#[derive(Debug, Drop)]
pub struct Entries {
    pub files: Vec<u32>,
    pub prepend: Option<u32>,
}
