// How far the lists of a file go.

/// How many names are declared and used, and how many slots are named and listed, up to a node of a file, with its own.
#[derive(Clone, Copy)]
pub struct Ends {
    pub declares: u32,
    pub uses: u32,
    pub slots: u32,
    pub listed: u32,
}
