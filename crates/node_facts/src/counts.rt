// Numbers of declarations and of closures.

/// The numbers of the next declaration and of the next closure or arrow function of a file.
#[derive(Clone, Copy)]
pub(crate) struct Counts {
    pub(crate) number: u32,
    pub(crate) next: u32,
}
