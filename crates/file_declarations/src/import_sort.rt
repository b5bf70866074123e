// What a name that is imported is the name of.

/// What a name that is imported is the name of.
#[derive(Clone, Copy, Debug, PartialEq, Eq)]
pub enum ImportSort {
    Class,
    Function,
    Constant,
}
