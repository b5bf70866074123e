// The two versions.

/// The version of the language whose grammar and meaning hold.
#[derive(Clone, Copy, Debug, PartialEq, Eq)]
pub enum Version {
    /// PHP 7.4.
    V74,
    /// PHP 8.3.
    V83,
}
