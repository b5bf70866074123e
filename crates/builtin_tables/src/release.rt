// Releases.

/// A release of PHP between the two versions.
#[derive(Clone, Copy, Debug, PartialEq, Eq)]
pub enum Release {
    /// PHP 8.0.
    V80,
    /// PHP 8.1.
    V81,
    /// PHP 8.2.
    V82,
    /// PHP 8.3.
    V83,
}
