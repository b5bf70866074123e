// Why a version doesn't read bytes.
use thiserror::Error;

/// Why a version doesn't read bytes. Places are bytes from the front.
#[derive(Clone, Copy, Debug, Drop, PartialEq, Eq, Error)]
pub enum ReadFault {
    /// A text that begins here has no end.
    #[error("a text that begins at byte {0} has no end")]
    OpenText(u32),
    /// A `/*` comment that begins here has no end.
    #[error("a comment that begins at byte {0} has no end")]
    OpenComment(u32),
    /// A heredoc or nowdoc that begins here has no end.
    #[error("a heredoc that begins at byte {0} has no end")]
    OpenHeredoc(u32),
    /// No token of the mode begins here.
    #[error("no token begins at byte {0}")]
    BadByte(u32),
    /// There are more than 1,048,576 bytes.
    #[error("more than 1048576 bytes")]
    TooLong,
    /// The tokens have no tree, or none that is shallow enough.
    #[error("not in the grammar")]
    NotInGrammar,
    /// No memory was at hand.
    #[error("no memory")]
    Memory,
}
