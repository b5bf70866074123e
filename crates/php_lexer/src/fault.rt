// Why bytes have no tokens.
use std::alloc::AllocError;
use thiserror::Error;

/// Why bytes have no tokens. Places are bytes from the front.
#[derive(Clone, Copy, Debug, Drop, PartialEq, Eq, Error)]
pub enum LexFault {
    /// A text that begins here has no end.
    #[error("a text that begins at byte {0} has no end")]
    OpenText(u32),
    /// A `/*` comment that begins here has no end.
    #[error("a comment that begins at byte {0} has no end")]
    OpenComment(u32),
    /// A heredoc or nowdoc that begins here has no end.
    #[error("a heredoc that begins at byte {0} has no end")]
    OpenHeredoc(u32),
    /// No token of the mode begins here.
    #[error("no token begins at byte {0}")]
    BadByte(u32),
    /// There are more than 1,048,576 bytes.
    #[error("more than 1048576 bytes")]
    TooLong,
    /// No memory was at hand.
    #[error("no memory")]
    Memory,
}

impl From<AllocError> for LexFault {
    ghost use Rattle.std.specs.Prelude.{◌≡◌};
    ghost use Rattle.php_lexer.specs.declared.fault.LexFault.TheVariants.{Memory};

    ghost from_gives = { λ _ e. e ≡ Memory };

    fn from(_: AllocError) -> Self {
        LexFault::Memory
    }
}
