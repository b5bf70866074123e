// Tokens.
ghost use Rattle.std.specs.Prelude.{◌≡◌, IfOk};

use span_edits::Bytes;
use std::alloc::{AllocError, Global};

/// The kind of a token. A token of kind `Op` is told by its text.
#[derive(Clone, Copy, Debug, PartialEq, Eq)]
pub enum TokenKind {
    InlineHtml,
    OpenEcho,
    Variable,
    Label,
    Keyword,
    Int,
    Float,
    Text,
    Quote,
    HeredocStart,
    Backtick,
    Cast,
    Op,
    AttributeOpen,
    Name,
    Semi,
    Close,
    End,
    Piece,
    CurlyOpen,
    DollarBrace,
    VarName,
    QuotedEnd,
}

/// A token: `lead` is the trivia before it (white space, comments, opening tags), `text` its own
/// bytes, and `start` the place of `text`, in bytes from the file's front.
#[derive(Drop)]
pub struct Token {
    pub kind: TokenKind,
    pub lead: Bytes,
    pub text: Bytes,
    pub start: u32,
}

impl Token {
    /// An equal token. The only error is want of memory.
    pub fn copy(&self, alloc: Global) -> Result<Token, AllocError>
        ensures { IfOk result (λ t. t ≡ self.now) }
    {
        Ok(Token {
            kind: self.kind,
            lead: self.lead.copy(alloc)?,
            text: self.text.copy(alloc)?,
            start: self.start,
        })
    }
}
