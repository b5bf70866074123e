// The bytes and the classes of tokens that are places in their source.
ghost use Rattle.std.specs.Prelude.{◌≡◌, ◌≤◌, ◌<◌, ◌^◌, List, ℕ, IfOk, length, slice_range};
ghost use Rattle.php_tree.specs.declared.token.Token.{Token};
ghost use Rattle.php_terminals.specs.Classify.{terminal_by};
ghost use Rattle.php_terminals.specs.Marked.{IsMark, token_at};

use crate::classify::class_of;
use crate::mark::Mark;
use php_tree::{Token, TokenKind};
use span_edits::Bytes;
use std::alloc::{AllocError, Global};

/// The trivia before a token.
pub fn lead_of(bytes: &[u8], mark: Mark) -> &[u8]
    requires { IsMark bytes.now mark }
    ensures { result.now ≡ (token_at bytes.now mark).lead }
{
    &bytes[mark.lead as usize..mark.start as usize]
}

/// The text of a token.
pub fn text_of(bytes: &[u8], mark: Mark) -> &[u8]
    requires { IsMark bytes.now mark }
    ensures { result.now ≡ (token_at bytes.now mark).text }
{
    &bytes[mark.start as usize..mark.end as usize]
}

/// The token of a kind at some places.
pub fn mark_at(bytes: &[u8], kind: TokenKind, lead: usize, at: usize, end: usize) -> Mark
    requires order { lead ≤ at }
    requires length { at ≤ end }
    requires within { end ≤ length bytes.now }
    requires short { length bytes.now < 2 ^ 32 }
    ensures mark { IsMark bytes.now result }
    ensures kind { result.kind ≡ kind }
    ensures lead { result.lead ≡ lead }
    ensures start { result.start ≡ at }
    ensures end { result.end ≡ end }
{
    Mark {
        kind,
        class: class_of(kind, &bytes[at..end]),
        lead: lead as u32,
        start: at as u32,
        end: end as u32,
    }
}

/// The token at some places. The only error is want of memory.
pub fn token_of(alloc: Global, bytes: &[u8], mark: Mark) -> Result<Token, AllocError>
    requires { IsMark bytes.now mark }
    ensures { IfOk result (λ t. t ≡ token_at bytes.now mark) }
{
    Ok(Token {
        kind: mark.kind,
        lead: Bytes::new(Vec::from_slice(alloc, lead_of(bytes, mark))?),
        text: Bytes::new(Vec::from_slice(alloc, text_of(bytes, mark))?),
        start: mark.start,
    })
}
