// Places behind bytes and tokens.
ghost use Rattle.std.specs.Prelude.{◌≡◌, ◌+◌, length, IfOk};
ghost use Rattle.php_tree.specs.Places.{behind as behind_token};
ghost use Rattle.syntax_upgrade.specs.Words.{seen};

use crate::word::Word;
use std::alloc::AllocError;

/// The place behind so many bytes that begin at a place. No file is so long that there is none.
pub(crate) fn past(at: u32, count: usize) -> Result<u32, AllocError>
    ensures { IfOk result (λ place. place ≡ at + count) }
{
    if count > u32::MAX as usize {
        return Err(AllocError);
    }
    at.checked_add(count as u32).ok_or(AllocError)
}

/// The place behind some bytes that begin at a place.
pub(crate) fn past_bytes(at: u32, bytes: &[u8]) -> Result<u32, AllocError>
    ensures { IfOk result (λ place. place ≡ at + length bytes.now) }
{
    past(at, bytes.len())
}

/// The place behind a token whose trivia begin at a place.
pub(crate) fn past_token(at: u32, token: Word) -> Result<u32, AllocError>
    ensures { IfOk result (λ place. place ≡ behind_token at (seen token.entry)) }
{
    past_bytes(past_bytes(at, token.lead)?, token.text)
}
