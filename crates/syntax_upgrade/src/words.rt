// The tokens at some marks.
ghost use Rattle.std.specs.Prelude.{◌≡◌, ◌<◌, Some, length, slice_get};
ghost use Rattle.php_terminals.specs.Marked.{IsMark, token_at};
ghost use Rattle.php_terminals.specs.Tokens.{tokens_in};
ghost use Rattle.syntax_upgrade.specs.Words.{seen};

use crate::word::Word;
use php_terminals::mark::Mark;
use php_terminals::marked::{lead_of, text_of};
use php_terminals::tokens::Tokens;

/// The token at a mark among the bytes of a file.
pub(crate) fn word_at(bytes: &[u8], mark: Mark) -> Word
    requires { IsMark bytes.now mark }
    ensures { seen result ≡ token_at bytes.now mark }
{
    Word {
        kind: mark.kind,
        class: mark.class,
        lead: lead_of(bytes, mark),
        text: text_of(bytes, mark),
        start: mark.start,
    }
}

/// One of some tokens.
pub(crate) fn word_of(tokens: Tokens, at: usize) -> Word
    requires { at < length (tokens_in tokens) }
    ensures { slice_get (tokens_in tokens.entry) at ≡ Some (seen result) }
{
    word_at(tokens.bytes, tokens.marks[at])
}
