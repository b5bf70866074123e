// Words of a form.
ghost use Rattle.std.specs.Prelude.{◌≡◌, IfOk};
ghost use Rattle.node_names.specs.Seen.{form_of, text_if, texts_of};
ghost use Rattle.node_names.specs.Spelled as spec;

use node_names::{Piece, behind_dollar};
use php_tree::TokenKind;
use std::alloc::{AllocError, Global};

/// The variable that stands first, without its dollar sign, if one does.
pub(crate) fn first_variable(form: &[Piece]) -> Option<&[u8]>
    ensures { text_if result ≡ spec.first_variable (form_of form.now) }
{
    match form {
        [Piece::Word(TokenKind::Variable, word), ..] => Some(behind_dollar(word.as_slice())),
        _ => None,
    }
}

/// The names among the words before one with a text, in order. The only error is want of memory.
pub(crate) fn names_before<'a>(
    alloc: Global,
    text: &[u8],
    form: &'a [Piece],
) -> Result<Vec<&'a [u8]>, AllocError>
    ensures { IfOk result (λ ws. texts_of ws.items ≡ spec.spelled_names (spec.before_text text.now (form_of form.now))) }
{
    let mut words = Vec::new(alloc);
    for piece in form {
        if let Piece::Word(kind, word) = piece {
            if text == word.as_slice() {
                return Ok(words);
            }
            if matches!(kind, TokenKind::Label | TokenKind::Name) {
                words.push(word.as_slice())?;
            }
        }
    }
    Ok(words)
}

/// The words behind the first one.
pub(crate) fn behind_first<'a, 'b>(words: &'b [&'a [u8]]) -> &'b [&'a [u8]]
    ensures { texts_of result.now ≡ spec.behind_first (texts_of words.now) }
{
    match words {
        [] => words,
        [_, behind @ ..] => behind,
    }
}
