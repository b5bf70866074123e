// Words of a form by their kinds.
ghost use Rattle.std.specs.Prelude.{◌≡◌, ◌++◌, ◌∷◌, drop, IfOk};
ghost use Rattle.scope_names.specs.Form.{Form};
ghost use Rattle.scope_names.specs.Words.{is_keyword as is_keyword_of};
ghost use Rattle.node_names.specs.Seen.{bit_of, form_of, text_if, texts_of};
ghost use Rattle.node_names.specs.Spelled as spec;

use crate::piece::Piece;
use php_tree::TokenKind;
use std::alloc::{AllocError, Global};

/// The bytes behind the first one.
pub fn behind_dollar(word: &[u8]) -> &[u8]
    ensures { result.now ≡ drop 1 word.now }
{
    match word {
        [] => word,
        [_, behind @ ..] => behind,
    }
}

// A piece's name, if it is one.
fn name(piece: &Piece) -> Option<&[u8]>
    ensures { (f : Form) → spec.spelled_names (bit_of piece.now ∷ f) ≡ text_if result ++ spec.spelled_names f }
{
    match piece {
        Piece::Word(TokenKind::Label | TokenKind::Name, word) => Some(word.as_slice()),
        _ => None,
    }
}

// A piece's variable, without its dollar sign, if it is one.
fn variable(piece: &Piece) -> Option<&[u8]>
    ensures { (f : Form) → spec.spelled_variables (bit_of piece.now ∷ f) ≡ text_if result ++ spec.spelled_variables f }
{
    match piece {
        Piece::Word(TokenKind::Variable, word) => Some(behind_dollar(word.as_slice())),
        _ => None,
    }
}

/// The names among the words, in order. The only error is want of memory.
pub fn names(alloc: Global, form: &[Piece]) -> Result<Vec<&[u8]>, AllocError>
    ensures { IfOk result (λ ws. texts_of ws.items ≡ spec.spelled_names (form_of form.now)) }
{
    let mut words = Vec::new(alloc);
    for piece in form {
        if let Some(word) = name(piece) {
            words.push(word)?;
        }
    }
    Ok(words)
}

/// The variables among the words, in order, without their dollar signs. The only error is want of memory.
pub fn variables(alloc: Global, form: &[Piece]) -> Result<Vec<&[u8]>, AllocError>
    ensures { IfOk result (λ ws. texts_of ws.items ≡ spec.spelled_variables (form_of form.now)) }
{
    let mut words = Vec::new(alloc);
    for piece in form {
        if let Some(word) = variable(piece) {
            words.push(word)?;
        }
    }
    Ok(words)
}

/// The words directly before an equals sign, in order. The only error is want of memory.
pub fn values(alloc: Global, form: &[Piece]) -> Result<Vec<&[u8]>, AllocError>
    ensures { IfOk result (λ ws. texts_of ws.items ≡ spec.before_equals None (form_of form.now)) }
{
    let mut words = Vec::new(alloc);
    let mut before: Option<&[u8]> = None;
    for piece in form {
        let Piece::Word(_, word) = piece else {
            before = None;
            continue;
        };
        if let Some(name) = before
            && word.as_slice() == b"=".as_slice()
        {
            words.push(name)?;
            before = None;
            continue;
        }
        before = Some(word.as_slice());
    }
    Ok(words)
}
