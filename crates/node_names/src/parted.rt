// What stands before a word of a form, and behind it.
ghost use Rattle.std.specs.Prelude.{◌≡◌};
ghost use Rattle.scope_names.specs.Words.{is_keyword as keyword_test};
ghost use Rattle.node_names.specs.Seen.{form_of, text_if};
ghost use Rattle.node_names.specs.Spelled as spec;

use crate::piece::Piece;
use php_tree::TokenKind;

/// Whether a word is a keyword, whatever its case.
pub fn is_keyword(keyword: &[u8], word: &[u8]) -> bool
    ensures { result ≡ keyword_test keyword.now word.now }
{
    keyword.eq_ignore_ascii_case(word)
}

/// What stands behind the first word with a text; nothing where there is none.
pub fn behind_text<'a>(text: &[u8], form: &'a [Piece]) -> &'a [Piece]
    ensures { form_of result.now ≡ spec.behind_text text.now (form_of form.now) }
{
    let mut left = form;
    while let [piece, behind @ ..] = left {
        if let Piece::Word(_, word) = piece
            && text == word.as_slice()
        {
            return behind;
        }
        left = behind;
    }
    left
}

/// What stands behind the first word that is a keyword; nothing where there is none.
pub fn behind_keyword<'a>(keyword: &[u8], form: &'a [Piece]) -> &'a [Piece]
    ensures { form_of result.now ≡ spec.behind_keyword keyword.now (form_of form.now) }
{
    let mut left = form;
    while let [piece, behind @ ..] = left {
        if let Piece::Word(_, word) = piece
            && is_keyword(keyword, word.as_slice())
        {
            return behind;
        }
        left = behind;
    }
    left
}

/// What stands first without the sign of a reference.
pub fn without_ampersand(form: &[Piece]) -> &[Piece]
    ensures { form_of result.now ≡ spec.without_ampersand (form_of form.now) }
{
    match form {
        [Piece::Word(_, word), behind @ ..] if word.as_slice() == b"&".as_slice() => behind,
        _ => form,
    }
}

/// The member's name that stands first, if one does.
pub fn first_member(form: &[Piece]) -> Option<&[u8]>
    ensures { text_if result ≡ spec.first_member (form_of form.now) }
{
    match form {
        [Piece::Word(TokenKind::Label | TokenKind::Keyword, word), ..] => Some(word.as_slice()),
        _ => None,
    }
}
