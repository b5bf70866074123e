// Words, and lists of words.
ghost use Rattle.std.specs.Prelude.{◌≡◌, ◌≤◌, ◌==◌, if◌then◌else◌, length, take, IfOk};
ghost use Rattle.node_names.specs.Seen.{form_of, texts_of};
ghost use Rattle.scope_names.specs.Form as form;
ghost use Rattle.scope_names.specs.Words as spec;
ghost use Rattle.file_declarations.specs.Texts.{text_option};

use node_names::{Piece, is_keyword};
use std::alloc::{AllocError, Global};

/// The words of a form. The only error is want of memory.
pub fn texts<'a>(alloc: Global, pieces: &'a [Piece]) -> Result<Vec<&'a [u8]>, AllocError>
    ensures { IfOk result (λ ws. texts_of ws.items ≡ form.texts (form_of pieces.now)) }
{
    let mut words = Vec::new(alloc);
    for piece in pieces {
        if let Piece::Word(_, word) = piece {
            words.push(word.as_slice())?;
        }
    }
    Ok(words)
}

/// The first word, or an empty one.
pub fn first_word<'a>(words: &[&'a [u8]]) -> &'a [u8]
    ensures { result.now ≡ spec.first_word (texts_of words.now) }
{
    match words {
        [] => &[],
        [word, ..] => word,
    }
}

/// The words behind the first one.
pub fn drop_first<'a, 'b>(words: &'b [&'a [u8]]) -> &'b [&'a [u8]]
    ensures { texts_of result.now ≡ spec.drop_first (texts_of words.now) }
{
    match words {
        [] => words,
        [_, behind @ ..] => behind,
    }
}

/// Whether a word with this text is among them.
pub(crate) fn has_word(text: &[u8], words: &[&[u8]]) -> bool
    ensures { result ≡ spec.has_word text.now (texts_of words.now) }
{
    let mut left = words;
    while let [word, behind @ ..] = left {
        if text == *word {
            return true;
        }
        left = behind;
    }
    false
}

/// The word behind a keyword, if there is one.
pub fn word_behind<'a>(keyword: &[u8], words: &[&'a [u8]]) -> Option<&'a [u8]>
    ensures { text_option result ≡ spec.word_behind keyword.now (texts_of words.now) }
{
    let mut left = words;
    while let [word, behind @ ..] = left {
        if let [next, ..] = behind
            && is_keyword(keyword, word)
        {
            return Some(next);
        }
        left = behind;
    }
    None
}

// What ends a statement.
fn ends_statement(word: &[u8]) -> bool
    ensures { result ≡ spec.ends_statement word.now }
{
    match word {
        [] => false,
        [byte] => *byte == b';',
        [first, second, ..] => *first == b'?' && *second == b'>',
    }
}

/// What ends one of several names.
pub(crate) fn is_end(word: &[u8]) -> bool
    ensures { result ≡ spec.is_end word.now }
{
    ends_statement(word)
        || word == b",".as_slice()
        || word == b"{".as_slice()
        || word == b"}".as_slice()
        || is_keyword(b"extends", word)
        || is_keyword(b"implements", word)
}

/// A name without a backslash in front.
pub(crate) fn without_root(name: &[u8]) -> &[u8]
    ensures { result.now ≡ spec.without_root name.now }
{
    match name {
        [] => name,
        [byte, behind @ ..] => { if *byte == b'\\' { behind } else { name } }
    }
}

// What is left behind a byte, where that is a backslash, or else what was left before.
fn behind_backslash<'a>(byte: u8, last: &'a [u8], behind: &'a [u8]) -> &'a [u8]
    ensures { result.now ≡ (if byte == 92 then behind.now else last.now) }
{
    if byte == b'\\' { behind } else { last }
}

/// A name's last part.
pub(crate) fn last_part(name: &[u8]) -> &[u8]
    ensures { result.now ≡ spec.last_part name.now }
{
    let mut last = name;
    let mut left = name;
    while let [byte, behind @ ..] = left {
        last = behind_backslash(*byte, last, behind);
        left = behind;
    }
    last
}

/// So many bytes from the front.
pub(crate) fn front(text: &[u8], count: usize) -> &[u8]
    requires { count ≤ length text.now }
    ensures { result.now ≡ take count text.now }
{
    let (front, _) = text.split_at(count);
    front
}

/// A name's first part, and what stands behind its backslash.
#[tactic(auto, using(crate::proofs::WordLemmas::front_step))]
pub fn split(name: &[u8]) -> (&[u8], Option<&[u8]>)
    ensures first { result.0.now ≡ (spec.split name.now).0 }
    ensures behind { text_option result.1 ≡ (spec.split name.now).1 }
{
    let mut count = 0;
    let mut left = name;
    while let [byte, behind @ ..] = left {
        if *byte == b'\\' {
            return (front(name, count), Some(behind));
        }
        count += 1;
        left = behind;
    }
    (name, None)
}
