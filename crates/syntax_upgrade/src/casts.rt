// Casts, by the word between their parentheses.
ghost use Rattle.std.specs.Prelude.{◌≡◌};
ghost use Rattle.std.specs.Str.{bytes_eq};
ghost use Rattle.php_rows.specs.Reading.{forest_in};
ghost use Rattle.syntax_rules.specs.Casts.{bare, first_text as text_first, is_cast as cast, is_cast_by as cast_by};
ghost use Rattle.syntax_rules.specs.RealCast.{is_real_cast as real_cast};
ghost use Rattle.syntax_rules.specs.UnsetCast.{is_unset_cast as unset_cast};

use crate::next::first_word;
use php_rows::Parts;
use php_tree::NodeKind;

/// The text of a first token, if the first part is one.
#[tactic(auto, using(crate::proofs::PartLemmas::first_text_is))]
pub(crate) fn first_text<'a>(parts: Parts<'a>) -> &'a [u8]
    ensures { result.now ≡ text_first (forest_in parts.entry) }
{
    match first_word(parts) {
        Some(word) => word.text,
        None => &[],
    }
}

/// Whether a node is a cast.
pub(crate) fn is_cast(kind: NodeKind) -> bool
    ensures { result ≡ cast kind }
{
    matches!(kind, NodeKind::Cast)
}

// Whether a text is this word, in lower case and without spaces and tabs.
fn is_spelled(text: &[u8], word: &[u8]) -> bool
    ensures { result ≡ bytes_eq (bare text.now) word.now }
{
    let mut left = word;
    for byte in text {
        if *byte == b' ' || *byte == b'\t' {
            continue;
        }
        match left {
            [first, behind @ ..] if *first == byte.to_ascii_lowercase() => left = behind,
            _ => return false,
        }
    }
    left.is_empty()
}

// Whether a node is a cast that is spelled so.
fn is_cast_by(kind: NodeKind, parts: Parts, word: &[u8]) -> bool
    ensures { result ≡ cast_by word.now (kind, forest_in parts.entry) }
{
    is_cast(kind) && is_spelled(first_text(parts), word)
}

/// Whether a node is a cast `(real)`.
pub(crate) fn is_real_cast(kind: NodeKind, parts: Parts) -> bool
    ensures { result ≡ real_cast (kind, forest_in parts.entry) }
{
    is_cast_by(kind, parts, b"(real)")
}

/// Whether a node is a cast `(unset)`.
pub(crate) fn is_unset_cast(kind: NodeKind, parts: Parts) -> bool
    ensures { result ≡ unset_cast (kind, forest_in parts.entry) }
{
    is_cast_by(kind, parts, b"(unset)")
}
