// Parts of a node, one after another.
ghost use Rattle.std.specs.Prelude.{◌≡◌, option_map};
ghost use Rattle.php_rows.specs.Reading.{forest_in};
ghost use Rattle.syntax_upgrade.specs.Words.{seen};
ghost use Rattle.syntax_upgrade.specs.Parts.{IsNextPart, first_leaf, first_node as node_first, has_none as is_empty, others as others_of, pair_of};

use crate::word::Word;
use crate::words::word_at;
use php_rows::{Parts, Step};
use php_tree::NodeKind;

/// A part: a token, or a node by its kind and its parts.
#[derive(Clone, Copy)]
pub(crate) enum Part<'a> {
    Leaf(Word<'a>),
    Node(NodeKind, Parts<'a>),
}

/// The next part, which is then behind.
pub(crate) fn next<'a>(parts: &mut Parts<'a>) -> Option<Part<'a>>
    ensures { IsNextPart result (forest_in parts.old) (forest_in parts.new) }
{
    let bytes = parts.bytes();
    match parts.next() {
        None => None,
        Some(Step::Leaf(mark)) => Some(Part::Leaf(word_at(bytes, mark))),
        Some(Step::Child(kind, _, inner)) => Some(Part::Node(kind, inner)),
    }
}

/// The first part, where it is a token.
pub(crate) fn first_word<'a>(parts: Parts<'a>) -> Option<Word<'a>>
    ensures { option_map seen result ≡ first_leaf (forest_in parts.entry) }
{
    let mut left = parts;
    match next(&mut left) {
        None => None,
        Some(Part::Leaf(word)) => Some(word),
        Some(Part::Node(_, _)) => None,
    }
}

/// The first part, where it is a node.
pub(crate) fn first_node<'a>(parts: Parts<'a>) -> Option<(NodeKind, Parts<'a>)>
    ensures { option_map pair_of result ≡ node_first (forest_in parts.entry) }
{
    let mut left = parts;
    match next(&mut left) {
        None => None,
        Some(Part::Leaf(_)) => None,
        Some(Part::Node(kind, inner)) => Some((kind, inner)),
    }
}

/// The parts behind the first one.
pub(crate) fn others<'a>(parts: Parts<'a>) -> Parts<'a>
    ensures { forest_in result ≡ others_of (forest_in parts.entry) }
{
    let mut left = parts;
    match next(&mut left) {
        None => parts,
        Some(Part::Leaf(_)) => left,
        Some(Part::Node(_, _)) => left,
    }
}

/// Whether there is no part.
pub(crate) fn has_none(parts: Parts) -> bool
    ensures { result ≡ is_empty (forest_in parts.entry) }
{
    let mut left = parts;
    match next(&mut left) {
        None => true,
        Some(Part::Leaf(_)) => false,
        Some(Part::Node(_, _)) => false,
    }
}
