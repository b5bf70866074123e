// Parts of a node, one after another.
ghost use Rattle.std.specs.Prelude.{◌≡◌};
ghost use Rattle.php_rows.specs.Reading.{forest_in};
ghost use Rattle.file_declarations.specs.Next.{IsNextPart, IsOnly, only_text as text_alone};
ghost use Rattle.file_declarations.specs.Texts.{text_option};

use php_rows::{Parts, Step};
use php_terminals::marked::text_of;
use php_tree::NodeKind;

/// A part: a token by its text, or a node by its kind and its parts.
#[derive(Clone, Copy)]
pub(crate) enum Part<'a> {
    Leaf(&'a [u8]),
    Node(NodeKind, Parts<'a>),
}

/// The next part, which is then behind.
pub(crate) fn next<'a>(parts: &mut Parts<'a>) -> Option<Part<'a>>
    ensures { IsNextPart result (forest_in parts.old) (forest_in parts.new) }
{
    let bytes = parts.bytes();
    match parts.next() {
        None => None,
        Some(Step::Leaf(mark)) => Some(Part::Leaf(text_of(bytes, mark))),
        Some(Step::Child(kind, _, inner)) => Some(Part::Node(kind, inner)),
    }
}

/// The text of the only part, where there is one, a token.
pub(crate) fn only_text<'a>(parts: Parts<'a>) -> Option<&'a [u8]>
    ensures { text_option result ≡ text_alone (forest_in parts.entry) }
{
    let mut left = parts;
    match next(&mut left) {
        None => None,
        Some(Part::Node(_, _)) => None,
        Some(Part::Leaf(text)) => match next(&mut left) {
            None => Some(text),
            Some(Part::Leaf(_)) => None,
            Some(Part::Node(_, _)) => None,
        },
    }
}

/// The only part, where there is one, a node.
pub(crate) fn only_node<'a>(parts: Parts<'a>) -> Option<(NodeKind, Parts<'a>)>
    ensures { IsOnly result (forest_in parts.entry) }
{
    let mut left = parts;
    match next(&mut left) {
        None => None,
        Some(Part::Leaf(_)) => None,
        Some(Part::Node(kind, inner)) => match next(&mut left) {
            None => Some((kind, inner)),
            Some(Part::Leaf(_)) => None,
            Some(Part::Node(_, _)) => None,
        },
    }
}
