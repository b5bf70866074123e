// The path of an include.
ghost use Rattle.std.specs.Prelude.{◌≡◌, ◌||◌, ◌==◌};
ghost use Rattle.php_tree.specs.Tree.{node, none};
ghost use Rattle.php_rows.specs.Reading.{forest_in};
ghost use Rattle.node_names.specs.Facts as spec;
ghost use Rattle.file_declarations.specs.Kinds.{is_binary_kind, is_constant_kind, is_text_kind};
ghost use Rattle.file_declarations.specs.Texts.{text_option};

use crate::next::{Part, next, only_node, only_text};
use node_names::is_keyword;
use php_rows::Parts;
use php_tree::NodeKind;

fn is_quote(byte: u8) -> bool
    ensures { result ≡ (byte == 39 || byte == 34) }
{
    byte == b'\'' || byte == b'"'
}

fn has_backslash(text: &[u8]) -> bool
    ensures { result ≡ spec.has_byte 92 text.now }
{
    let mut left = text;
    while let [byte, behind @ ..] = left {
        if *byte == b'\\' {
            return true;
        }
        left = behind;
    }
    false
}

#[tactic(auto, using(crate::proofs::IncludeLemmas::but_last_is))]
fn but_last(text: &[u8]) -> &[u8]
    ensures { result.now ≡ spec.but_last text.now }
{
    match text {
        [] => text,
        [before @ .., _] => before,
    }
}

// The bytes that a text in quotes without a backslash stands for.
fn plain_text(text: &[u8]) -> Option<&[u8]>
    ensures { text_option result ≡ spec.plain_text text.now }
{
    match text {
        [] => None,
        [quote, behind @ ..] => {
            if is_quote(*quote) && !has_backslash(behind) {
                Some(but_last(behind))
            } else {
                None
            }
        }
    }
}

fn is_text(kind: NodeKind) -> bool
    ensures { result ≡ is_text_kind kind }
{
    matches!(kind, NodeKind::Text)
}

fn is_binary(kind: NodeKind) -> bool
    ensures { result ≡ is_binary_kind kind }
{
    matches!(kind, NodeKind::Binary)
}

fn is_constant(kind: NodeKind) -> bool
    ensures { result ≡ is_constant_kind kind }
{
    matches!(kind, NodeKind::Constant)
}

// The text of a node that is a literal.
#[tactic(auto, using(crate::proofs::IncludeLemmas::literal_node))]
fn literal_in<'a>(kind: NodeKind, inner: Parts<'a>) -> Option<&'a [u8]>
    ensures { text_option result ≡ spec.literal (node kind (forest_in inner.entry) none) }
{
    if !is_text(kind) {
        return None;
    }
    match only_text(inner) {
        None => None,
        Some(text) => plain_text(text),
    }
}

// The text of a literal.
fn literal<'a>(parts: Parts<'a>) -> Option<&'a [u8]>
    ensures { text_option result ≡ spec.literal (forest_in parts.entry) }
{
    match only_node(parts) {
        None => None,
        Some((kind, inner)) => literal_in(kind, inner),
    }
}

// Whether a node is the constant of the file's folder.
fn is_folder(kind: NodeKind, parts: Parts) -> bool
    ensures { result ≡ spec.is_folder kind (forest_in parts.entry) }
{
    if !is_constant(kind) {
        return false;
    }
    match only_text(parts) {
        None => false,
        Some(text) => is_keyword(b"__dir__", text),
    }
}

fn behind_slash(path: Option<&[u8]>) -> Option<&[u8]>
    ensures { text_option result ≡ spec.behind_slash (text_option path.entry) }
{
    match path {
        None => None,
        Some(text) => match text {
            [] => None,
            [byte, behind @ ..] => { if *byte == b'/' { Some(behind) } else { None } }
        },
    }
}

fn no_root(path: Option<&[u8]>) -> Option<&[u8]>
    ensures { text_option result ≡ spec.no_root (text_option path.entry) }
{
    match path {
        None => None,
        Some(text) => match text {
            [] => None,
            [byte, ..] => { if *byte == b'/' { None } else { Some(text) } }
        },
    }
}

// A folder's constant, a dot and a text.
fn folder_and_text<'a>(parts: Parts<'a>) -> Option<&'a [u8]>
    ensures { text_option result ≡ spec.folder_and_text (forest_in parts.entry) }
{
    let mut left = parts;
    match next(&mut left) {
        None => None,
        Some(Part::Leaf(_)) => None,
        Some(Part::Node(kind, inner)) => match next(&mut left) {
            None => None,
            Some(Part::Node(_, _)) => None,
            Some(Part::Leaf(text)) => {
                if is_folder(kind, inner) && text == b".".as_slice() {
                    behind_slash(literal(left))
                } else {
                    None
                }
            }
        },
    }
}

// The path of a node alone.
#[tactic(auto, using(crate::proofs::IncludeLemmas::path_one, crate::proofs::IncludeLemmas::path_two_parts))]
fn path_of<'a>(kind: NodeKind, inner: Parts<'a>) -> Option<&'a [u8]>
    ensures { text_option result ≡ spec.path_in (node kind (forest_in inner.entry) none) }
{
    if is_binary(kind) {
        return folder_and_text(inner);
    }
    no_root(literal_in(kind, inner))
}

#[tactic(auto, using(crate::proofs::IncludeLemmas::path_none))]
fn path_in<'a>(parts: Parts<'a>) -> Option<&'a [u8]>
    ensures { text_option result ≡ spec.path_in (forest_in parts.entry) }
{
    match only_node(parts) {
        None => no_root(literal(parts)),
        Some((kind, inner)) => path_of(kind, inner),
    }
}

/// The path of an include's parts, from the folder of its file, where it can be told.
pub(crate) fn include_path<'a>(parts: Parts<'a>) -> Option<&'a [u8]>
    ensures { text_option result ≡ spec.include_path (forest_in parts.entry) }
{
    let mut left = parts;
    match next(&mut left) {
        None => None,
        Some(Part::Leaf(_)) => path_in(left),
        Some(Part::Node(_, _)) => None,
    }
}
