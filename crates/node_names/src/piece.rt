// Parts of a node, as names are read from them.
use php_tree::TokenKind;
use span_edits::Bytes;

/// A part of a node: a word by its kind and text, where a name is one word, or a child node.
#[derive(Debug, Drop)]
pub enum Piece {
    Word(TokenKind, Bytes),
    Child,
}
