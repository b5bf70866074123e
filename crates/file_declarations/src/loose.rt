// Parts of a node, before its names are joined.
use php_tree::TokenKind;

/// A token by its kind and text, or a child node.
#[derive(Clone, Copy)]
pub(crate) enum Loose<'a> {
    Token(TokenKind, &'a [u8]),
    Child,
}
