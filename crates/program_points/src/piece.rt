// Parts of a node, as evaluation meets them.
use php_rows::Parts;
use php_tree::NodeKind;

/// A word, an expression or a statement by its number, or another node by its kind, its number and its parts.
#[derive(Clone, Copy)]
pub(crate) enum Piece<'a> {
    Word(&'a [u8]),
    Expr(u32),
    Stmt(u32),
    Other(NodeKind, u32, Parts<'a>),
}

/// Which pieces are meant: the expressions, the statements, or both.
#[derive(Clone, Copy)]
pub(crate) enum Which {
    Exprs,
    Stmts,
    Steps,
}
