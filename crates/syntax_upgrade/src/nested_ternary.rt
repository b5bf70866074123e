// Nested ternaries get parentheses.
//
// Before: true ? 'a' : false ? 'b' : 'c'
// After:  (true ? 'a' : false) ? 'b' : 'c'
ghost use Rattle.std.specs.Prelude.{◌≡◌};
ghost use Rattle.syntax_rules.specs.NestedTernary.{nests as nests_within};
ghost use Rattle.syntax_rules.specs.InContext.{around_of, is_nested as is_nested_in};

use php_tree::NodeKind;

// Whether a ternary is the left part of another, and not both are `?:`.
fn nests(outer: NodeKind, inner: NodeKind) -> bool
    ensures { result ≡ nests_within outer inner }
{
    match (outer, inner) {
        (NodeKind::Ternary, NodeKind::Ternary) => true,
        (NodeKind::Ternary, NodeKind::ShortTernary) => true,
        (NodeKind::ShortTernary, NodeKind::Ternary) => true,
        _ => false,
    }
}

/// Whether a node of this kind is put in parentheses in a node of a kind, as its first part or not.
pub(crate) fn is_nested(
    outer: Option<NodeKind>,
    operator: &[u8],
    is_first: bool,
    kind: NodeKind,
) -> bool
    ensures { result ≡ is_nested_in (around_of outer operator.now is_first) kind }
{
    let _operator = operator;
    match outer {
        Some(outer) => is_first && nests(outer, kind),
        None => false,
    }
}
