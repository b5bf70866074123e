// A `.` that 8.3 would take apart gets parentheses.
//
// Before: 1 . 2 + 3
// After:  (1 . 2) + 3
ghost use Rattle.std.specs.Prelude.{◌≡◌};
ghost use Rattle.php_rows.specs.Reading.{forest_in};
ghost use Rattle.syntax_rules.specs.Around.{operator_of as operator_in};
ghost use Rattle.syntax_rules.specs.DotPrecedence.{is_binary as binary, is_dot as dot, is_regrouped as regrouped, is_shift as shift, is_sum as sum};
ghost use Rattle.syntax_rules.specs.InContext.{around_of};

use crate::casts::first_text;
use crate::next::{first_node, others};
use php_rows::Parts;
use php_tree::NodeKind;

/// The text of the token behind a first node, if any.
#[tactic(auto, using(crate::proofs::PartLemmas::operator_is))]
pub(crate) fn operator_of<'a>(parts: Parts<'a>) -> &'a [u8]
    ensures { result.now ≡ operator_in (forest_in parts.entry) }
{
    match first_node(parts) {
        Some(_) => first_text(others(parts)),
        None => &[],
    }
}

fn is_binary(kind: NodeKind) -> bool
    ensures { result ≡ binary kind }
{
    matches!(kind, NodeKind::Binary)
}

fn is_sum(operator: &[u8]) -> bool
    ensures { result ≡ sum operator.now }
{
    operator == b"+".as_slice() || operator == b"-".as_slice()
}

fn is_shift(operator: &[u8]) -> bool
    ensures { result ≡ shift operator.now }
{
    operator == b"<<".as_slice() || operator == b">>".as_slice()
}

fn is_dot(kind: NodeKind, parts: Parts) -> bool
    ensures { result ≡ dot (kind, forest_in parts.entry) }
{
    is_binary(kind) && operator_of(parts) == b".".as_slice()
}

/// Whether a node is put in parentheses in a node of a kind with an operator, as its first part or not.
pub(crate) fn is_regrouped(
    outer: Option<NodeKind>,
    operator: &[u8],
    is_first: bool,
    kind: NodeKind,
    parts: Parts,
) -> bool
    ensures { result ≡ regrouped (around_of outer operator.now is_first) (kind, forest_in parts.entry) }
{
    match outer {
        Some(outer) => {
            is_dot(kind, parts)
                && is_binary(outer)
                && (is_shift(operator) || (is_sum(operator) && is_first))
        }
        None => false,
    }
}
