// What a rule or a form that reports nodes is, and how a node is shown to it.
ghost use Rattle.std.specs.Prelude.{◌≡◌, ◌++◌, map, OnOk};
ghost use Rattle.php_rows.specs.Reading.{forest_in};
ghost use Rattle.php_tree.specs.Places.{end_of};
ghost use Rattle.syntax_upgrade.specs.Found.{found_of};
ghost use Rattle.syntax_upgrade.specs.NodeRule as spec;
ghost use Rattle.syntax_upgrade.specs.Words.{seen};

use crate::found::Found;
use crate::next::{Part, next};
use crate::word::Word;
use php_rows::Parts;
use php_tree::NodeKind;
use std::alloc::AllocError;

/// A rule or a form that reports nodes. What it looks at is asked first, so that a walk passes all other nodes as a whole.
pub(crate) trait NodeRule {
    ghost rule: { spec.NodeRule };

    /// Whether it looks at nodes of a kind.
    fn looks_at(kind: NodeKind) -> bool
        ensures { result ≡ rule.looks_at kind };

    /// Whether it says nothing of nodes without a token that it looks for.
    fn needs_token() -> bool
        ensures { result ≡ spec.needs_token rule.looks_for };

    /// Whether it looks for a token.
    fn looks_for(token: Word) -> bool
        ensures { result ≡ spec.is_sought rule.looks_for (seen token.entry) };

    /// Puts what it says of a node that it looks at, which begins and ends at these places, behind other reports.
    fn report(
        kind: NodeKind,
        parts: Parts,
        at: u32,
        end: u32,
        out: &mut Vec<Found>,
    ) -> Result<(), AllocError>
        requires { end ≡ end_of at (forest_in parts) }
        ensures { OnOk result (map found_of out.new.items ≡ map found_of out.old.items
            ++ rule.says at (kind, forest_in parts.entry)) };
}

// Whether one of these parts is a token that the rule looks for.
fn has_sought<R: NodeRule>(parts: Parts) -> bool
    ensures { result ≡ spec.has_sought R.rule.looks_for (forest_in parts.entry) }
{
    let mut left = parts;
    'parts: loop {
        match next(&mut left) {
            None => return false,
            Some(Part::Leaf(token)) => {
                if R::looks_for(token) {
                    return true;
                }
            }
            Some(Part::Node(_, _)) => {}
        }
    }
}

// Whether a node is one that the rule looks at.
fn is_looked_at<R: NodeRule>(kind: NodeKind, parts: Parts) -> bool
    ensures { result ≡ spec.is_looked_at R.rule (kind, forest_in parts.entry) }
{
    R::looks_at(kind) && (!R::needs_token() || has_sought::<R>(parts))
}

/// Puts what a rule reports of a node, which begins and ends at these places, behind other reports.
pub(crate) fn report_by<R: NodeRule>(
    kind: NodeKind,
    parts: Parts,
    at: u32,
    end: u32,
    out: &mut Vec<Found>,
) -> Result<(), AllocError>
    requires { end ≡ end_of at (forest_in parts) }
    ensures { OnOk result (map found_of out.new.items ≡ map found_of out.old.items
        ++ spec.reports_of R.rule at (kind, forest_in parts.entry)) }
{
    if !is_looked_at::<R>(kind, parts) {
        return Ok(());
    }
    R::report(kind, parts, at, end, out)
}
