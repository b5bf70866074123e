// The rules and forms on syntax that report nodes, in order: one line each.
ghost use Rattle.std.specs.Prelude.{◌≡◌, ◌++◌, map, OnOk};
ghost use Rattle.php_tree.specs.Places.{end_of};
ghost use Rattle.php_rows.specs.Reading.{forest_in};
ghost use Rattle.syntax_upgrade.specs.Found.{found_of};
ghost use Rattle.syntax_upgrade.specs.NodeRule as spec;
ghost use Rattle.syntax_upgrade.specs.Reports.{at_node};
ghost use Rattle.syntax_upgrade.specs.node_rules.{node_rules};
ghost use Rattle.syntax_upgrade.specs.Words.{seen};

mod nullsafe_text;
mod traits;

macro_rules! each_rule {
    ($ask:ident) => {{
        $ask!(crate::unset_cast::UndecidedCasts);
        $ask!(nullsafe_text::NullsafeTexts);
        $ask!(traits::Traits);
    }};
}

use crate::found::Found;
use crate::node_rule::{NodeRule, report_by};
use crate::word::Word;
use php_rows::Parts;
use php_tree::NodeKind;
use std::alloc::AllocError;

/// Puts the reports of a node, by one rule after another, which begins and ends at these places, behind others.
#[tactic(auto, using(crate::proofs::OffStarts::in_turn))]
pub(crate) fn add_at_node(
    kind: NodeKind,
    parts: Parts,
    at: u32,
    end: u32,
    out: &mut Vec<Found>,
) -> Result<(), AllocError>
    requires { end ≡ end_of at (forest_in parts) }
    ensures { OnOk result (map found_of out.new.items ≡ map found_of out.old.items ++ at_node at (kind, forest_in parts.entry)) }
{
    macro_rules! report {
        ($rule:path) => {
            report_by::<$rule>(kind, parts, at, end, out)?
        };
    }
    each_rule!(report);
    Ok(())
}

/// Whether a rule looks at nodes of a kind, whatever stands in them.
pub(crate) fn is_reported_kind(kind: NodeKind) -> bool
    ensures { result ≡ spec.is_reported_kind node_rules kind }
{
    macro_rules! look {
        ($rule:path) => {
            if !<$rule>::needs_token() && <$rule>::looks_at(kind) {
                return true;
            }
        };
    }
    each_rule!(look);
    false
}

/// Whether a rule looks for a token.
pub(crate) fn is_reported_token(token: Word) -> bool
    ensures { result ≡ spec.is_reported_token node_rules (seen token.entry) }
{
    macro_rules! look {
        ($rule:path) => {
            if <$rule>::looks_for(token) {
                return true;
            }
        };
    }
    each_rule!(look);
    false
}
