// Traits and uses of traits. Nothing is claimed of a file that has one, so each is reported.
ghost use Rattle.std.specs.Prelude.{◌≡◌, ◌++◌, map, OnOk};
ghost use Rattle.php_rows.specs.Reading.{forest_in};
ghost use Rattle.syntax_upgrade.specs.Found.{found_of};
ghost use Rattle.syntax_upgrade.specs.node_rules.Traits as spec;

use crate::found::{Found, add_outside, add_outside_parts};
use crate::next::{first_word, others};
use crate::node_rule::NodeRule;
use crate::past::{past_bytes, past_token};
use crate::word::Word;
use php_rows::Parts;
use php_tree::NodeKind;
use std::alloc::AllocError;

/// The number of traits among the forms outside the profile.
const NUMBER: u16 = 110;

fn is_trait(kind: NodeKind) -> bool
    ensures { result ≡ spec.is_trait kind }
{
    matches!(kind, NodeKind::Trait)
}

fn is_use(kind: NodeKind) -> bool
    ensures { result ≡ spec.is_use kind }
{
    matches!(kind, NodeKind::TraitUse)
}

// Puts the name that a trait with these parts declares behind other places.
fn report_name(parts: Parts, at: u32, out: &mut Vec<Found>) -> Result<(), AllocError>
    ensures { OnOk result (map found_of out.new.items ≡ map found_of out.old.items
        ++ spec.name_reports at (forest_in parts.entry)) }
{
    match (first_word(parts), first_word(others(parts))) {
        (Some(word), Some(name)) => {
            let behind = past_token(at, word)?;
            let start = past_bytes(behind, name.lead)?;
            let end = past_bytes(start, name.text)?;
            add_outside(start, end, NUMBER, out)
        }
        (Some(_), None) => Ok(()),
        (None, _) => Ok(()),
    }
}

/// Traits and uses of traits.
pub(crate) struct Traits;

impl NodeRule for Traits {
    ghost rule = { spec.traits };

    fn looks_at(kind: NodeKind) -> bool {
        is_trait(kind) || is_use(kind)
    }

    fn needs_token() -> bool {
        false
    }

    fn looks_for(_token: Word) -> bool {
        false
    }

    fn report(
        kind: NodeKind,
        parts: Parts,
        at: u32,
        end: u32,
        out: &mut Vec<Found>,
    ) -> Result<(), AllocError> {
        if is_trait(kind) {
            return report_name(parts, at, out);
        }
        add_outside_parts(parts, at, end, NUMBER, out)
    }
}
