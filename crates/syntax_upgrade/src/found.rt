// What is reported.
ghost use Rattle.std.specs.Prelude.{◌≡◌, ◌≤◌, ◌+◌, ◌*◌, ◌^◌, ◌++◌, ◌∷◌, [], map, IfOk, OnOk};
ghost use Rattle.std.specs.List.Sorted.{IsNonDecreasingBy, IsPermutation};
ghost use Rattle.rule_tables.specs.Rules.{number_of, undecided_weight_of};
ghost use Rattle.syntax_upgrade.specs.Found.{found_of, off, order_of, outside, outside_parts};
ghost use Rattle.php_rows.specs.Reading.{forest_in};
ghost use Rattle.php_tree.specs.Places.{end_of};

use crate::start_of::start_of;
use php_rows::Parts;
use rule_tables::{Cause, RuleId, Span, Weight};
use std::alloc::AllocError;

/// A place that stays as it is, in bytes of the file: the number of its rule or its form, its cause and its weight.
#[derive(Clone, Copy, Debug, PartialEq, Eq)]
pub struct Found {
    pub span: Span,
    pub code: u16,
    pub cause: Cause,
    pub weight: Weight,
}

/// Puts an undecided place of a rule behind others.
pub(crate) fn add(
    start: u32,
    end: u32,
    rule: RuleId,
    cause: Cause,
    out: &mut Vec<Found>,
) -> Result<(), AllocError>
    requires { start ≤ end }
    ensures { OnOk result (map found_of out.new.items ≡ map found_of out.old.items
        ++ record { start = start; end = end; code = number_of rule; cause = cause; weight = undecided_weight_of rule } ∷ []) }
{
    out.push(Found {
        span: Span { start, end },
        code: rule.number(),
        cause,
        weight: rule.undecided_weight(),
    })?;
    Ok(())
}

/// Puts a place of a rule that is off behind others.
pub(crate) fn add_off(
    start: u32,
    end: u32,
    rule: RuleId,
    out: &mut Vec<Found>,
) -> Result<(), AllocError>
    requires { start ≤ end }
    ensures { OnOk result (map found_of out.new.items ≡ map found_of out.old.items ++ off rule start end ∷ []) }
{
    out.push(Found {
        span: Span { start, end },
        code: rule.number(),
        cause: Cause::Off,
        weight: rule.weight(),
    })?;
    Ok(())
}

/// Puts a form, by its number, of which nothing is claimed behind others.
pub(crate) fn add_outside(
    start: u32,
    end: u32,
    form: u16,
    out: &mut Vec<Found>,
) -> Result<(), AllocError>
    requires { start ≤ end }
    ensures { OnOk result (map found_of out.new.items ≡ map found_of out.old.items ++ outside form start end ∷ []) }
{
    out.push(Found {
        span: Span { start, end },
        code: form,
        cause: Cause::Always,
        weight: Weight::Compile,
    })?;
    Ok(())
}

/// The same of a form whose place is a node with these parts, which begins and ends at these places.
pub(crate) fn add_outside_parts(
    parts: Parts,
    at: u32,
    end: u32,
    form: u16,
    out: &mut Vec<Found>,
) -> Result<(), AllocError>
    requires { end ≡ end_of at (forest_in parts) }
    ensures { OnOk result (map found_of out.new.items ≡ map found_of out.old.items
        ++ outside_parts form at (forest_in parts.entry)) }
{
    let start = start_of(parts, at)?.unwrap_or(at);
    add_outside(start, end, form, out)
}

// A number by which places are in order of start, then end, then code.
fn order(place: &Found) -> u128
    ensures { result ≡ order_of place.now }
{
    place.span.start as u128 * 4_294_967_296 * 65_536
        + place.span.end as u128 * 65_536
        + place.code as u128
}

/// The places in order of start, then end, then code.
pub(crate) fn in_order(places: Vec<Found>) -> Result<Vec<Found>, AllocError>
    ensures same { IfOk result (λ v. IsPermutation places.items v.items) }
    ensures ordered { IfOk result (λ v. IsNonDecreasingBy order_of v.items) }
{
    let mut sorted = places;
    sorted.sort_by_key(|place| order(place))?;
    Ok(sorted)
}
