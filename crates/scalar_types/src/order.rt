// The order of types.
ghost use Rattle.std.specs.Prelude.{◌≡◌, ◌↔◌, true, IsTrue};
ghost use Rattle.scalar_types.specs.Terms.{term, facts_of};
ghost use Rattle.scalar_types.specs.Order.{Below, BitsAmong, FactsAmong};
ghost use Rattle.scalar_types.specs.Sets.{IsSubset};

use crate::php_type::{Parts, PhpType};
use crate::sets::is_subset;

/// Whether the first type is below the second: each value that the first admits, the second admits
/// too. Takes no memory.
pub fn below(a: &PhpType, b: &PhpType) -> bool
    ensures { IsTrue result ↔ Below (term a.now) (term b.now) }
{
    match (a, b) {
        (_, PhpType::Any) => true,
        (PhpType::Any, PhpType::Known(_)) => false,
        (PhpType::Known(p), PhpType::Known(q)) => match (&p.element, &q.element) {
            (None, None) => facts_among(p, q) && labels_among(p, q),
            (None, Some(e)) => facts_among(p, q) && (e.is_any() || labels_among(p, q)),
            (Some(_), None) => false,
            (Some(d), Some(e)) => {
                facts_among(p, q) && (e.is_any() || labels_among(p, q)) && below(d, e)
            }
        },
    }
}

// Whether the first's bits, flags and classes are among the second's.
fn facts_among(p: &Parts, q: &Parts) -> bool
    ensures { IsTrue result ↔ FactsAmong (facts_of p.now) (facts_of q.now) }
{
    bits_among(p.bits, q.bits)
        && implies(p.neg, q.neg)
        && implies(p.text_keys, q.text_keys)
        && classes_among(p, q)
}

// Whether each bit of the first is set in the second.
fn bits_among(a: u16, b: u16) -> bool
    ensures { IsTrue result ↔ BitsAmong a b }
{
    a & b == a
}

// Whether the second flag is set where the first is.
fn implies(a: bool, b: bool) -> bool
    ensures { IsTrue result ↔ (a ≡ true → b ≡ true) }
{
    !a || b
}

// Whether the first's classes are among the second's.
fn classes_among(p: &Parts, q: &Parts) -> bool
    ensures { IsTrue result ↔ IsSubset p.now.classes q.now.classes }
{
    is_subset(p.classes.as_slice(), q.classes.as_slice())
}

// Whether the first's labels are among the second's.
fn labels_among(p: &Parts, q: &Parts) -> bool
    ensures { IsTrue result ↔ IsSubset p.now.shared q.now.shared }
{
    is_subset(p.shared.as_slice(), q.shared.as_slice())
}
