// Meets of types.
ghost use Rattle.std.specs.Prelude.{◌≡◌, [], IfOk};
ghost use Rattle.scalar_types.specs.Sets.{union};
ghost use Rattle.scalar_types.specs.Terms.{plain, array, term, facts_of};
ghost use Rattle.scalar_types.specs.Join.{meet_of, common_facts};

use crate::labels::{Classes, Labels};
use crate::php_type::{Parts, PhpType};
use crate::sets::{common_numbers, joined_numbers};
use std::alloc::{AllocError, Global};

/// The meet of two types, which admits what both admit: of Any with a type, that type; of two known
/// types, the bits, flags and classes that stand in both and, where both may be arrays, the meet of
/// their elements and the labels of either. The only error is want of memory.
pub fn meet(alloc: Global, a: &PhpType, b: &PhpType) -> Result<PhpType, AllocError>
    ensures { IfOk result (λ t. term t ≡ meet_of (term a.now) (term b.now)) }
{
    match (a, b) {
        (PhpType::Any, _) => b.copy(alloc),
        (PhpType::Known(_), PhpType::Any) => a.copy(alloc),
        (PhpType::Known(p), PhpType::Known(q)) => match (&p.element, &q.element) {
            (None, _) => meet_plain(alloc, p, q),
            (Some(_), None) => meet_plain(alloc, p, q),
            (Some(d), Some(e)) => meet_array(alloc, p, q, meet(alloc, d, e)?),
        },
    }
}

// The meet of two known types of which one is no array's.
fn meet_plain(alloc: Global, p: &Parts, q: &Parts) -> Result<PhpType, AllocError>
    ensures { IfOk result (λ t. term t ≡ plain (common_facts (facts_of p.now) (facts_of q.now) [])) }
{
    let classes = common_numbers(alloc, p.classes.as_slice(), q.classes.as_slice())?;
    Ok(PhpType::Known(Parts {
        bits: p.bits & q.bits,
        element: None,
        neg: p.neg & q.neg,
        text_keys: p.text_keys & q.text_keys,
        shared: Labels::of(Vec::new(alloc)),
        classes: Classes::of(classes),
    }))
}

// The meet of two known types, whose elements meet in this one.
fn meet_array(alloc: Global, p: &Parts, q: &Parts, element: PhpType) -> Result<PhpType, AllocError>
    ensures { let f = facts_of p.now in let g = facts_of q.now in
        IfOk result (λ t. term t ≡ array (common_facts f g (union f.shared g.shared)) (term element)) }
{
    let shared = joined_numbers(alloc, p.shared.as_slice(), q.shared.as_slice())?;
    let classes = common_numbers(alloc, p.classes.as_slice(), q.classes.as_slice())?;
    Ok(PhpType::Known(Parts {
        bits: p.bits & q.bits,
        element: Some(Box::new(alloc, element)?),
        neg: p.neg & q.neg,
        text_keys: p.text_keys & q.text_keys,
        shared: Labels::of(shared),
        classes: Classes::of(classes),
    }))
}
