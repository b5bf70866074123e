// Joins of types.
ghost use Rattle.std.specs.Prelude.{◌≡◌, IfOk};
ghost use Rattle.std.specs.List.Sorted.{IsStrictlyIncreasing};
ghost use Rattle.scalar_types.specs.Sets.{union};
ghost use Rattle.scalar_types.specs.Terms.{plain, term, facts_of};
ghost use Rattle.scalar_types.specs.Join.{join_of, joined_facts, joined_array, labels_beside};

use crate::labels::{Classes, Labels};
use crate::php_type::{Parts, PhpType};
use crate::sets::joined_numbers;
use std::alloc::{AllocError, Global};

/// The join of two types: the least type that is above both. The only error is want of memory.
pub fn join(alloc: Global, a: &PhpType, b: &PhpType) -> Result<PhpType, AllocError>
    ensures { IfOk result (λ t. term t ≡ join_of (term a.now) (term b.now)) }
{
    match (a, b) {
        (PhpType::Any, _) => Ok(PhpType::Any),
        (PhpType::Known(_), PhpType::Any) => Ok(PhpType::Any),
        (PhpType::Known(p), PhpType::Known(q)) => match (&p.element, &q.element) {
            (None, None) => join_plain(alloc, p, q),
            (None, Some(e)) => join_array(alloc, p, q, e.copy(alloc)?),
            (Some(d), None) => join_array(alloc, p, q, d.copy(alloc)?),
            (Some(d), Some(e)) => join_array(alloc, p, q, join(alloc, d, e)?),
        },
    }
}

// The join of two known types without an element.
fn join_plain(alloc: Global, p: &Parts, q: &Parts) -> Result<PhpType, AllocError>
    ensures { let f = facts_of p.now in let g = facts_of q.now in
        IfOk result (λ t. term t ≡ plain (joined_facts f g (union f.shared g.shared))) }
{
    let shared = joined_numbers(alloc, p.shared.as_slice(), q.shared.as_slice())?;
    let classes = joined_numbers(alloc, p.classes.as_slice(), q.classes.as_slice())?;
    Ok(PhpType::Known(Parts {
        bits: p.bits | q.bits,
        element: None,
        neg: p.neg | q.neg,
        text_keys: p.text_keys | q.text_keys,
        shared: Labels::of(shared),
        classes: Classes::of(classes),
    }))
}

// The join of two known types, whose elements join to this one. No label joins the element Any.
fn join_array(alloc: Global, p: &Parts, q: &Parts, element: PhpType) -> Result<PhpType, AllocError>
    ensures { IfOk result (λ t. term t ≡ joined_array (facts_of p.now) (facts_of q.now) (term element)) }
{
    let shared = labels_at(alloc, &element, p, q)?;
    let classes = joined_numbers(alloc, p.classes.as_slice(), q.classes.as_slice())?;
    Ok(PhpType::Known(Parts {
        bits: p.bits | q.bits,
        element: Some(Box::new(alloc, element)?),
        neg: p.neg | q.neg,
        text_keys: p.text_keys | q.text_keys,
        shared: Labels::of(shared),
        classes: Classes::of(classes),
    }))
}

// The labels of either, but none beside the element Any.
fn labels_at(alloc: Global, element: &PhpType, p: &Parts, q: &Parts) -> Result<Vec<u32>, AllocError>
    ensures labels { let all = union p.now.shared q.now.shared in
        IfOk result (λ v. v.items ≡ labels_beside (term element.now) all) }
    ensures ascending { IfOk result (λ v. IsStrictlyIncreasing v.items) }
{
    match element {
        PhpType::Any => Ok(Vec::new(alloc)),
        PhpType::Known(_) => joined_numbers(alloc, p.shared.as_slice(), q.shared.as_slice()),
    }
}
