// Operations on sets of numbers, as strictly ascending slices.
ghost use Rattle.std.specs.Prelude.{◌≡◌, ◌==◌, ◌↔◌, IfOk, IsTrue};
ghost use Rattle.std.specs.List.{list_any};
ghost use Rattle.std.specs.List.Sorted.{IsStrictlyIncreasing};
ghost use Rattle.scalar_types.specs.Sets.{IsSubset, union, intersection};

use std::alloc::{AllocError, Global};

// Whether a number is among these.
fn has(numbers: &[u32], x: u32) -> bool
    requires { IsStrictlyIncreasing numbers.now }
    ensures { result ≡ list_any (λ y. x == y) numbers.now }
{
    numbers.binary_search(&x).is_ok()
}

// Whether each of the first numbers is among the second.
pub(crate) fn is_subset(xs: &[u32], ys: &[u32]) -> bool
    requires { IsStrictlyIncreasing ys.now }
    ensures { IsTrue result ↔ IsSubset xs.now ys.now }
{
    xs.iter().all(|x| has(ys, *x))
}

// The numbers that stand in either.
pub(crate) fn joined_numbers(alloc: Global, xs: &[u32], ys: &[u32]) -> Result<Vec<u32>, AllocError>
    requires first { IsStrictlyIncreasing xs.now }
    requires second { IsStrictlyIncreasing ys.now }
    ensures value { IfOk result (λ v. v.items ≡ union xs.now ys.now) }
    ensures ascending { IfOk result (λ v. IsStrictlyIncreasing v.items) }
{
    let mut all = Vec::from_slice(alloc, xs)?;
    all.extend_from_slice(ys)?;
    all.sort_unstable();
    all.dedup();
    Ok(all)
}

// The numbers that stand in both.
pub(crate) fn common_numbers(alloc: Global, xs: &[u32], ys: &[u32]) -> Result<Vec<u32>, AllocError>
    requires first { IsStrictlyIncreasing xs.now }
    requires second { IsStrictlyIncreasing ys.now }
    ensures value { IfOk result (λ v. v.items ≡ intersection xs.now ys.now) }
    ensures ascending { IfOk result (λ v. IsStrictlyIncreasing v.items) }
{
    xs.iter().copied().filter(|x| has(ys, *x)).collect(alloc)
}
