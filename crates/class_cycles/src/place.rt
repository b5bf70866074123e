// The places of names among names that ascend.
ghost use Rattle.std.specs.Prelude.{◌≡◌, ◌<◌, [], length, slice_index_or, IfSome};
ghost use Rattle.std.specs.Ordering.{nat_cmp};
ghost use Rattle.std.specs.Cmp.Lexicographic.{slice_cmp};
ghost use Rattle.program_names.specs.Classes.{AreAscending, place_of};

use span_edits::Bytes;
use std::cmp::Ordering;

// How the name at a place compares with another.
fn compare_at(names: &[Bytes], place: usize, name: &[u8]) -> Ordering
    requires { place < length names.now }
    ensures { result ≡ slice_cmp nat_cmp (slice_index_or names.now place []) name.now }
{
    names[place].as_slice().cmp(&name)
}

/// Where a name stands among names that ascend, if it is there.
pub(crate) fn place(names: &[Bytes], name: &[u8]) -> Option<usize>
    requires { AreAscending names.now }
    ensures value { result ≡ place_of name.now names.now }
    ensures within { IfSome result (λ i. i < length names.now) }
{
    let mut low = 0;
    let mut high = names.len();
    while low < high {
        let middle = low + (high - low) / 2;
        match compare_at(names, middle, name) {
            Ordering::Less => low = middle + 1,
            Ordering::Equal => return Some(middle),
            Ordering::Greater => high = middle,
        }
    }
    None
}
