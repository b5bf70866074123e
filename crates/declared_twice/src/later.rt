// Later places with an equal key.
ghost use Rattle.std.specs.Prelude.{◌≡◌, ◌<◌, Some, length, slice_get, slice_set, IfOk};
ghost use Rattle.declared_twice.specs.Later.{AreLater};

use std::alloc::{AllocError, Global};
use std::collections::BTreeMap;

/// What stands at a place.
pub(crate) fn value_at<T: Copy>(values: &[T], place: usize) -> T
    requires { place < length values.now }
    ensures { slice_get values.now place ≡ Some result }
{
    values[place]
}

// Another value at a place.
fn put_at<T: Drop>(values: &mut Vec<T>, place: usize, value: T)
    requires { place < length values.old.items }
    ensures { values.new.items ≡ slice_set values.old.items place value }
{
    values[place] = value;
}

/// For each place with a key the next place with an equal one, if there is one. Each key is looked up once, from the
/// last to the first.
pub(crate) fn later_same<K: Ord + Copy>(
    alloc: Global,
    keys: &[Option<K>],
) -> Result<Vec<Option<usize>>, AllocError>
    ensures { IfOk result (λ ns. AreLater K.cmp keys.now ns.items) }
{
    let mut first = BTreeMap::new(alloc);
    let mut later = vec![in alloc; None; keys.len()]?;
    for place in (0..keys.len()).rev() {
        let key = match value_at(keys, place) {
            Some(key) => key,
            None => continue,
        };
        let next = first.insert(key, place)?;
        put_at(&mut later, place, next);
    }
    Ok(later)
}
