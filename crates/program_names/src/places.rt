// Files by their paths.
ghost use Rattle.std.specs.Prelude.{◌≡◌, ◌<◌, ◌^◌, ◌↔◌, ℕ, IsTrue, Some, length, slice_get};
ghost use Rattle.program_names.specs.Entries.{paths_of};
ghost use Rattle.program_names.specs.Files.{are_ascending};

use php_rows::RowTree;
use span_edits::PathText;
use std::cmp::Ordering;

// The number of the file with a path among some whose paths ascend.
pub(crate) fn place(files: &[(PathText, RowTree)], path: &[u8]) -> Option<u32>
    requires ascending { IsTrue (are_ascending files.now) }
    requires few { length files.now < 2 ^ 32 }
    ensures { (f : ℕ) → (slice_get (paths_of files.now) f ≡ Some path.now) ↔ (result ≡ Some f) }
{
    let mut low = 0;
    let mut high = files.len();
    while low < high {
        let middle = low + (high - low) / 2;
        match files[middle].0.as_str().as_bytes().cmp(path) {
            Ordering::Less => low = middle + 1,
            Ordering::Equal => return Some(middle as u32),
            Ordering::Greater => high = middle,
        }
    }
    None
}
