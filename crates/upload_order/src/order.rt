// Files in the order of their paths.
ghost use Rattle.std.specs.Prelude.{◌≡◌, IfOk};
ghost use Rattle.std.specs.Bool.{OnFalse, OnTrue};
ghost use Rattle.std.specs.List.{list_all};
ghost use Rattle.std.specs.Cmp.Lexicographic.{slice_cmp};
ghost use Rattle.std.specs.List.Sorted.{IsPermutation};
ghost use Rattle.std.specs.Ordering.{nat_cmp};
ghost use Rattle.io_ports.specs.Files.{IsTree};
ghost use Rattle.upload_order.specs.Paths.{AreSorted, Ordered, Repeats, is_path};

use crate::paths::is_path;
use io_ports::PathText;
use std::alloc::AllocError;
use std::cmp::Ordering;

// The order of two texts by their bytes.
fn by_bytes(a: &PathText, b: &PathText) -> Ordering
    ensures { result ≡ slice_cmp nat_cmp a.now b.now }
{
    a.as_str().cmp(b.as_str())
}

// The files, sorted by their paths.
fn by_paths(files: Vec<(PathText, PathText)>) -> Result<Vec<(PathText, PathText)>, AllocError>
    ensures same { IfOk result (λ v. IsPermutation files.items v.items) }
    ensures sorted { IfOk result (λ v. AreSorted v.items) }
{
    let mut sorted = files;
    sorted.sort_by(|a, b| by_bytes(&a.0, &b.0))?;
    Ok(sorted)
}

// Whether each path is below the next, of sorted files; else one of them stands twice.
fn ascends(files: &[(PathText, PathText)]) -> bool
    requires { AreSorted files.now }
    ensures tree { OnTrue result (IsTree files.now) }
    ensures twice { OnFalse result (Repeats files.now) }
{
    let Some((first, rest)) = files.split_first() else {
        return true;
    };
    let Some((second, _)) = rest.split_first() else {
        return true;
    };
    match by_bytes(&first.0, &second.0) {
        Ordering::Less => ascends(rest),
        Ordering::Equal => false,
        Ordering::Greater => unreachable!(),
    }
}

// Whether each file has a path of PHP.
fn have_paths(files: &[(PathText, PathText)]) -> bool
    ensures { result ≡ list_all (λ f. is_path f.0) files.now }
{
    files.iter().all(|file| is_path(file.0.as_str()))
}

/// The files in byte order of their paths. None: a text is no path of a file of PHP, or a path
/// stands twice. The only error is want of memory.
pub fn in_path_order(
    files: Vec<(PathText, PathText)>,
) -> Result<Option<Vec<(PathText, PathText)>>, AllocError>
    ensures { IfOk result (Ordered files.items) }
{
    if !have_paths(files.as_slice()) {
        return Ok(None);
    }
    let sorted = by_paths(files)?;
    if !ascends(sorted.as_slice()) {
        return Ok(None);
    }
    Ok(Some(sorted))
}
