// Whether files may be sources: their paths ascend and end in `.php`.
ghost use Rattle.std.specs.Bool.{OnTrue};
ghost use Rattle.io_ports.specs.Files.{ArePhp, IsSources, IsTree};

use io_ports::{Bytes, PathText};
use std::cmp::Ordering;

// Whether each path is below the next.
fn is_tree(files: &[(PathText, Bytes)]) -> bool
    ensures { OnTrue result (IsTree files.now) }
{
    let Some((first, rest)) = files.split_first() else {
        return true;
    };
    let Some((second, _)) = rest.split_first() else {
        return true;
    };
    match first.0.as_str().cmp(second.0.as_str()) {
        Ordering::Less => is_tree(rest),
        Ordering::Equal | Ordering::Greater => false,
    }
}

// Whether each path ends in `.php`.
fn are_php(files: &[(PathText, Bytes)]) -> bool
    ensures { OnTrue result (ArePhp files.now) }
{
    match files.split_first() {
        None => true,
        Some((first, rest)) => first.0.as_str().as_bytes().ends_with(b".php") && are_php(rest),
    }
}

/// Whether these may be sources.
pub fn are_sources(files: &[(PathText, Bytes)]) -> bool
    ensures { OnTrue result (IsSources files.now) }
{
    is_tree(files) && are_php(files)
}
