// Names as they are compared.
ghost use Rattle.std.specs.Prelude.{◌≡◌, ◌≤◌, ◌++◌, IfOk, drop, length, map, take};
ghost use Rattle.std.specs.Str.{str_to_ascii_lowercase};
ghost use Rattle.scope_names.specs.Sites.{in_space as name_in_space};
ghost use Rattle.node_names.specs.Compared as spec;
ghost use Rattle.node_names.specs.Seen.{texts_of};

use crate::name::Name;
use crate::name_sort::NameSort;
use span_edits::Bytes;
use std::alloc::{AllocError, Global};

// The bytes in lower case.
fn lower(alloc: Global, text: &[u8]) -> Result<Vec<u8>, AllocError>
    ensures { IfOk result (λ v. v.items ≡ str_to_ascii_lowercase text.now) }
{
    text.iter().map(|b| b.to_ascii_lowercase()).collect(alloc)
}

// Where what stands behind the last backslash begins.
#[tactic(auto, using(crate::proofs::ComparedLemmas::lower_up_to, crate::proofs::ComparedLemmas::lower_at_front))]
fn space_end(text: &[u8]) -> usize
    ensures within { result ≤ length text.now }
    ensures parts { spec.lower_space text.now ≡ str_to_ascii_lowercase (take result text.now) ++ drop result text.now }
{
    let mut at = text.len();
    while at > 0 {
        if text[at - 1] == b'\\' {
            return at;
        }
        at -= 1;
    }
    0
}

// Up to the last backslash in lower case.
fn lower_space(alloc: Global, text: &[u8]) -> Result<Vec<u8>, AllocError>
    ensures { IfOk result (λ v. v.items ≡ spec.lower_space text.now) }
{
    let (space, last) = text.split_at(space_end(text));
    let mut name = lower(alloc, space)?;
    name.extend_from_slice(last)?;
    Ok(name)
}

/// A full name as it is compared. The only error is want of memory.
pub fn compared(alloc: Global, sort: NameSort, full: &[u8]) -> Result<Vec<u8>, AllocError>
    ensures { IfOk result (λ v. v.items ≡ spec.compared sort full.now) }
{
    match sort {
        NameSort::Function | NameSort::Class | NameSort::Method => lower(alloc, full),
        NameSort::Constant => lower_space(alloc, full),
        NameSort::ClassConstant | NameSort::Property => Vec::from_slice(alloc, full),
    }
}

/// A name of a sort, as it is compared. The only error is want of memory.
pub fn named(alloc: Global, sort: NameSort, full: &[u8]) -> Result<Name, AllocError>
    ensures { IfOk result (λ n. n ≡ spec.name sort full.now) }
{
    let text = Bytes::new(compared(alloc, sort, full)?);
    Ok(Name { sort, text })
}

/// A name in a namespace, in full. The only error is want of memory.
pub fn in_space(alloc: Global, space: &[u8], name: &[u8]) -> Result<Vec<u8>, AllocError>
    ensures { IfOk result (λ v. v.items ≡ name_in_space space.now name.now) }
{
    match space {
        [] => Vec::from_slice(alloc, name),
        [_, ..] => {
            let mut full = Vec::from_slice(alloc, space)?;
            full.push(b'\\')?;
            full.extend_from_slice(name)?;
            Ok(full)
        }
    }
}

/// Names of a sort that are members' names, as they are compared. The only error is want of memory.
pub fn member_names(alloc: Global, sort: NameSort, words: &[&[u8]]) -> Result<Vec<Name>, AllocError>
    ensures { IfOk result (λ ns. ns.items ≡ spec.names_of sort (texts_of words.now)) }
{
    let mut names = Vec::new(alloc);
    for word in words {
        names.push(named(alloc, sort, word)?)?;
    }
    Ok(names)
}

/// Names of a sort in a namespace, as they are compared. The only error is want of memory.
pub fn space_names(
    alloc: Global,
    sort: NameSort,
    space: &[u8],
    words: &[&[u8]],
) -> Result<Vec<Name>, AllocError>
    ensures { IfOk result (λ ns. ns.items ≡ spec.names_of sort (map (name_in_space space.now) (texts_of words.now))) }
{
    let mut names = Vec::new(alloc);
    for word in words {
        let full = in_space(alloc, space, word)?;
        names.push(named(alloc, sort, full.as_slice())?)?;
    }
    Ok(names)
}
