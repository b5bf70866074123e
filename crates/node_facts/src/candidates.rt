// The full names of functions and constants.
ghost use Rattle.std.specs.Prelude.{◌≡◌, ◌∷◌, [], IfOk};
ghost use Rattle.scope_names.specs.Sites as sites;
ghost use Rattle.file_declarations.specs.Imported.{sort_of};
ghost use Rattle.file_declarations.specs.NamesSite.{names_site};

use file_declarations::{ImportSort, Names, alias_of, qualified, split};
use node_names::in_space;
use span_edits::Bytes;
use std::alloc::{AllocError, Global};

// One text alone.
fn one(alloc: Global, text: Vec<u8>) -> Result<Vec<Bytes>, AllocError>
    ensures { IfOk result (λ v. v.items ≡ text.items ∷ []) }
{
    let mut texts = Vec::new(alloc);
    texts.push(Bytes::new(text))?;
    Ok(texts)
}

// A name in the current namespace and in none.
fn here_and_global(alloc: Global, space: &[u8], name: &[u8]) -> Result<Vec<Bytes>, AllocError>
    ensures { IfOk result (λ v. v.items ≡ sites.here_and_global space.now name.now) }
{
    let global = Vec::from_slice(alloc, name)?;
    if space.is_empty() {
        return one(alloc, global);
    }
    let mut texts = one(alloc, in_space(alloc, space, name)?)?;
    texts.push(Bytes::new(global))?;
    Ok(texts)
}

// The full names of a name without a backslash in it.
fn unqualified(
    alloc: Global,
    names: Names,
    sort: ImportSort,
    name: &[u8],
) -> Result<Vec<Bytes>, AllocError>
    ensures { IfOk result (λ v. v.items ≡ sites.unqualified (names_site names.entry) (sort_of sort) name.now) }
{
    match alias_of(alloc, names.imports, sort, name)? {
        None => here_and_global(alloc, names.space, name),
        Some(full) => one(alloc, Vec::from_slice(alloc, full)?),
    }
}

/// The full names that a name of a function or constant may stand for. The only error is want of memory.
pub(crate) fn candidates(
    alloc: Global,
    names: Names,
    sort: ImportSort,
    name: &[u8],
) -> Result<Vec<Bytes>, AllocError>
    ensures { IfOk result (λ v. v.items ≡ sites.candidates (names_site names.entry) (sort_of sort) name.now) }
{
    match split(name) {
        (_, None) => unqualified(alloc, names, sort, name),
        (first, Some(rest)) => one(alloc, qualified(alloc, names, first, rest, name)?),
    }
}
