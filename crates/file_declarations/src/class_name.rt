// The full names of classes.
ghost use Rattle.std.specs.Prelude.{◌≡◌, ◌++◌, ◌∷◌, IfOk};
ghost use Rattle.scope_names.specs.Imports as sorts;
ghost use Rattle.scope_names.specs.Sites as spec;
ghost use Rattle.file_declarations.specs.Imported.{last_first, sort_of};
ghost use Rattle.file_declarations.specs.NamesSite.{names_site};
ghost use Rattle.file_declarations.specs.Texts.{text_option};

use crate::import::Import;
use crate::import_sort::ImportSort;
use crate::importing::as_alias;
use crate::words::split;
use node_names::{in_space, is_keyword};
use std::alloc::{AllocError, Global};

/// What names are read by: the namespace, and the imports, of which the last one comes first.
#[derive(Clone, Copy)]
pub struct Names<'a> {
    pub space: &'a [u8],
    pub imports: &'a [Import],
}

// Whether two sorts are one.
fn is_same(left: ImportSort, right: ImportSort) -> bool
    ensures { result ≡ spec.same_sort (sort_of left) (sort_of right) }
{
    match (left, right) {
        (ImportSort::Class, ImportSort::Class) => true,
        (ImportSort::Class, ImportSort::Function) => false,
        (ImportSort::Class, ImportSort::Constant) => false,
        (ImportSort::Function, ImportSort::Class) => false,
        (ImportSort::Function, ImportSort::Function) => true,
        (ImportSort::Function, ImportSort::Constant) => false,
        (ImportSort::Constant, ImportSort::Class) => false,
        (ImportSort::Constant, ImportSort::Function) => false,
        (ImportSort::Constant, ImportSort::Constant) => true,
    }
}

/// What an alias of a sort stands for; the last of several imports of one alias counts. The only error is want of memory.
#[tactic(auto, using(crate::proofs::ImportLemmas::last_first_take))]
pub fn alias_of<'a>(
    alloc: Global,
    imports: &'a [Import],
    sort: ImportSort,
    name: &[u8],
) -> Result<Option<&'a [u8]>, AllocError>
    ensures { IfOk result (λ o. text_option o ≡ spec.alias_of (last_first imports.now) (sort_of sort) name.now) }
{
    let alias = as_alias(alloc, sort, name)?;
    let mut left = imports.len();
    while left > 0 {
        left -= 1;
        let import = &imports[left];
        if is_same(import.sort, sort) && import.alias.as_slice() == alias.as_slice() {
            return Ok(Some(import.full.as_slice()));
        }
    }
    Ok(None)
}

// A name behind what its first part stands for.
fn behind(alloc: Global, full: &[u8], rest: &[u8]) -> Result<Vec<u8>, AllocError>
    ensures { IfOk result (λ v. v.items ≡ full.now ++ 92 ∷ rest.now) }
{
    let mut name = Vec::from_slice(alloc, full)?;
    name.push(b'\\')?;
    name.extend_from_slice(rest)?;
    Ok(name)
}

/// The full name of a name with several parts. The only error is want of memory.
pub fn qualified(
    alloc: Global,
    names: Names,
    first: &[u8],
    rest: &[u8],
    whole: &[u8],
) -> Result<Vec<u8>, AllocError>
    ensures { IfOk result (λ v. v.items ≡ spec.qualified (names_site names.entry) first.now rest.now whole.now) }
{
    if is_keyword(b"namespace", first) {
        return in_space(alloc, names.space, rest);
    }
    if first.is_empty() {
        return Vec::from_slice(alloc, rest);
    }
    match alias_of(alloc, names.imports, ImportSort::Class, first)? {
        None => in_space(alloc, names.space, whole),
        Some(full) => behind(alloc, full, rest),
    }
}

// The full name of a class by one word.
fn one_word(alloc: Global, names: Names, name: &[u8]) -> Result<Vec<u8>, AllocError>
    ensures { IfOk result (λ v. v.items ≡ spec.or_else (spec.alias_of (names_site names.entry).imports sorts.OfClass name.now) (spec.in_space (names_site names.entry).space name.now)) }
{
    match alias_of(alloc, names.imports, ImportSort::Class, name)? {
        None => in_space(alloc, names.space, name),
        Some(full) => Vec::from_slice(alloc, full),
    }
}

/// The full name of a class. The only error is want of memory.
pub fn class_named(alloc: Global, names: Names, name: &[u8]) -> Result<Vec<u8>, AllocError>
    ensures { IfOk result (λ v. v.items ≡ spec.class_named (names_site names.entry) name.now) }
{
    match split(name) {
        (_, None) => one_word(alloc, names, name),
        (first, Some(rest)) => qualified(alloc, names, first, rest, name),
    }
}
