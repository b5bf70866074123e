// What a `use` imports.
ghost use Rattle.std.specs.Prelude.{◌≡◌, ◌++◌, ◌∷◌, [], map, IfOk, OnOk};
ghost use Rattle.node_names.specs.Seen.{texts_of};
ghost use Rattle.scope_names.specs.Imports as spec;
ghost use Rattle.scope_names.specs.Words.{between_ends};
ghost use Rattle.file_declarations.specs.Imported.{import_of, sort_of};

use crate::import::Import;
use crate::import_sort::ImportSort;
use crate::words::{drop_first, first_word, has_word, is_end, last_part, without_root};
use node_names::is_keyword;
use span_edits::Bytes;
use std::alloc::{AllocError, Global};

/// An alias as it is compared. The only error is want of memory.
pub(crate) fn as_alias(alloc: Global, sort: ImportSort, alias: &[u8]) -> Result<Vec<u8>, AllocError>
    ensures { IfOk result (λ v. v.items ≡ spec.as_alias (sort_of sort) alias.now) }
{
    match sort {
        ImportSort::Class | ImportSort::Function => {
            alias.iter().map(|b| b.to_ascii_lowercase()).collect(alloc)
        }
        ImportSort::Constant => Vec::from_slice(alloc, alias),
    }
}

// The import of a full name, in two parts, under an alias.
fn import(
    alloc: Global,
    sort: ImportSort,
    alias: &[u8],
    before: &[u8],
    name: &[u8],
) -> Result<Import, AllocError>
    ensures { IfOk result (λ i. import_of i ≡ spec.import (sort_of sort) alias.now (before.now ++ name.now)) }
{
    let alias = Bytes::new(as_alias(alloc, sort, alias)?);
    let mut full = Vec::from_slice(alloc, before)?;
    full.extend_from_slice(name)?;
    let full = Bytes::new(Vec::from_slice(alloc, without_root(full.as_slice()))?);
    Ok(Import { sort, alias, full })
}

// The import of a name's words, behind others.
fn add_named(
    alloc: Global,
    sort: ImportSort,
    before: &[u8],
    words: &[&[u8]],
    imports: &mut Vec<Import>,
) -> Result<(), AllocError>
    ensures { OnOk result (map import_of imports.new.items ≡
        map import_of imports.old.items ++ spec.named (sort_of sort) before.now (texts_of words.now)) }
{
    match words {
        [] | [_, _] => Ok(()),
        [name] => {
            imports.push(import(alloc, sort, last_part(name), before, name)?)?;
            Ok(())
        }
        [name, _, alias, ..] => {
            imports.push(import(alloc, sort, alias, before, name)?)?;
            Ok(())
        }
    }
}

// Which sort a word asks for, or else this one.
fn sort_by(word: &[u8], sort: ImportSort) -> ImportSort
    ensures { sort_of result ≡ spec.sort_by word.now (sort_of sort) }
{
    if is_keyword(b"function", word) {
        return ImportSort::Function;
    }
    if is_keyword(b"const", word) {
        return ImportSort::Constant;
    }
    sort
}

// Words without the one that asks for a sort.
fn without_sort<'a, 'b>(words: &'b [&'a [u8]]) -> &'b [&'a [u8]]
    ensures { texts_of result.now ≡ spec.without_sort (texts_of words.now) }
{
    let word = first_word(words);
    if is_keyword(b"function", word) || is_keyword(b"const", word) {
        drop_first(words)
    } else {
        words
    }
}

// The imports of one of several names, behind others.
fn add_behind(
    alloc: Global,
    sort: ImportSort,
    before: &[u8],
    words: &[&[u8]],
    imports: &mut Vec<Import>,
) -> Result<(), AllocError>
    ensures { OnOk result (map import_of imports.new.items ≡
        map import_of imports.old.items ++ spec.imports_behind (sort_of sort) before.now (texts_of words.now ∷ [])) }
{
    let own = sort_by(first_word(words), sort);
    add_named(alloc, own, before, without_sort(words), imports)
}

// The imports of several names behind a common front.
fn imports_behind(
    alloc: Global,
    sort: ImportSort,
    before: &[u8],
    words: &[&[u8]],
) -> Result<Vec<Import>, AllocError>
    ensures { IfOk result (λ is. map import_of is.items ≡
        spec.imports_behind (sort_of sort) before.now (between_ends (texts_of words.now))) }
{
    let mut imports = Vec::new(alloc);
    let mut group = Vec::new(alloc);
    for word in words {
        if is_end(word) {
            add_behind(alloc, sort, before, group.as_slice(), &mut imports)?;
            group = Vec::new(alloc);
            continue;
        }
        group.push(*word)?;
    }
    add_behind(alloc, sort, before, group.as_slice(), &mut imports)?;
    Ok(imports)
}

// The imports of the words behind `use` and its sort.
fn imports_of(alloc: Global, sort: ImportSort, words: &[&[u8]]) -> Result<Vec<Import>, AllocError>
    ensures { IfOk result (λ is. map import_of is.items ≡ spec.imports_of (sort_of sort) (texts_of words.now)) }
{
    if has_word(b"{", words) {
        let inner = drop_first(drop_first(words));
        return imports_behind(alloc, sort, first_word(words), inner);
    }
    imports_behind(alloc, sort, &[], words)
}

/// The imports of the words of a `use`, in order. The only error is want of memory.
pub fn imports(alloc: Global, words: &[&[u8]]) -> Result<Vec<Import>, AllocError>
    ensures { IfOk result (λ is. map import_of is.items ≡ spec.imports (texts_of words.now)) }
{
    let behind = drop_first(words);
    let sort = sort_by(first_word(behind), ImportSort::Class);
    imports_of(alloc, sort, without_sort(behind))
}
