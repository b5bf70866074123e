// Functions, constants, members and imports that are used.
ghost use Rattle.std.specs.Prelude.{◌≡◌, ◌++◌, ◌∷◌, [], map, IfOk, OnOk};
ghost use Rattle.scope_names.specs.Imports as import_spec;
ghost use Rattle.scope_names.specs.Imports.{imports as imports_in};
ghost use Rattle.scope_names.specs.Sites as sites;
ghost use Rattle.node_names.specs.Compared as compared_by;
ghost use Rattle.node_names.specs.declared.name_sort.NameSort.TheVariants as sorts;
ghost use Rattle.node_names.specs.Seen.{text_if, texts_of};
ghost use Rattle.node_names.specs.Uses as spec;
ghost use Rattle.file_declarations.specs.Imported.{import_of, sort_of};
ghost use Rattle.node_facts.specs.Seen.{use_in, uses_in};
ghost use Rattle.node_facts.specs.Standing.{site_of};

use crate::candidates::candidates;
use crate::class_uses::{add, one_use, use_of};
use crate::name_use::NameUse;
use crate::scene::{Scene, names_of};
use file_declarations::{Import, ImportSort, imports};
use node_names::NameSort;
use std::alloc::{AllocError, Global};

// The function of a name.
fn function(
    alloc: Global,
    uses: &mut Vec<NameUse>,
    scene: Scene,
    name: &[u8],
) -> Result<(), AllocError>
    ensures { OnOk result (uses_in uses.new.items ≡ uses_in uses.old.items ++ compared_by.use_of sorts.Function (sites.candidates (site_of scene.entry) import_spec.OfFunction name.now) ∷ []) }
{
    let fulls = candidates(alloc, names_of(scene), ImportSort::Function, name)?;
    let used = use_of(alloc, NameSort::Function, fulls.as_slice())?;
    add(uses, used)
}

/// The function that the first of some words names, behind other names. The only error is want of memory.
pub(crate) fn functions(
    alloc: Global,
    uses: &mut Vec<NameUse>,
    scene: Scene,
    words: &[&[u8]],
) -> Result<(), AllocError>
    ensures { OnOk result (uses_in uses.new.items ≡ uses_in uses.old.items ++ spec.functions (site_of scene.entry) (texts_of words.now)) }
{
    match words {
        [] => Ok(()),
        [word, ..] => function(alloc, uses, scene, word),
    }
}

// The constant of a name.
fn constant(
    alloc: Global,
    uses: &mut Vec<NameUse>,
    scene: Scene,
    name: &[u8],
) -> Result<(), AllocError>
    ensures { OnOk result (uses_in uses.new.items ≡ uses_in uses.old.items ++ compared_by.use_of sorts.Constant (sites.candidates (site_of scene.entry) import_spec.OfConstant name.now) ∷ []) }
{
    let fulls = candidates(alloc, names_of(scene), ImportSort::Constant, name)?;
    let used = use_of(alloc, NameSort::Constant, fulls.as_slice())?;
    add(uses, used)
}

/// The constant that the first of some words names, behind other names. The only error is want of memory.
pub(crate) fn constants(
    alloc: Global,
    uses: &mut Vec<NameUse>,
    scene: Scene,
    words: &[&[u8]],
) -> Result<(), AllocError>
    ensures { OnOk result (uses_in uses.new.items ≡ uses_in uses.old.items ++ spec.constants (site_of scene.entry) (texts_of words.now)) }
{
    match words {
        [] => Ok(()),
        [word, ..] => constant(alloc, uses, scene, word),
    }
}

/// A member of any class, behind other names.
pub(crate) fn add_member(
    alloc: Global,
    uses: &mut Vec<NameUse>,
    sort: NameSort,
    word: Option<&[u8]>,
) -> Result<(), AllocError>
    ensures { OnOk result (uses_in uses.new.items ≡ uses_in uses.old.items ++ spec.members sort (text_if word.entry)) }
{
    match word {
        None => Ok(()),
        Some(name) => {
            let used = one_use(alloc, sort, name)?;
            add(uses, used)
        }
    }
}

// What an import is the name of.
fn imported_sort(sort: ImportSort) -> NameSort
    ensures { result ≡ spec.imported_sort (sort_of sort) }
{
    match sort {
        ImportSort::Class => NameSort::Class,
        ImportSort::Function => NameSort::Function,
        ImportSort::Constant => NameSort::Constant,
    }
}

// What an import uses.
fn import_use(alloc: Global, import: &Import) -> Result<NameUse, AllocError>
    ensures { IfOk result (λ u. use_in u ≡ spec.import_use (import_of import.now)) }
{
    one_use(alloc, imported_sort(import.sort), import.full.as_slice())
}

// What some imports use.
fn import_uses(alloc: Global, uses: &mut Vec<NameUse>, imports: &[Import]) -> Result<(), AllocError>
    ensures { OnOk result (uses_in uses.new.items ≡ uses_in uses.old.items ++ map spec.import_use (map import_of imports.now)) }
{
    for import in imports {
        let used = import_use(alloc, import)?;
        add(uses, used)?;
    }
    Ok(())
}

/// What the words of a `use` import, behind other names. The only error is want of memory.
pub(crate) fn imported(
    alloc: Global,
    uses: &mut Vec<NameUse>,
    words: &[&[u8]],
) -> Result<(), AllocError>
    ensures { OnOk result (uses_in uses.new.items ≡ uses_in uses.old.items ++ map spec.import_use (imports_in (texts_of words.now))) }
{
    let imports = imports(alloc, words)?;
    import_uses(alloc, uses, imports.as_slice())
}
