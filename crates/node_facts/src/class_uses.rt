// Classes that are used.
ghost use Rattle.std.specs.Prelude.{◌≡◌, ◌++◌, ◌∷◌, [], map, IfOk, OnOk};
ghost use Rattle.node_names.specs.Compared as compared_by;
ghost use Rattle.node_names.specs.Seen.{texts_of};
ghost use Rattle.node_names.specs.Uses as spec;
ghost use Rattle.node_names.specs.declared.name_sort.NameSort.TheVariants as sorts;
ghost use Rattle.file_declarations.specs.Texts.{text_option};
ghost use Rattle.node_facts.specs.Seen.{use_in, uses_in};
ghost use Rattle.node_facts.specs.Standing.{site_of};

use crate::name_use::NameUse;
use crate::scene::{Scene, names_of};
use file_declarations::class_named;
use node_names::{NameSort, compared, is_keyword};
use span_edits::Bytes;
use std::alloc::{AllocError, Global};

/// A name of a sort that may stand for each of some full names. The only error is want of memory.
pub(crate) fn use_of(alloc: Global, sort: NameSort, fulls: &[Bytes]) -> Result<NameUse, AllocError>
    ensures { IfOk result (λ u. use_in u ≡ compared_by.use_of sort fulls.now) }
{
    let mut texts = Vec::new(alloc);
    for full in fulls {
        texts.push(Bytes::new(compared(alloc, sort, full.as_slice())?))?;
    }
    Ok(NameUse { sort, texts })
}

/// A name of a sort that stands for one full name. The only error is want of memory.
pub(crate) fn one_use(alloc: Global, sort: NameSort, full: &[u8]) -> Result<NameUse, AllocError>
    ensures { IfOk result (λ u. use_in u ≡ compared_by.use_of sort (full.now ∷ [])) }
{
    let mut texts = Vec::new(alloc);
    texts.push(Bytes::new(compared(alloc, sort, full)?))?;
    Ok(NameUse { sort, texts })
}

/// A name behind others.
pub(crate) fn add(uses: &mut Vec<NameUse>, used: NameUse) -> Result<(), AllocError>
    ensures { OnOk result (uses_in uses.new.items ≡ uses_in uses.old.items ++ use_in used ∷ []) }
{
    uses.push(used)?;
    Ok(())
}

// A class, where there is one.
fn add_if(alloc: Global, uses: &mut Vec<NameUse>, full: Option<&[u8]>) -> Result<(), AllocError>
    ensures { OnOk result (uses_in uses.new.items ≡ uses_in uses.old.items ++ spec.class_if (text_option full.entry)) }
{
    match full {
        None => Ok(()),
        Some(name) => {
            let used = one_use(alloc, NameSort::Class, name)?;
            add(uses, used)
        }
    }
}

// The class that a name stands for.
fn add_class(
    alloc: Global,
    uses: &mut Vec<NameUse>,
    scene: Scene,
    name: &[u8],
) -> Result<(), AllocError>
    ensures { OnOk result (uses_in uses.new.items ≡ uses_in uses.old.items ++ spec.class_use (site_of scene.entry) name.now) }
{
    if is_keyword(b"self", name) {
        return add_if(alloc, uses, scene.spot.class);
    }
    if is_keyword(b"parent", name) {
        return add_if(alloc, uses, scene.spot.parent);
    }
    let full = class_named(alloc, names_of(scene), name)?;
    add_if(alloc, uses, Some(full.as_slice()))
}

/// The classes that names stand for, behind other names. The only error is want of memory.
pub(crate) fn class_uses(
    alloc: Global,
    uses: &mut Vec<NameUse>,
    scene: Scene,
    words: &[&[u8]],
) -> Result<(), AllocError>
    ensures { OnOk result (uses_in uses.new.items ≡ uses_in uses.old.items ++ spec.class_uses (site_of scene.entry) (texts_of words.now)) }
{
    for word in words {
        add_class(alloc, uses, scene, word)?;
    }
    Ok(())
}

// Whether a word is a type and no class.
fn is_type_word(word: &[u8]) -> bool
    ensures { result ≡ spec.is_type_word word.now }
{
    is_keyword(b"int", word)
        || is_keyword(b"float", word)
        || is_keyword(b"bool", word)
        || is_keyword(b"string", word)
        || is_keyword(b"void", word)
        || is_keyword(b"iterable", word)
        || is_keyword(b"object", word)
}

/// The class of a type, behind other names. The only error is want of memory.
pub(crate) fn type_uses(
    alloc: Global,
    uses: &mut Vec<NameUse>,
    scene: Scene,
    words: &[&[u8]],
) -> Result<(), AllocError>
    ensures { OnOk result (uses_in uses.new.items ≡ uses_in uses.old.items ++ spec.type_uses (site_of scene.entry) (texts_of words.now)) }
{
    match words {
        [] => Ok(()),
        [word, ..] => {
            if is_type_word(word) {
                return Ok(());
            }
            add_class(alloc, uses, scene, word)
        }
    }
}
