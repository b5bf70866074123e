// The classes that a class or an interface extends.
ghost use Rattle.std.specs.Prelude.{◌≡◌, codes, IfOk};
ghost use Rattle.php_tree.specs.declared.kind.NodeKind.TheVariants as kinds;
ghost use Rattle.scope_names.specs.Sites.{class_named as class_named_at};
ghost use Rattle.node_names.specs.Facts as spec;
ghost use Rattle.node_names.specs.Seen.{form_of, texts_of};
ghost use Rattle.node_names.specs.Spelled.{behind_first as words_behind};
ghost use Rattle.file_declarations.specs.NamesSite.{names_site};

use crate::class_name::{Names, class_named};
use crate::words::{texts, word_behind};
use node_names::{NameSort, Piece, behind_keyword, compared, names as spelled_names};
use span_edits::Bytes;
use std::alloc::{AllocError, Global};

// A class by its name, as it is compared.
fn class_text(alloc: Global, names: Names, name: &[u8]) -> Result<Bytes, AllocError>
    ensures { IfOk result (λ t. t ≡ spec.class_text (class_named_at (names_site names.entry) name.now)) }
{
    let full = class_named(alloc, names, name)?;
    Ok(Bytes::new(compared(alloc, NameSort::Class, full.as_slice())?))
}

fn behind_first<'a, 'b>(words: &'b [&'a [u8]]) -> &'b [&'a [u8]]
    ensures { texts_of result.now ≡ words_behind (texts_of words.now) }
{
    match words {
        [] => words,
        [_, behind @ ..] => behind,
    }
}

// The classes by their names, as they are compared.
fn class_texts(alloc: Global, names: Names, words: &[&[u8]]) -> Result<Vec<Bytes>, AllocError>
    ensures { IfOk result (λ ts. ts.items ≡ spec.class_texts (names_site names.entry) (texts_of words.now)) }
{
    let mut classes = Vec::new(alloc);
    for word in words {
        classes.push(class_text(alloc, names, word)?)?;
    }
    Ok(classes)
}

/// The class that a Class extends, if there is one. The only error is want of memory.
pub(crate) fn class_parents(
    alloc: Global,
    names: Names,
    form: &[Piece],
) -> Result<Vec<Bytes>, AllocError>
    ensures { IfOk result (λ ts. ts.items ≡ spec.extends kinds.Class (form_of form.now) (names_site names.entry)) }
{
    let words = texts(alloc, form)?;
    match word_behind(b"extends", words.as_slice()) {
        None => Ok(Vec::new(alloc)),
        Some(name) => class_texts(alloc, names, &[name]),
    }
}

/// The interfaces that an Interface extends. The only error is want of memory.
pub(crate) fn interface_parents(
    alloc: Global,
    names: Names,
    form: &[Piece],
) -> Result<Vec<Bytes>, AllocError>
    ensures { IfOk result (λ ts. ts.items ≡ spec.extends kinds.Interface (form_of form.now) (names_site names.entry)) }
{
    let words = spelled_names(alloc, behind_keyword(b"interface", form))?;
    class_texts(alloc, names, behind_first(words.as_slice()))
}
