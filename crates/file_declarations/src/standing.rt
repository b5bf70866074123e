// Where the statements of a node stand, one after another.
ghost use Rattle.std.specs.Prelude.{◌≡◌, ◌≤◌, List, ℕ, length, IfOk, OnOk};
ghost use Rattle.php_tree.specs.declared.kind.NodeKind.TheVariants as kinds;
ghost use Rattle.php_rows.specs.Reading.{forest_in};
ghost use Rattle.node_names.specs.Seen.{texts_of};
ghost use Rattle.scope_names.specs.Form.{form as form_of_forest, texts as texts_in};
ghost use Rattle.scope_names.specs.Imports.{imports as imports_of};
ghost use Rattle.scope_names.specs.Sites.{names_beside};
ghost use Rattle.file_declarations.specs.declared.import.Import as import;
ghost use Rattle.file_declarations.specs.Imported.{IsImported, IsLonger};
ghost use Rattle.file_declarations.specs.Spaces.{space_of_words};
ghost use Rattle.file_declarations.specs.Standing.{site_at, space_or};

use crate::import::Import;
use crate::importing::imports;
use crate::role::{Role, role_of};
use crate::row_forms::row_form;
use crate::words::{drop_first, first_word, has_word, texts};
use php_rows::Parts;
use php_tree::NodeKind;
use std::alloc::{AllocError, Global};

/// The namespace that began among the statements, if one did, and how many imports stand before those that count.
#[derive(Drop)]
pub struct Standing {
    pub own: Option<Vec<u8>>,
    pub from: usize,
}

/// The namespace, where this one is around the statements.
pub fn space_of<'a>(own: &'a Option<Vec<u8>>, outer: &'a [u8]) -> &'a [u8]
    ensures { result.now ≡ space_or outer.now own.now }
{
    match own {
        None => outer,
        Some(space) => space.as_slice(),
    }
}

/// The namespace of the words of a Namespace. The only error is want of memory.
pub fn space_named(alloc: Global, words: &[&[u8]]) -> Result<Vec<u8>, AllocError>
    ensures { IfOk result (λ v. v.items ≡ space_of_words (texts_of words.now)) }
{
    let name = first_word(drop_first(words));
    if name == b"{".as_slice() {
        return Ok(Vec::new(alloc));
    }
    Vec::from_slice(alloc, name)
}

/// The namespace that a Namespace opens. The only error is want of memory.
pub(crate) fn space_within(alloc: Global, parts: Parts) -> Result<Vec<u8>, AllocError>
    ensures { IfOk result (λ v. v.items ≡ space_of_words (texts_in (form_of_forest (forest_in parts.entry)))) }
{
    let form = row_form(alloc, parts)?;
    let words = texts(alloc, form.as_slice())?;
    space_named(alloc, words.as_slice())
}

// Where what follows a Namespace stands, behind so many imports.
fn pass_namespace(
    alloc: Global,
    count: usize,
    parts: Parts,
    standing: Standing,
) -> Result<Standing, AllocError>
    requires { standing.from ≤ count }
    ensures from { IfOk result (λ st. st.from ≤ count) }
    ensures site { IfOk result (λ st. (path outer : List ℕ) (is : List import.Import) → length is ≡ count →
        site_at path (space_or outer st.own) st.from is
        ≡ names_beside kinds.Namespace (form_of_forest (forest_in parts.entry)) (site_at path (space_or outer standing.own) standing.from is)) }
{
    let form = row_form(alloc, parts)?;
    let words = texts(alloc, form.as_slice())?;
    if has_word(b"{", words.as_slice()) {
        return Ok(standing);
    }
    let space = space_named(alloc, words.as_slice())?;
    Ok(Standing {
        own: Some(space),
        from: count,
    })
}

// The imports of a Use, the last one first.
fn add_imports(alloc: Global, known: &mut Vec<Import>, parts: Parts) -> Result<(), AllocError>
    ensures { OnOk result (IsImported known.old.items known.new.items (imports_of (texts_in (form_of_forest (forest_in parts.entry))))) }
{
    let form = row_form(alloc, parts)?;
    let words = texts(alloc, form.as_slice())?;
    let mut fresh = imports(alloc, words.as_slice())?;
    fresh.reverse();
    known.append(&mut fresh)?;
    Ok(())
}

/// Where what follows a node stands. The only error is want of memory.
pub fn pass(
    alloc: Global,
    known: &mut Vec<Import>,
    kind: NodeKind,
    parts: Parts,
    standing: Standing,
) -> Result<Standing, AllocError>
    requires { standing.from ≤ length known.old.items }
    ensures grew { OnOk result (IsLonger known.old.items known.new.items) }
    ensures from { IfOk result (λ st. st.from ≤ length known.new.items) }
    ensures site { IfOk result (λ st. (path outer : List ℕ) →
        site_at path (space_or outer st.own) st.from known.new.items
        ≡ names_beside kind (form_of_forest (forest_in parts.entry)) (site_at path (space_or outer standing.own) standing.from known.old.items)) }
{
    match role_of(kind) {
        Role::Namespace => {
            let count = known.len();
            pass_namespace(alloc, count, parts, standing)
        }
        Role::Use => {
            add_imports(alloc, known, parts)?;
            Ok(standing)
        }
        Role::Declares | Role::Class | Role::Interface | Role::Includes | Role::Plain => {
            let _parts = parts;
            Ok(standing)
        }
    }
}
