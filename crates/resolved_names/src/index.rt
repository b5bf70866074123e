// Declarations by their names.
ghost use Rattle.std.specs.Prelude.{◌≡◌, ◌++◌, ◌∷◌, [], if◌then◌else◌, ℕ, Vec, Some, IfOk, OnOk};
ghost use Rattle.std.specs.Str.{bytes_eq};
ghost use Rattle.std.specs.declared.alloc.Global as global;
ghost use Rattle.program_names.specs.Table.{declared_as};
ghost use Rattle.resolved_names.specs.Index as spec;

use indexmap::IndexMap;
use node_names::NameSort;
use program_names::{Declaration, NodeRef, Told};
use std::alloc::{AllocError, Global};

// The number of a sort.
fn sort_code(sort: NameSort) -> u8
    ensures { result ≡ spec.sort_code sort }
{
    match sort {
        NameSort::Function => 0,
        NameSort::Class => 1,
        NameSort::Constant => 2,
        NameSort::Method => 3,
        NameSort::ClassConstant => 4,
        NameSort::Property => 5,
    }
}

// A name as one text.
fn key(alloc: Global, sort: NameSort, text: &[u8]) -> Result<Vec<u8>, AllocError>
    ensures { IfOk result (λ v. v.items ≡ spec.key sort text.now) }
{
    let mut key = Vec::new(alloc);
    key.push(sort_code(sort))?;
    key.extend_from_slice(text)?;
    Ok(key)
}

// What was kept, or nothing.
fn items_or_none(alloc: Global, kept: Option<Vec<NodeRef>>) -> Vec<NodeRef>
    ensures { result.items ≡ spec.items_if kept }
{
    match kept {
        Some(nodes) => nodes,
        None => Vec::new(alloc),
    }
}

// One more node under a key.
fn put(
    alloc: Global,
    index: &mut IndexMap<Vec<u8>, Vec<NodeRef>>,
    key: Vec<u8>,
    at: NodeRef,
) -> Result<(), AllocError>
    ensures { OnOk result ((k : Vec ℕ global.Global) →
        spec.kept index.new.entries k.items ≡ spec.kept index.old.entries k.items ++ (if bytes_eq key.items k.items then at ∷ [] else [])) }
{
    let old = index.swap_remove(key.as_slice());
    let mut nodes = items_or_none(alloc, old);
    nodes.push(at)?;
    index.insert(key, nodes)?;
    Ok(())
}

// One more declaration.
fn add(
    alloc: Global,
    index: &mut IndexMap<Vec<u8>, Vec<NodeRef>>,
    declaration: &Declaration,
) -> Result<(), AllocError>
    ensures { OnOk result ((k : Vec ℕ global.Global) →
        spec.kept index.new.entries k.items ≡ spec.kept index.old.entries k.items ++ spec.keyed k.items (declaration.now ∷ [])) }
{
    let key = key(
        alloc,
        declaration.name.sort,
        declaration.name.text.as_slice(),
    )?;
    put(alloc, index, key, declaration.at)
}

// What is told, if it is a declaration.
fn add_told(
    alloc: Global,
    index: &mut IndexMap<Vec<u8>, Vec<NodeRef>>,
    one: &Told,
) -> Result<(), AllocError>
    ensures { OnOk result ((k : Vec ℕ global.Global) →
        spec.kept index.new.entries k.items ≡ spec.kept index.old.entries k.items ++ spec.keyed k.items (spec.declared_in (one.now ∷ []))) }
{
    match one {
        Told::Declares(declaration) => add(alloc, index, declaration),
        Told::Extends(_, _) | Told::Includes(_, _) => Ok(()),
    }
}

/// The declarations of what is told by their names. The only error is want of memory.
pub(crate) fn indexed(
    alloc: Global,
    told: &[Told],
) -> Result<IndexMap<Vec<u8>, Vec<NodeRef>>, AllocError>
    ensures { IfOk result (λ m. spec.IsIndex m.entries (spec.declared_in told.now)) }
{
    let mut index = IndexMap::new(alloc);
    for one in told {
        add_told(alloc, &mut index, one)?;
    }
    Ok(index)
}

/// The place of a name among those that are declared, if it is there. The only error is want of memory.
pub(crate) fn find(
    alloc: Global,
    index: &IndexMap<Vec<u8>, Vec<NodeRef>>,
    told: &[Told],
    sort: NameSort,
    text: &[u8],
) -> Result<Option<usize>, AllocError>
    requires { spec.IsIndex index.now.entries (spec.declared_in told.now) }
    ensures { IfOk result (λ o. spec.kept_at index.now.entries o ≡ declared_as sort text.now (spec.declared_in told.now)) }
{
    let _told = told;
    let key = key(alloc, sort, text)?;
    Ok(index.get_index_of(key.as_slice()))
}

/// The nodes that declare the name at a place.
pub(crate) fn nodes_at(index: &IndexMap<Vec<u8>, Vec<NodeRef>>, place: usize) -> &[NodeRef]
    ensures { result.now ≡ spec.kept_at index.now.entries (Some place) }
{
    match index.get_index(place) {
        None => &[],
        Some((_, nodes)) => nodes.as_slice(),
    }
}
