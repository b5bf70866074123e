// What names stand for.
ghost use Rattle.std.specs.Prelude.{◌≡◌, ◌<◌, ◌+◌, ◌^◌, ◌++◌, length, map, IfOk, OnOk};
ghost use Rattle.node_facts.specs.Seen.{use_in, uses_in};
ghost use Rattle.program_names.specs.Classes.{AreAscending};
ghost use Rattle.program_names.specs.Table.{declared_as, declared_as_each, declared_by};
ghost use Rattle.resolved_names.specs.Index.{IsIndex, declared_in, found_in};
ghost use Rattle.resolved_names.specs.NodeReads.{declared_each, numbers_of};

use crate::found::Found;
use crate::index::{find, nodes_at};
use class_cycles::class_number;
use indexmap::IndexMap;
use node_facts::NameUse;
use node_names::{Name, NameSort};
use program_names::{NodeRef, Told};
use span_edits::Bytes;
use std::alloc::{AllocError, Global};

// The nodes that declare a name, behind others.
fn add_nodes(
    alloc: Global,
    index: &IndexMap<Vec<u8>, Vec<NodeRef>>,
    told: &[Told],
    nodes: &mut Vec<NodeRef>,
    sort: NameSort,
    text: &[u8],
) -> Result<(), AllocError>
    requires { IsIndex index.now.entries (declared_in told.now) }
    ensures { OnOk result (nodes.new.items ≡ nodes.old.items ++ declared_as sort text.now (declared_in told.now)) }
{
    if let Some(place) = find(alloc, index, told, sort, text)? {
        nodes.extend_from_slice(nodes_at(index, place))?;
    }
    Ok(())
}

// The nodes that declare each of some names, one after another.
fn each(
    alloc: Global,
    index: &IndexMap<Vec<u8>, Vec<NodeRef>>,
    told: &[Told],
    sort: NameSort,
    texts: &[Bytes],
) -> Result<Vec<NodeRef>, AllocError>
    requires { IsIndex index.now.entries (declared_in told.now) }
    ensures { IfOk result (λ v. v.items ≡ declared_as_each sort texts.now (declared_in told.now)) }
{
    let mut nodes = Vec::new(alloc);
    for text in texts {
        add_nodes(alloc, index, told, &mut nodes, sort, text.as_slice())?;
    }
    Ok(nodes)
}

// What one name stands for.
fn found_one(
    alloc: Global,
    index: &IndexMap<Vec<u8>, Vec<NodeRef>>,
    told: &[Told],
    sort: NameSort,
    text: &[u8],
) -> Result<Found, AllocError>
    requires { IsIndex index.now.entries (declared_in told.now) }
    ensures { IfOk result (λ f. found_in index.now.entries f ≡ declared_as sort text.now (declared_in told.now)) }
{
    match find(alloc, index, told, sort, text)? {
        None => Ok(Found::Nothing),
        Some(place) => Ok(Found::At(place)),
    }
}

// What a use stands for.
fn found(
    alloc: Global,
    index: &IndexMap<Vec<u8>, Vec<NodeRef>>,
    told: &[Told],
    used: &NameUse,
) -> Result<Found, AllocError>
    requires { IsIndex index.now.entries (declared_in told.now) }
    ensures { IfOk result (λ f. found_in index.now.entries f ≡ declared_by (use_in used.now) (declared_in told.now)) }
{
    match used.texts.as_slice() {
        [text] => found_one(alloc, index, told, used.sort, text.as_slice()),
        texts => {
            let nodes = each(alloc, index, told, used.sort, texts)?;
            Ok(Found::Each(nodes))
        }
    }
}

/// What the names that are used stand for. The only error is want of memory.
pub(crate) fn uses_found(
    alloc: Global,
    index: &IndexMap<Vec<u8>, Vec<NodeRef>>,
    told: &[Told],
    uses: &[NameUse],
) -> Result<Vec<Found>, AllocError>
    requires { IsIndex index.now.entries (declared_in told.now) }
    ensures { IfOk result (λ v. map (found_in index.now.entries) v.items ≡ declared_each (declared_in told.now) (uses_in uses.now)) }
{
    let mut all = Vec::new(alloc);
    for used in uses {
        let one = found(alloc, index, told, used)?;
        all.push(one)?;
    }
    Ok(all)
}

/// The number of each class that is declared, if what is declared is one. The only error is want of memory.
pub(crate) fn class_numbers(
    alloc: Global,
    others: &[Bytes],
    names: &[Name],
) -> Result<Vec<Option<u32>>, AllocError>
    requires ascending { AreAscending others.now }
    requires few { length others.now + 11 < 2 ^ 32 }
    ensures { IfOk result (λ v. v.items ≡ numbers_of others.now names.now) }
{
    let mut all = Vec::new(alloc);
    for name in names {
        all.push(class_number(others, name.text.as_slice()))?;
    }
    Ok(all)
}
