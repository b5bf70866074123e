// What one node tells.
ghost use Rattle.std.specs.Prelude.{◌≡◌, ◌++◌, IfOk, OnOk};
ghost use Rattle.php_tree.specs.declared.kind.NodeKind.TheVariants as kinds;
ghost use Rattle.php_rows.specs.Reading.{forest_in};
ghost use Rattle.node_names.specs.Declares.{declares};
ghost use Rattle.node_names.specs.Facts.{includes};
ghost use Rattle.scope_names.specs.Form.{form as form_of_forest};
ghost use Rattle.file_declarations.specs.NamesSite.{site_in};
ghost use Rattle.file_declarations.specs.Roles.{class_told};
ghost use Rattle.node_names.specs.Seen.{form_of};
ghost use Rattle.file_declarations.specs.Told.{declared_told, extends_told, parents_told, path_told, told_at};

use crate::class_name::Names;
use crate::declaration::Declaration;
use crate::include_path::include_path;
use crate::node_ref::NodeRef;
use crate::parents::{class_parents, interface_parents};
use crate::path_parts::included;
use crate::role::{Role, role_of};
use crate::row_forms::row_form;
use crate::told::Told;
use node_names::{Name, Piece, declared_names};
use php_rows::Parts;
use php_tree::NodeKind;
use span_edits::Bytes;
use std::alloc::{AllocError, Global};

// A class with each that it extends.
fn add_parents(
    alloc: Global,
    told: &mut Vec<Told>,
    class: &Bytes,
    parents: &[Bytes],
) -> Result<(), AllocError>
    ensures { OnOk result (told.new.items ≡ told.old.items ++ parents_told class.now parents.now) }
{
    for parent in parents {
        told.push(Told::Extends(class.copy(alloc)?, parent.copy(alloc)?))?;
    }
    Ok(())
}

// Each of some classes with each that they extend.
fn add_extends(
    alloc: Global,
    told: &mut Vec<Told>,
    names: &[Name],
    parents: &[Bytes],
) -> Result<(), AllocError>
    ensures { OnOk result (told.new.items ≡ told.old.items ++ extends_told names.now parents.now) }
{
    for name in names {
        add_parents(alloc, told, &name.text, parents)?;
    }
    Ok(())
}

// The declarations of some names at a node.
#[tactic(auto, using(crate::proofs::TellLemmas::declared_push))]
fn add_declared(
    told: &mut Vec<Told>,
    at: NodeRef,
    is_top: bool,
    names: Vec<Name>,
) -> Result<(), AllocError>
    ensures { OnOk result (told.new.items ≡ told.old.items ++ declared_told at is_top names.items) }
{
    for name in names {
        told.push(Told::Declares(Declaration { name, at, is_top }))?;
    }
    Ok(())
}

// The names that a node declares.
fn names_at(
    alloc: Global,
    kind: NodeKind,
    form: &[Piece],
    file: &[u8],
    names: Names,
) -> Result<Vec<Name>, AllocError>
    ensures { IfOk result (λ ns. ns.items ≡ declares kind (form_of form.now) (site_in file.now names.entry)) }
{
    let _file = file;
    declared_names(alloc, kind, form, names.space)
}

// What a node tells that declares names.
fn tell_names(
    alloc: Global,
    told: &mut Vec<Told>,
    at: NodeRef,
    is_top: bool,
    kind: NodeKind,
    file: &[u8],
    names: Names,
    parts: Parts,
) -> Result<(), AllocError>
    ensures { OnOk result (told.new.items ≡ told.old.items
        ++ declared_told at is_top (declares kind (form_of_forest (forest_in parts.entry)) (site_in file.now names.entry))) }
{
    let form = row_form(alloc, parts)?;
    let declared = names_at(alloc, kind, form.as_slice(), file, names)?;
    add_declared(told, at, is_top, declared)
}

// The names that are declared, and the classes that they extend.
#[tactic(auto, using(crate::proofs::TellLemmas::both_told))]
fn tell_both(
    alloc: Global,
    told: &mut Vec<Told>,
    at: NodeRef,
    is_top: bool,
    declared: Vec<Name>,
    classes: &[Name],
    parents: &[Bytes],
) -> Result<(), AllocError>
    ensures { OnOk result (told.new.items ≡ told.old.items ++ (declared_told at is_top declared.items ++ extends_told classes.now parents.now)) }
{
    add_declared(told, at, is_top, declared)?;
    add_extends(alloc, told, classes, parents)
}

// What a Class tells.
fn tell_class(
    alloc: Global,
    told: &mut Vec<Told>,
    at: NodeRef,
    is_top: bool,
    file: &[u8],
    names: Names,
    parts: Parts,
) -> Result<(), AllocError>
    ensures { OnOk result (told.new.items ≡ told.old.items
        ++ class_told kinds.Class at is_top (form_of_forest (forest_in parts.entry)) (site_in file.now names.entry)) }
{
    let form = row_form(alloc, parts)?;
    let declared = names_at(alloc, NodeKind::Class, form.as_slice(), file, names)?;
    let classes = names_at(alloc, NodeKind::Class, form.as_slice(), file, names)?;
    let parents = class_parents(alloc, names, form.as_slice())?;
    tell_both(
        alloc,
        told,
        at,
        is_top,
        declared,
        classes.as_slice(),
        parents.as_slice(),
    )
}

// What an Interface tells.
fn tell_interface(
    alloc: Global,
    told: &mut Vec<Told>,
    at: NodeRef,
    is_top: bool,
    file: &[u8],
    names: Names,
    parts: Parts,
) -> Result<(), AllocError>
    ensures { OnOk result (told.new.items ≡ told.old.items
        ++ class_told kinds.Interface at is_top (form_of_forest (forest_in parts.entry)) (site_in file.now names.entry)) }
{
    let form = row_form(alloc, parts)?;
    let declared = names_at(alloc, NodeKind::Interface, form.as_slice(), file, names)?;
    let classes = names_at(alloc, NodeKind::Interface, form.as_slice(), file, names)?;
    let parents = interface_parents(alloc, names, form.as_slice())?;
    tell_both(
        alloc,
        told,
        at,
        is_top,
        declared,
        classes.as_slice(),
        parents.as_slice(),
    )
}

// What an Include tells.
fn tell_path(
    alloc: Global,
    told: &mut Vec<Told>,
    number: u32,
    file: &[u8],
    names: Names,
    parts: Parts,
) -> Result<(), AllocError>
    ensures { OnOk result (told.new.items ≡ told.old.items
        ++ path_told number (includes kinds.Include (forest_in parts.entry) (site_in file.now names.entry))) }
{
    let _names = names;
    match included(alloc, file, include_path(parts))? {
        None => Ok(()),
        Some(path) => {
            told.push(Told::Includes(number, Bytes::new(path)))?;
            Ok(())
        }
    }
}

/// What a node tells, behind what was told. The only error is want of memory.
#[tactic(auto, using(crate::proofs::TellLemmas::told_role))]
pub(crate) fn tell(
    alloc: Global,
    told: &mut Vec<Told>,
    at: NodeRef,
    is_top: bool,
    file: &[u8],
    names: Names,
    kind: NodeKind,
    parts: Parts,
) -> Result<(), AllocError>
    ensures { OnOk result (told.new.items ≡ told.old.items ++ told_at at is_top kind (forest_in parts.entry) (site_in file.now names.entry)) }
{
    match role_of(kind) {
        Role::Declares => tell_names(alloc, told, at, is_top, kind, file, names, parts),
        Role::Class => tell_class(alloc, told, at, is_top, file, names, parts),
        Role::Interface => tell_interface(alloc, told, at, is_top, file, names, parts),
        Role::Includes => tell_path(alloc, told, at.file, file, names, parts),
        Role::Namespace | Role::Use | Role::Plain => Ok(()),
    }
}
