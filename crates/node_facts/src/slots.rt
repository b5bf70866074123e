// Which slot a node names.
ghost use Rattle.std.specs.Prelude.{◌≡◌, ◌++◌, codes, map, IfOk, OnOk, option_map};
ghost use Rattle.php_tree.specs.declared.kind.NodeKind.TheVariants as kinds;
ghost use Rattle.node_names.specs.Seen.{form_of, text_if};
ghost use Rattle.node_names.specs.Slots as spec;
ghost use Rattle.node_facts.specs.Flat.{items_if};
ghost use Rattle.node_facts.specs.Seen.{slot_in};
ghost use Rattle.node_facts.specs.Standing.{standing_of};

use crate::scene::Scene;
use crate::slot_name::SlotName;
use crate::spelled::first_variable;
use node_names::{Piece, behind_text, first_member, variables};
use php_tree::NodeKind;
use std::alloc::{AllocError, Global};

// Whether a variable is that of the files' level in every body.
fn is_everywhere(name: &[u8]) -> bool
    ensures { result ≡ spec.is_everywhere name.now }
{
    b"_GET".as_slice() == name || b"_POST".as_slice() == name
}

/// Equal bytes. The only error is want of memory.
pub(crate) fn bytes(alloc: Global, text: &[u8]) -> Result<Vec<u8>, AllocError>
    ensures { IfOk result (λ v. v.items ≡ text.now) }
{
    let bytes = Vec::from_slice(alloc, text)?;
    Ok(bytes)
}

// A variable of the innermost body around.
fn own_variable(scene: Scene, name: Vec<u8>) -> SlotName
    ensures { slot_in scene.entry.spot.path.now result ≡ spec.own_variable (standing_of scene.entry) name.items }
{
    match scene.spot.closure {
        Some(number) => SlotName::Closure(number, name),
        None => match scene.spot.body {
            Some(number) => SlotName::Body(number, name),
            None => SlotName::File(name),
        },
    }
}

/// The slot of a variable. The only error is want of memory.
pub(crate) fn variable(alloc: Global, scene: Scene, name: &[u8]) -> Result<SlotName, AllocError>
    ensures { IfOk result (λ s. slot_in scene.entry.spot.path.now s ≡ spec.variable (standing_of scene.entry) name.now) }
{
    let text = bytes(alloc, name)?;
    if is_everywhere(name) {
        return Ok(SlotName::File(text));
    }
    Ok(own_variable(scene, text))
}

// The slot of a variable, if there is one.
fn variable_if(
    alloc: Global,
    scene: Scene,
    name: Option<&[u8]>,
) -> Result<Option<SlotName>, AllocError>
    ensures { IfOk result (λ s. option_map (slot_in scene.entry.spot.path.now) s ≡ spec.first_slot (spec.variable (standing_of scene.entry)) (text_if name.entry)) }
{
    match name {
        None => Ok(None),
        Some(text) => {
            let slot = variable(alloc, scene, text)?;
            Ok(Some(slot))
        }
    }
}

// The slot of a Variable.
fn variable_slot(
    alloc: Global,
    scene: Scene,
    form: &[Piece],
) -> Result<Option<SlotName>, AllocError>
    ensures { IfOk result (λ s. option_map (slot_in scene.entry.spot.path.now) s ≡ spec.slot kinds.Variable (form_of form.now) (standing_of scene.entry)) }
{
    variable_if(alloc, scene, first_variable(form))
}

// The slot of a Param.
fn param_slot(alloc: Global, scene: Scene, form: &[Piece]) -> Result<Option<SlotName>, AllocError>
    ensures { IfOk result (λ s. option_map (slot_in scene.entry.spot.path.now) s ≡ spec.slot kinds.Param (form_of form.now) (standing_of scene.entry)) }
{
    let words = variables(alloc, form)?;
    match words.as_slice() {
        [] => Ok(None),
        [name, ..] => {
            let slot = variable(alloc, scene, name)?;
            Ok(Some(slot))
        }
    }
}

// The slot of a Prop.
fn prop_slot(alloc: Global, scene: Scene, form: &[Piece]) -> Result<Option<SlotName>, AllocError>
    ensures { IfOk result (λ s. option_map (slot_in scene.entry.spot.path.now) s ≡ spec.slot kinds.Prop (form_of form.now) (standing_of scene.entry)) }
{
    let _scene = scene;
    match first_member(behind_text(b"->", form)) {
        None => Ok(None),
        Some(name) => {
            let text = bytes(alloc, name)?;
            Ok(Some(SlotName::Property(text)))
        }
    }
}

// The slot of a StaticProp.
fn static_slot(alloc: Global, scene: Scene, form: &[Piece]) -> Result<Option<SlotName>, AllocError>
    ensures { IfOk result (λ s. option_map (slot_in scene.entry.spot.path.now) s ≡ spec.slot kinds.StaticProp (form_of form.now) (standing_of scene.entry)) }
{
    let _scene = scene;
    match first_variable(behind_text(b"::", form)) {
        None => Ok(None),
        Some(name) => {
            let text = bytes(alloc, name)?;
            Ok(Some(SlotName::StaticProperty(text)))
        }
    }
}

// The slot that a node of a form names, if it names one.
fn slot(
    alloc: Global,
    kind: NodeKind,
    scene: Scene,
    form: &[Piece],
) -> Result<Option<SlotName>, AllocError>
    ensures { IfOk result (λ s. option_map (slot_in scene.entry.spot.path.now) s ≡ spec.slot kind (form_of form.now) (standing_of scene.entry)) }
{
    match kind {
        NodeKind::Variable => variable_slot(alloc, scene, form),
        NodeKind::Param => param_slot(alloc, scene, form),
        NodeKind::Prop => prop_slot(alloc, scene, form),
        NodeKind::StaticProp => static_slot(alloc, scene, form),
        NodeKind::Block
        | NodeKind::Empty
        | NodeKind::ExprStmt
        | NodeKind::Echo
        | NodeKind::Html
        | NodeKind::Return
        | NodeKind::If
        | NodeKind::IfAlt
        | NodeKind::While
        | NodeKind::DoWhile
        | NodeKind::For
        | NodeKind::Foreach
        | NodeKind::Switch
        | NodeKind::Case
        | NodeKind::Break
        | NodeKind::Continue
        | NodeKind::Global
        | NodeKind::Statics
        | NodeKind::Unset
        | NodeKind::Throw
        | NodeKind::Try
        | NodeKind::Function
        | NodeKind::TypeName
        | NodeKind::Class
        | NodeKind::Interface
        | NodeKind::Trait
        | NodeKind::Property
        | NodeKind::ClassConst
        | NodeKind::Method
        | NodeKind::TraitUse
        | NodeKind::Const
        | NodeKind::Namespace
        | NodeKind::Use
        | NodeKind::Declare
        | NodeKind::Goto
        | NodeKind::LabelStmt
        | NodeKind::Number
        | NodeKind::Float
        | NodeKind::Text
        | NodeKind::Quoted
        | NodeKind::Constant
        | NodeKind::ClassConstant
        | NodeKind::Array
        | NodeKind::Item
        | NodeKind::List
        | NodeKind::Paren
        | NodeKind::Offset
        | NodeKind::BraceOffset
        | NodeKind::Call
        | NodeKind::MethodCall
        | NodeKind::StaticCall
        | NodeKind::Args
        | NodeKind::New
        | NodeKind::Isset
        | NodeKind::EmptyTest
        | NodeKind::Exit
        | NodeKind::Closure
        | NodeKind::Arrow
        | NodeKind::Include
        | NodeKind::EvalTest
        | NodeKind::Binary
        | NodeKind::Prefix
        | NodeKind::Postfix
        | NodeKind::Cast
        | NodeKind::Ternary
        | NodeKind::ShortTernary
        | NodeKind::Assign
        | NodeKind::AssignRef
        | NodeKind::CompoundAssign
        | NodeKind::InstanceOf
        | NodeKind::Print
        | NodeKind::Yield => Ok(None),
    }
}

// A slot behind others, if there is one.
fn add_if(path: &[u8], slots: &mut Vec<SlotName>, slot: Option<SlotName>) -> Result<(), AllocError>
    ensures { OnOk result (map (slot_in path.now) slots.new.items ≡ map (slot_in path.now) slots.old.items ++ items_if (option_map (slot_in path.now) slot)) }
{
    let _path = path;
    if let Some(one) = slot {
        slots.push(one)?;
    }
    Ok(())
}

/// The slot that a node of a form names, if it names one, behind those of other nodes. The only error is want of memory.
pub(crate) fn add_slot(
    alloc: Global,
    slots: &mut Vec<SlotName>,
    kind: NodeKind,
    scene: Scene,
    form: &[Piece],
) -> Result<(), AllocError>
    ensures { OnOk result (map (slot_in scene.entry.spot.path.now) slots.new.items ≡ map (slot_in scene.entry.spot.path.now) slots.old.items
        ++ items_if (spec.slot kind (form_of form.now) (standing_of scene.entry))) }
{
    let own = slot(alloc, kind, scene, form)?;
    add_if(scene.spot.path, slots, own)
}
