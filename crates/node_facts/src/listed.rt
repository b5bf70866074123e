// Which variables a node lists.
ghost use Rattle.std.specs.Prelude.{◌≡◌, ◌++◌, ◌∷◌, [], if◌then◌else◌, codes, map, IfOk, OnOk};
ghost use Rattle.php_rows.specs.Reading.{forest_in};
ghost use Rattle.node_names.specs.Seen.{form_of, texts_of};
ghost use Rattle.php_tree.specs.declared.kind.NodeKind.TheVariants as kinds;
ghost use Rattle.node_names.specs.Slots as spec;
ghost use Rattle.node_names.specs.Spelled.{spelled_variables};
ghost use Rattle.node_facts.specs.Dispatch.{list_of, listed_by, literal_of};
ghost use Rattle.node_facts.specs.Seen.{slot_in, slots_in};
ghost use Rattle.node_facts.specs.Standing.{standing_of};

use crate::scene::Scene;
use crate::slot_name::SlotName;
use crate::slots::{bytes, variable};
use crate::spelled::first_variable;
use file_declarations::{row_form, texts};
use node_names::{Piece, is_keyword, variables};
use php_rows::{Parts, Step};
use php_tree::NodeKind;
use span_edits::Bytes;
use std::alloc::{AllocError, Global};

// Two slots behind others.
fn add(
    path: &[u8],
    slots: &mut Vec<(SlotName, SlotName)>,
    first: SlotName,
    second: SlotName,
) -> Result<(), AllocError>
    ensures { OnOk result (map (slots_in path.now) slots.new.items ≡ map (slots_in path.now) slots.old.items ++ slots_in path.now (first, second) ∷ []) }
{
    let _path = path;
    slots.push((first, second))?;
    Ok(())
}

// A `global` of a name.
fn add_global(
    alloc: Global,
    slots: &mut Vec<(SlotName, SlotName)>,
    scene: Scene,
    name: &[u8],
) -> Result<(), AllocError>
    ensures { OnOk result (map (slots_in scene.entry.spot.path.now) slots.new.items
        ≡ map (slots_in scene.entry.spot.path.now) slots.old.items ++ spec.with_global (standing_of scene.entry) name.now ∷ []) }
{
    let own = variable(alloc, scene, name)?;
    let text = bytes(alloc, name)?;
    add(scene.spot.path, slots, own, SlotName::File(text))
}

// The name of a Variable, if it is literal.
fn variable_name(alloc: Global, parts: Parts) -> Result<Option<Bytes>, AllocError>
    ensures { IfOk result (λ o. list_of o ≡ literal_of kinds.Variable (forest_in parts.entry)) }
{
    let form = row_form(alloc, parts)?;
    match first_variable(form.as_slice()) {
        None => Ok(None),
        Some(name) => {
            let text = bytes(alloc, name)?;
            Ok(Some(Bytes::new(text)))
        }
    }
}

// The literal name of a node that is a variable, if it has one.
fn literal(alloc: Global, kind: NodeKind, parts: Parts) -> Result<Option<Bytes>, AllocError>
    ensures { IfOk result (λ o. list_of o ≡ literal_of kind (forest_in parts.entry)) }
{
    match kind {
        NodeKind::Variable => variable_name(alloc, parts),
        NodeKind::Block
        | NodeKind::Empty
        | NodeKind::ExprStmt
        | NodeKind::Echo
        | NodeKind::Html
        | NodeKind::Return
        | NodeKind::If
        | NodeKind::IfAlt
        | NodeKind::While
        | NodeKind::DoWhile
        | NodeKind::For
        | NodeKind::Foreach
        | NodeKind::Switch
        | NodeKind::Case
        | NodeKind::Break
        | NodeKind::Continue
        | NodeKind::Global
        | NodeKind::Statics
        | NodeKind::Unset
        | NodeKind::Throw
        | NodeKind::Try
        | NodeKind::Function
        | NodeKind::Param
        | NodeKind::TypeName
        | NodeKind::Class
        | NodeKind::Interface
        | NodeKind::Trait
        | NodeKind::Property
        | NodeKind::ClassConst
        | NodeKind::Method
        | NodeKind::TraitUse
        | NodeKind::Const
        | NodeKind::Namespace
        | NodeKind::Use
        | NodeKind::Declare
        | NodeKind::Goto
        | NodeKind::LabelStmt
        | NodeKind::Number
        | NodeKind::Float
        | NodeKind::Text
        | NodeKind::Quoted
        | NodeKind::Constant
        | NodeKind::ClassConstant
        | NodeKind::Array
        | NodeKind::Item
        | NodeKind::List
        | NodeKind::Paren
        | NodeKind::Offset
        | NodeKind::BraceOffset
        | NodeKind::Prop
        | NodeKind::StaticProp
        | NodeKind::Call
        | NodeKind::MethodCall
        | NodeKind::StaticCall
        | NodeKind::Args
        | NodeKind::New
        | NodeKind::Isset
        | NodeKind::EmptyTest
        | NodeKind::Exit
        | NodeKind::Closure
        | NodeKind::Arrow
        | NodeKind::Include
        | NodeKind::EvalTest
        | NodeKind::Binary
        | NodeKind::Prefix
        | NodeKind::Postfix
        | NodeKind::Cast
        | NodeKind::Ternary
        | NodeKind::ShortTernary
        | NodeKind::Assign
        | NodeKind::AssignRef
        | NodeKind::CompoundAssign
        | NodeKind::InstanceOf
        | NodeKind::Print
        | NodeKind::Yield => Ok(None),
    }
}

// A `global` of the literal name of a node that is a variable, if it has one.
fn add_literal(
    alloc: Global,
    slots: &mut Vec<(SlotName, SlotName)>,
    scene: Scene,
    kind: NodeKind,
    parts: Parts,
) -> Result<(), AllocError>
    ensures { OnOk result (map (slots_in scene.entry.spot.path.now) slots.new.items
        ≡ map (slots_in scene.entry.spot.path.now) slots.old.items ++ map (spec.with_global (standing_of scene.entry)) (literal_of kind (forest_in parts.entry))) }
{
    match literal(alloc, kind, parts)? {
        None => Ok(()),
        Some(name) => add_global(alloc, slots, scene, name.as_slice()),
    }
}

// The variables of a Global.
fn globals(
    alloc: Global,
    slots: &mut Vec<(SlotName, SlotName)>,
    scene: Scene,
    parts: Parts,
) -> Result<(), AllocError>
    ensures { OnOk result (map (slots_in scene.entry.spot.path.now) slots.new.items ≡ map (slots_in scene.entry.spot.path.now) slots.old.items
        ++ map (spec.with_global (standing_of scene.entry)) (spec.kid_variables (forest_in parts.entry))) }
{
    let mut left = parts;
    'parts: loop {
        match left.next() {
            None => return Ok(()),
            Some(Step::Leaf(_)) => {}
            Some(Step::Child(kind, _, inner)) => add_literal(alloc, slots, scene, kind, inner)?,
        }
    }
}

// The variables of a Statics.
fn statics(
    alloc: Global,
    slots: &mut Vec<(SlotName, SlotName)>,
    scene: Scene,
    words: &[&[u8]],
) -> Result<(), AllocError>
    ensures { OnOk result (map (slots_in scene.entry.spot.path.now) slots.new.items ≡ map (slots_in scene.entry.spot.path.now) slots.old.items
        ++ map (spec.with_static (standing_of scene.entry)) (texts_of words.now)) }
{
    for name in words {
        let own = variable(alloc, scene, name)?;
        let text = bytes(alloc, name)?;
        add(
            scene.spot.path,
            slots,
            own,
            SlotName::Static(scene.counts.number, text),
        )?;
    }
    Ok(())
}

// The variables of the catch parts of a Try.
fn caught(
    alloc: Global,
    slots: &mut Vec<(SlotName, SlotName)>,
    scene: Scene,
    words: &[&[u8]],
) -> Result<(), AllocError>
    ensures { OnOk result (map (slots_in scene.entry.spot.path.now) slots.new.items ≡ map (slots_in scene.entry.spot.path.now) slots.old.items
        ++ map (λ name. spec.twice (spec.variable (standing_of scene.entry) name)) (texts_of words.now)) }
{
    for name in words {
        let first = variable(alloc, scene, name)?;
        let second = variable(alloc, scene, name)?;
        add(scene.spot.path, slots, first, second)?;
    }
    Ok(())
}

// Whether a keyword is among some words.
fn has_keyword(keyword: &[u8], words: &[&[u8]]) -> bool
    ensures { result ≡ spec.has_keyword keyword.now (texts_of words.now) }
{
    let mut left = words;
    while let [word, behind @ ..] = left {
        if is_keyword(keyword, word) {
            return true;
        }
        left = behind;
    }
    false
}

// A property by its name.
fn property(
    alloc: Global,
    path: &[u8],
    is_static: bool,
    name: &[u8],
) -> Result<SlotName, AllocError>
    ensures { IfOk result (λ s. slot_in path.now s ≡ (if is_static then spec.static_property name.now else spec.instance_property name.now)) }
{
    let _path = path;
    let text = bytes(alloc, name)?;
    if is_static {
        return Ok(SlotName::StaticProperty(text));
    }
    Ok(SlotName::Property(text))
}

// The properties that a Property declares.
fn properties(
    alloc: Global,
    slots: &mut Vec<(SlotName, SlotName)>,
    scene: Scene,
    is_static: bool,
    words: &[&[u8]],
) -> Result<(), AllocError>
    ensures { OnOk result (map (slots_in scene.entry.spot.path.now) slots.new.items ≡ map (slots_in scene.entry.spot.path.now) slots.old.items
        ++ map (λ name. spec.twice (if is_static then spec.static_property name else spec.instance_property name)) (texts_of words.now)) }
{
    for name in words {
        let first = property(alloc, scene.spot.path, is_static, name)?;
        let second = property(alloc, scene.spot.path, is_static, name)?;
        add(scene.spot.path, slots, first, second)?;
    }
    Ok(())
}

// The variables of a Statics.
fn listed_statics(
    alloc: Global,
    slots: &mut Vec<(SlotName, SlotName)>,
    scene: Scene,
    form: &[Piece],
) -> Result<(), AllocError>
    ensures { OnOk result (map (slots_in scene.entry.spot.path.now) slots.new.items ≡ map (slots_in scene.entry.spot.path.now) slots.old.items
        ++ map (spec.with_static (standing_of scene.entry)) (spelled_variables (form_of form.now))) }
{
    let words = variables(alloc, form)?;
    statics(alloc, slots, scene, words.as_slice())
}

// The variables of the catch parts of a Try.
fn listed_caught(
    alloc: Global,
    slots: &mut Vec<(SlotName, SlotName)>,
    scene: Scene,
    form: &[Piece],
) -> Result<(), AllocError>
    ensures { OnOk result (map (slots_in scene.entry.spot.path.now) slots.new.items ≡ map (slots_in scene.entry.spot.path.now) slots.old.items
        ++ map (λ name. spec.twice (spec.variable (standing_of scene.entry) name)) (spelled_variables (form_of form.now))) }
{
    let words = variables(alloc, form)?;
    caught(alloc, slots, scene, words.as_slice())
}

// The properties that a Property declares.
fn listed_properties(
    alloc: Global,
    slots: &mut Vec<(SlotName, SlotName)>,
    scene: Scene,
    form: &[Piece],
) -> Result<(), AllocError>
    ensures { OnOk result (map (slots_in scene.entry.spot.path.now) slots.new.items ≡ map (slots_in scene.entry.spot.path.now) slots.old.items
        ++ map (λ name. spec.twice (spec.declared_property (form_of form.now) name)) (spelled_variables (form_of form.now))) }
{
    let all = texts(alloc, form)?;
    let words = variables(alloc, form)?;
    properties(
        alloc,
        slots,
        scene,
        has_keyword(b"static", all.as_slice()),
        words.as_slice(),
    )
}

/// The variables that a node of a form and of some parts lists, each with the slot to which it is linked there,
/// behind those of other nodes. The only error is want of memory.
pub(crate) fn add_listed(
    alloc: Global,
    slots: &mut Vec<(SlotName, SlotName)>,
    kind: NodeKind,
    scene: Scene,
    form: &[Piece],
    parts: Parts,
) -> Result<(), AllocError>
    ensures { OnOk result (map (slots_in scene.entry.spot.path.now) slots.new.items ≡ map (slots_in scene.entry.spot.path.now) slots.old.items
        ++ listed_by kind (form_of form.now) (forest_in parts.entry) (standing_of scene.entry)) }
{
    match kind {
        NodeKind::Global => globals(alloc, slots, scene, parts),
        NodeKind::Statics => listed_statics(alloc, slots, scene, form),
        NodeKind::Property => listed_properties(alloc, slots, scene, form),
        NodeKind::Try => listed_caught(alloc, slots, scene, form),
        NodeKind::Block
        | NodeKind::Empty
        | NodeKind::ExprStmt
        | NodeKind::Echo
        | NodeKind::Html
        | NodeKind::Return
        | NodeKind::If
        | NodeKind::IfAlt
        | NodeKind::While
        | NodeKind::DoWhile
        | NodeKind::For
        | NodeKind::Foreach
        | NodeKind::Switch
        | NodeKind::Case
        | NodeKind::Break
        | NodeKind::Continue
        | NodeKind::Unset
        | NodeKind::Throw
        | NodeKind::Function
        | NodeKind::Param
        | NodeKind::TypeName
        | NodeKind::Class
        | NodeKind::Interface
        | NodeKind::Trait
        | NodeKind::ClassConst
        | NodeKind::Method
        | NodeKind::TraitUse
        | NodeKind::Const
        | NodeKind::Namespace
        | NodeKind::Use
        | NodeKind::Declare
        | NodeKind::Goto
        | NodeKind::LabelStmt
        | NodeKind::Variable
        | NodeKind::Number
        | NodeKind::Float
        | NodeKind::Text
        | NodeKind::Quoted
        | NodeKind::Constant
        | NodeKind::ClassConstant
        | NodeKind::Array
        | NodeKind::Item
        | NodeKind::List
        | NodeKind::Paren
        | NodeKind::Offset
        | NodeKind::BraceOffset
        | NodeKind::Prop
        | NodeKind::StaticProp
        | NodeKind::Call
        | NodeKind::MethodCall
        | NodeKind::StaticCall
        | NodeKind::Args
        | NodeKind::New
        | NodeKind::Isset
        | NodeKind::EmptyTest
        | NodeKind::Exit
        | NodeKind::Closure
        | NodeKind::Arrow
        | NodeKind::Include
        | NodeKind::EvalTest
        | NodeKind::Binary
        | NodeKind::Prefix
        | NodeKind::Postfix
        | NodeKind::Cast
        | NodeKind::Ternary
        | NodeKind::ShortTernary
        | NodeKind::Assign
        | NodeKind::AssignRef
        | NodeKind::CompoundAssign
        | NodeKind::InstanceOf
        | NodeKind::Print
        | NodeKind::Yield => Ok(()),
    }
}
