// What a node declares.
ghost use Rattle.std.specs.Prelude.{◌≡◌, IfOk, codes, drop};
ghost use Rattle.scope_names.specs.Sites.{Site};
ghost use Rattle.node_names.specs.Compared as compared;
ghost use Rattle.node_names.specs.Declares as spec;
ghost use Rattle.node_names.specs.Seen.{form_of, text_if, texts_of};
ghost use Rattle.node_names.specs.Spelled as words;
ghost use Rattle.php_tree.specs.declared.kind.NodeKind.TheVariants as kinds;

use crate::comparing::{member_names, space_names};
use crate::name::Name;
use crate::name_sort::NameSort;
use crate::parted::{behind_keyword, first_member, without_ampersand};
use crate::piece::Piece;
use crate::spelled::{names, values, variables};
use php_tree::NodeKind;
use std::alloc::{AllocError, Global};

// The first of some words, if any.
fn first_of<'a, 'b>(texts: &'b [&'a [u8]]) -> &'b [&'a [u8]]
    ensures { texts_of result.now ≡ words.first_of (texts_of texts.now) }
{
    match texts {
        [] => texts,
        [_, ..] => &texts[..1],
    }
}

// One member's name, if there is one.
fn member(alloc: Global, sort: NameSort, word: Option<&[u8]>) -> Result<Vec<Name>, AllocError>
    ensures { IfOk result (λ ns. ns.items ≡ compared.names_of sort (text_if word.entry)) }
{
    match word {
        None => Ok(Vec::new(alloc)),
        Some(text) => member_names(alloc, sort, &[text]),
    }
}

// The function that a Function declares.
fn function(alloc: Global, form: &[Piece], space: &[u8]) -> Result<Vec<Name>, AllocError>
    ensures { IfOk result (λ ns. (s : Site) → s.space ≡ space.now →
        ns.items ≡ spec.declares kinds.Function (form_of form.now) s) }
{
    let words = names(alloc, form)?;
    space_names(alloc, NameSort::Function, space, first_of(words.as_slice()))
}

// The class that is declared behind a keyword.
fn class_behind(
    alloc: Global,
    keyword: &[u8],
    form: &[Piece],
    space: &[u8],
) -> Result<Vec<Name>, AllocError>
    ensures { IfOk result (λ ns. ns.items ≡ spec.class_behind keyword.now (form_of form.now) space.now) }
{
    let words = names(alloc, behind_keyword(keyword, form))?;
    space_names(alloc, NameSort::Class, space, first_of(words.as_slice()))
}

// The class that a Class declares.
fn class(alloc: Global, form: &[Piece], space: &[u8]) -> Result<Vec<Name>, AllocError>
    ensures { IfOk result (λ ns. (s : Site) → s.space ≡ space.now →
        ns.items ≡ spec.declares kinds.Class (form_of form.now) s) }
{
    class_behind(alloc, b"class", form, space)
}

// The interface that an Interface declares.
fn interface(alloc: Global, form: &[Piece], space: &[u8]) -> Result<Vec<Name>, AllocError>
    ensures { IfOk result (λ ns. (s : Site) → s.space ≡ space.now →
        ns.items ≡ spec.declares kinds.Interface (form_of form.now) s) }
{
    class_behind(alloc, b"interface", form, space)
}

// The constants that a Const declares.
fn constants(alloc: Global, form: &[Piece], space: &[u8]) -> Result<Vec<Name>, AllocError>
    ensures { IfOk result (λ ns. (s : Site) → s.space ≡ space.now →
        ns.items ≡ spec.declares kinds.Const (form_of form.now) s) }
{
    let words = names(alloc, form)?;
    space_names(alloc, NameSort::Constant, space, words.as_slice())
}

// The method that a Method declares.
fn method(alloc: Global, form: &[Piece]) -> Result<Vec<Name>, AllocError>
    ensures { IfOk result (λ ns. (s : Site) → ns.items ≡ spec.declares kinds.Method (form_of form.now) s) }
{
    let word = first_member(without_ampersand(behind_keyword(b"function", form)));
    member(alloc, NameSort::Method, word)
}

// The constants that a ClassConst declares.
fn class_constants(alloc: Global, form: &[Piece]) -> Result<Vec<Name>, AllocError>
    ensures { IfOk result (λ ns. (s : Site) → ns.items ≡ spec.declares kinds.ClassConst (form_of form.now) s) }
{
    let words = values(alloc, form)?;
    member_names(alloc, NameSort::ClassConstant, words.as_slice())
}

// The properties that a Property declares.
fn properties(alloc: Global, form: &[Piece]) -> Result<Vec<Name>, AllocError>
    ensures { IfOk result (λ ns. (s : Site) → ns.items ≡ spec.declares kinds.Property (form_of form.now) s) }
{
    let words = variables(alloc, form)?;
    member_names(alloc, NameSort::Property, words.as_slice())
}

// The names that a node declares. in the order of the source. The only error is want of memory.
pub fn declared_names(
    alloc: Global,
    kind: NodeKind,
    form: &[Piece],
    space: &[u8],
) -> Result<Vec<Name>, AllocError>
    ensures { IfOk result (λ ns. (s : Site) → s.space ≡ space.now → ns.items ≡ spec.declares kind (form_of form.now) s) }
{
    match kind {
        NodeKind::Function => function(alloc, form, space),
        NodeKind::Class => class(alloc, form, space),
        NodeKind::Interface => interface(alloc, form, space),
        NodeKind::Const => constants(alloc, form, space),
        NodeKind::Method => method(alloc, form),
        NodeKind::ClassConst => class_constants(alloc, form),
        NodeKind::Property => properties(alloc, form),
        NodeKind::Block
        | NodeKind::Empty
        | NodeKind::ExprStmt
        | NodeKind::Echo
        | NodeKind::Html
        | NodeKind::Return
        | NodeKind::If
        | NodeKind::IfAlt
        | NodeKind::While
        | NodeKind::DoWhile
        | NodeKind::For
        | NodeKind::Foreach
        | NodeKind::Switch
        | NodeKind::Case
        | NodeKind::Break
        | NodeKind::Continue
        | NodeKind::Global
        | NodeKind::Statics
        | NodeKind::Unset
        | NodeKind::Throw
        | NodeKind::Try
        | NodeKind::Param
        | NodeKind::TypeName
        | NodeKind::Trait
        | NodeKind::TraitUse
        | NodeKind::Namespace
        | NodeKind::Use
        | NodeKind::Declare
        | NodeKind::Goto
        | NodeKind::LabelStmt
        | NodeKind::Variable
        | NodeKind::Number
        | NodeKind::Float
        | NodeKind::Text
        | NodeKind::Quoted
        | NodeKind::Constant
        | NodeKind::ClassConstant
        | NodeKind::Array
        | NodeKind::Item
        | NodeKind::List
        | NodeKind::Paren
        | NodeKind::Offset
        | NodeKind::BraceOffset
        | NodeKind::Prop
        | NodeKind::StaticProp
        | NodeKind::Call
        | NodeKind::MethodCall
        | NodeKind::StaticCall
        | NodeKind::Args
        | NodeKind::New
        | NodeKind::Isset
        | NodeKind::EmptyTest
        | NodeKind::Exit
        | NodeKind::Closure
        | NodeKind::Arrow
        | NodeKind::Include
        | NodeKind::EvalTest
        | NodeKind::Binary
        | NodeKind::Prefix
        | NodeKind::Postfix
        | NodeKind::Cast
        | NodeKind::Ternary
        | NodeKind::ShortTernary
        | NodeKind::Assign
        | NodeKind::AssignRef
        | NodeKind::CompoundAssign
        | NodeKind::InstanceOf
        | NodeKind::Print
        | NodeKind::Yield => Ok(Vec::new(alloc)),
    }
}
