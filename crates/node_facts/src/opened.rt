// What a node opens for the names in it.
ghost use Rattle.std.specs.Prelude.{◌≡◌, IfOk, codes};
ghost use Rattle.php_tree.specs.declared.kind.NodeKind.TheVariants as kinds;
ghost use Rattle.scope_names.specs.Sites as sites;
ghost use Rattle.scope_names.specs.Form.{texts as texts_in};
ghost use Rattle.node_names.specs.Seen.{form_of, texts_of};
ghost use Rattle.file_declarations.specs.Texts.{bytes_option};
ghost use Rattle.node_facts.specs.Opened.{names_in};
ghost use Rattle.node_facts.specs.Standing.{site_of};

use crate::scene::{Scene, names_of};
use file_declarations::{class_named, drop_first, first_word, space_named, texts, word_behind};
use node_names::{Piece, in_space, is_keyword};
use php_tree::NodeKind;
use std::alloc::{AllocError, Global};

/// What a node opens for the names in it: nothing, the body of a function or a method, a member of a class, code in no
/// class, a class by its name and its parent, an anonymous class by its parent, arguments of a `new`, a namespace.
#[derive(Drop)]
pub(crate) enum Opened {
    Nothing,
    Function,
    Method,
    Member,
    NoClass,
    Class(Vec<u8>, Option<Vec<u8>>),
    NoMembers,
    Anonymous(Option<Vec<u8>>),
    Namespace(Vec<u8>),
}

// The class that some words extend.
fn extended(alloc: Global, scene: Scene, words: &[&[u8]]) -> Result<Option<Vec<u8>>, AllocError>
    ensures { IfOk result (λ o. bytes_option o ≡ sites.extended (site_of scene.entry) (texts_of words.now)) }
{
    match word_behind(b"extends", words) {
        None => Ok(None),
        Some(name) => {
            let full = class_named(alloc, names_of(scene), name)?;
            Ok(Some(full))
        }
    }
}

// The full name that is declared behind a keyword.
fn declared_name(
    alloc: Global,
    keyword: &[u8],
    scene: Scene,
    words: &[&[u8]],
) -> Result<Vec<u8>, AllocError>
    ensures { IfOk result (λ v. v.items ≡ sites.declared_name keyword.now (site_of scene.entry) (texts_of words.now)) }
{
    match word_behind(keyword, words) {
        None => in_space(alloc, scene.spot.space, &[]),
        Some(name) => in_space(alloc, scene.spot.space, name),
    }
}

// What a Class opens.
fn class(alloc: Global, scene: Scene, form: &[Piece]) -> Result<Opened, AllocError>
    ensures { IfOk result (λ o. names_in o (site_of scene.entry) ≡ sites.names_within kinds.Class (form_of form.now) (site_of scene.entry)) }
{
    let words = texts(alloc, form)?;
    let name = declared_name(alloc, b"class", scene, words.as_slice())?;
    let parent = extended(alloc, scene, words.as_slice())?;
    Ok(Opened::Class(name, parent))
}

// What an Interface opens.
fn interface(alloc: Global, scene: Scene, form: &[Piece]) -> Result<Opened, AllocError>
    ensures { IfOk result (λ o. names_in o (site_of scene.entry) ≡ sites.names_within kinds.Interface (form_of form.now) (site_of scene.entry)) }
{
    let words = texts(alloc, form)?;
    let name = declared_name(alloc, b"interface", scene, words.as_slice())?;
    Ok(Opened::Class(name, None))
}

// What a New opens.
fn new(alloc: Global, scene: Scene, form: &[Piece]) -> Result<Opened, AllocError>
    ensures { IfOk result (λ o. names_in o (site_of scene.entry) ≡ sites.names_within kinds.New (form_of form.now) (site_of scene.entry)) }
{
    let words = texts(alloc, form)?;
    if is_keyword(b"class", first_word(drop_first(words.as_slice()))) {
        let parent = extended(alloc, scene, words.as_slice())?;
        return Ok(Opened::Anonymous(parent));
    }
    Ok(Opened::NoMembers)
}

// What a Namespace opens.
fn namespace(alloc: Global, scene: Scene, form: &[Piece]) -> Result<Opened, AllocError>
    ensures { IfOk result (λ o. names_in o (site_of scene.entry) ≡ sites.names_within kinds.Namespace (form_of form.now) (site_of scene.entry)) }
{
    let _scene = scene;
    let words = texts(alloc, form)?;
    let space = space_named(alloc, words.as_slice())?;
    Ok(Opened::Namespace(space))
}

/// What a node of a form opens. The only error is want of memory.
pub(crate) fn opens(
    alloc: Global,
    kind: NodeKind,
    scene: Scene,
    form: &[Piece],
) -> Result<Opened, AllocError>
    ensures { IfOk result (λ o. names_in o (site_of scene.entry) ≡ sites.names_within kind (form_of form.now) (site_of scene.entry)) }
{
    match kind {
        NodeKind::Function => Ok(Opened::Function),
        NodeKind::Method => Ok(Opened::Method),
        NodeKind::Property | NodeKind::ClassConst => Ok(Opened::Member),
        NodeKind::Trait => Ok(Opened::NoClass),
        NodeKind::Class => class(alloc, scene, form),
        NodeKind::Interface => interface(alloc, scene, form),
        NodeKind::New => new(alloc, scene, form),
        NodeKind::Namespace => namespace(alloc, scene, form),
        NodeKind::Block
        | NodeKind::Empty
        | NodeKind::ExprStmt
        | NodeKind::Echo
        | NodeKind::Html
        | NodeKind::Return
        | NodeKind::If
        | NodeKind::IfAlt
        | NodeKind::While
        | NodeKind::DoWhile
        | NodeKind::For
        | NodeKind::Foreach
        | NodeKind::Switch
        | NodeKind::Case
        | NodeKind::Break
        | NodeKind::Continue
        | NodeKind::Global
        | NodeKind::Statics
        | NodeKind::Unset
        | NodeKind::Throw
        | NodeKind::Try
        | NodeKind::Param
        | NodeKind::TypeName
        | NodeKind::TraitUse
        | NodeKind::Const
        | NodeKind::Use
        | NodeKind::Declare
        | NodeKind::Goto
        | NodeKind::LabelStmt
        | NodeKind::Variable
        | NodeKind::Number
        | NodeKind::Float
        | NodeKind::Text
        | NodeKind::Quoted
        | NodeKind::Constant
        | NodeKind::ClassConstant
        | NodeKind::Array
        | NodeKind::Item
        | NodeKind::List
        | NodeKind::Paren
        | NodeKind::Offset
        | NodeKind::BraceOffset
        | NodeKind::Prop
        | NodeKind::StaticProp
        | NodeKind::Call
        | NodeKind::MethodCall
        | NodeKind::StaticCall
        | NodeKind::Args
        | NodeKind::Isset
        | NodeKind::EmptyTest
        | NodeKind::Exit
        | NodeKind::Closure
        | NodeKind::Arrow
        | NodeKind::Include
        | NodeKind::EvalTest
        | NodeKind::Binary
        | NodeKind::Prefix
        | NodeKind::Postfix
        | NodeKind::Cast
        | NodeKind::Ternary
        | NodeKind::ShortTernary
        | NodeKind::Assign
        | NodeKind::AssignRef
        | NodeKind::CompoundAssign
        | NodeKind::InstanceOf
        | NodeKind::Print
        | NodeKind::Yield => Ok(Opened::Nothing),
    }
}
