// What a kind of node is to the names of its file.
ghost use Rattle.std.specs.Prelude.{◌≡◌, ◌&&◌};
ghost use Rattle.node_names.specs.Facts.{keeps_top as keeps};
ghost use Rattle.file_declarations.specs.Roles as spec;

use php_tree::NodeKind;

/// What a kind of node is to the names of its file: it declares names, and maybe extends classes, it includes a file, it
/// opens a namespace, it imports names, or it is none of these.
#[derive(Clone, Copy)]
pub(crate) enum Role {
    Declares,
    Class,
    Interface,
    Includes,
    Namespace,
    Use,
    Plain,
}

pub(crate) fn role_of(kind: NodeKind) -> Role
    ensures { result ≡ spec.role_of kind }
{
    match kind {
        NodeKind::Function
        | NodeKind::Property
        | NodeKind::ClassConst
        | NodeKind::Method
        | NodeKind::Const => Role::Declares,
        NodeKind::Class => Role::Class,
        NodeKind::Interface => Role::Interface,
        NodeKind::Include => Role::Includes,
        NodeKind::Namespace => Role::Namespace,
        NodeKind::Use => Role::Use,
        NodeKind::Block
        | NodeKind::Empty
        | NodeKind::ExprStmt
        | NodeKind::Echo
        | NodeKind::Html
        | NodeKind::Return
        | NodeKind::If
        | NodeKind::IfAlt
        | NodeKind::While
        | NodeKind::DoWhile
        | NodeKind::For
        | NodeKind::Foreach
        | NodeKind::Switch
        | NodeKind::Case
        | NodeKind::Break
        | NodeKind::Continue
        | NodeKind::Global
        | NodeKind::Statics
        | NodeKind::Unset
        | NodeKind::Throw
        | NodeKind::Try
        | NodeKind::Param
        | NodeKind::TypeName
        | NodeKind::Trait
        | NodeKind::TraitUse
        | NodeKind::Declare
        | NodeKind::Goto
        | NodeKind::LabelStmt
        | NodeKind::Variable
        | NodeKind::Number
        | NodeKind::Float
        | NodeKind::Text
        | NodeKind::Quoted
        | NodeKind::Constant
        | NodeKind::ClassConstant
        | NodeKind::Array
        | NodeKind::Item
        | NodeKind::List
        | NodeKind::Paren
        | NodeKind::Offset
        | NodeKind::BraceOffset
        | NodeKind::Prop
        | NodeKind::StaticProp
        | NodeKind::Call
        | NodeKind::MethodCall
        | NodeKind::StaticCall
        | NodeKind::Args
        | NodeKind::New
        | NodeKind::Isset
        | NodeKind::EmptyTest
        | NodeKind::Exit
        | NodeKind::Closure
        | NodeKind::Arrow
        | NodeKind::EvalTest
        | NodeKind::Binary
        | NodeKind::Prefix
        | NodeKind::Postfix
        | NodeKind::Cast
        | NodeKind::Ternary
        | NodeKind::ShortTernary
        | NodeKind::Assign
        | NodeKind::AssignRef
        | NodeKind::CompoundAssign
        | NodeKind::InstanceOf
        | NodeKind::Print
        | NodeKind::Yield => Role::Plain,
    }
}

/// Whether what stands in a node is unconditional, where the node is or isn't.
pub(crate) fn stays_top(kind: NodeKind, is_top: bool) -> bool
    ensures { result ≡ (keeps kind && is_top) }
{
    matches!(kind, NodeKind::Namespace | NodeKind::Declare) && is_top
}

/// Whether a node opens a namespace.
pub(crate) fn is_space(kind: NodeKind) -> bool
    ensures { result ≡ spec.is_space kind }
{
    matches!(kind, NodeKind::Namespace)
}
