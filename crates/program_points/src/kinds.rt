// What kinds of nodes are to evaluation.
ghost use Rattle.std.specs.Prelude.{◌≡◌};
ghost use Rattle.program_points.specs.Edges as edges;
ghost use Rattle.program_points.specs.Pieces as spec;

use php_tree::NodeKind;

/// What a kind of node is to evaluation: a statement, an expression, a part of one that is looked through, or another
/// node.
#[derive(Clone, Copy)]
pub enum Sort {
    Statement,
    Expression,
    LookedThrough,
    Other,
}

pub(crate) fn sort_of(kind: NodeKind) -> Sort
    ensures { result ≡ spec.sort_of kind }
{
    match kind {
        NodeKind::Block
        | NodeKind::Empty
        | NodeKind::ExprStmt
        | NodeKind::Echo
        | NodeKind::Html
        | NodeKind::Return
        | NodeKind::If
        | NodeKind::IfAlt => Sort::Statement,
        NodeKind::While
        | NodeKind::DoWhile
        | NodeKind::For
        | NodeKind::Foreach
        | NodeKind::Switch
        | NodeKind::Break
        | NodeKind::Continue
        | NodeKind::Global => Sort::Statement,
        NodeKind::Statics
        | NodeKind::Unset
        | NodeKind::Throw
        | NodeKind::Try
        | NodeKind::Function
        | NodeKind::Class
        | NodeKind::Interface => Sort::Statement,
        NodeKind::Trait
        | NodeKind::Const
        | NodeKind::Namespace
        | NodeKind::Use
        | NodeKind::Declare
        | NodeKind::Goto
        | NodeKind::LabelStmt => Sort::Statement,
        NodeKind::Variable
        | NodeKind::Number
        | NodeKind::Float
        | NodeKind::Text
        | NodeKind::Quoted
        | NodeKind::Constant
        | NodeKind::ClassConstant
        | NodeKind::Array
        | NodeKind::Paren => Sort::Expression,
        NodeKind::Offset
        | NodeKind::BraceOffset
        | NodeKind::Prop
        | NodeKind::StaticProp
        | NodeKind::Call
        | NodeKind::MethodCall
        | NodeKind::StaticCall
        | NodeKind::New
        | NodeKind::Isset => Sort::Expression,
        NodeKind::EmptyTest
        | NodeKind::Exit
        | NodeKind::Closure
        | NodeKind::Arrow
        | NodeKind::Include
        | NodeKind::EvalTest
        | NodeKind::Binary
        | NodeKind::Prefix
        | NodeKind::Postfix => Sort::Expression,
        NodeKind::Cast
        | NodeKind::Ternary
        | NodeKind::ShortTernary
        | NodeKind::Assign
        | NodeKind::AssignRef
        | NodeKind::CompoundAssign
        | NodeKind::InstanceOf
        | NodeKind::Print
        | NodeKind::Yield => Sort::Expression,
        NodeKind::Item | NodeKind::List | NodeKind::Args => Sort::LookedThrough,
        NodeKind::Case
        | NodeKind::Param
        | NodeKind::TypeName
        | NodeKind::Property
        | NodeKind::ClassConst
        | NodeKind::Method
        | NodeKind::TraitUse => Sort::Other,
    }
}

/// Whether a node has points.
pub(crate) fn has_points(kind: NodeKind) -> bool
    ensures { result ≡ spec.has_points kind }
{
    match sort_of(kind) {
        Sort::Statement | Sort::Expression => true,
        Sort::LookedThrough | Sort::Other => false,
    }
}

/// What no jump leads out of.
pub(crate) fn is_body(kind: NodeKind) -> bool
    ensures { result ≡ edges.is_body kind }
{
    matches!(
        kind,
        NodeKind::Function
            | NodeKind::Class
            | NodeKind::Interface
            | NodeKind::Trait
            | NodeKind::Closure
            | NodeKind::Arrow
            | NodeKind::New
    )
}

/// What is evaluated elsewhere than where it stands.
pub(crate) fn is_elsewhere(kind: NodeKind) -> bool
    ensures { result ≡ edges.is_elsewhere kind }
{
    matches!(
        kind,
        NodeKind::Function
            | NodeKind::Method
            | NodeKind::Closure
            | NodeKind::Arrow
            | NodeKind::Class
            | NodeKind::Interface
            | NodeKind::Trait
            | NodeKind::Property
            | NodeKind::ClassConst
    )
}

pub(crate) fn is_case(kind: NodeKind) -> bool
    ensures { result ≡ spec.is_case kind }
{
    matches!(kind, NodeKind::Case)
}

pub(crate) fn is_param(kind: NodeKind) -> bool
    ensures { result ≡ spec.is_param kind }
{
    matches!(kind, NodeKind::Param)
}

pub(crate) fn is_loop(kind: NodeKind) -> bool
    ensures { result ≡ edges.is_loop kind }
{
    matches!(
        kind,
        NodeKind::While | NodeKind::DoWhile | NodeKind::For | NodeKind::Foreach | NodeKind::Switch
    )
}

pub(crate) fn is_try(kind: NodeKind) -> bool
    ensures { result ≡ edges.is_try kind }
{
    matches!(kind, NodeKind::Try)
}

/// Whether a jump is a `break`, if a node is a jump.
pub(crate) fn jump_of(kind: NodeKind) -> Option<bool>
    ensures { result ≡ edges.jump_of kind }
{
    if matches!(kind, NodeKind::Break) {
        return Some(true);
    }
    if matches!(kind, NodeKind::Continue) {
        return Some(false);
    }
    None
}
