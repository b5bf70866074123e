// What kinds of nodes use.
ghost use Rattle.std.specs.Prelude.{◌≡◌};
ghost use Rattle.node_facts.specs.UseRoles as spec;

use php_tree::NodeKind;

/// Where a kind of node has the names that it uses: behind the name of a class or interface, all its names, a type, a
/// function, a constant, behind `::` or `->`, in a `use`, or nowhere.
#[derive(Clone, Copy)]
pub(crate) enum UseRole {
    Class,
    Interface,
    Classes,
    TypeName,
    Call,
    Constant,
    ClassConstant,
    StaticCall,
    StaticProp,
    Prop,
    MethodCall,
    Import,
    Nothing,
}

// Where a kind of node has names of classes alone.
fn class_role(kind: NodeKind) -> UseRole
    ensures { result ≡ spec.class_role kind }
{
    match kind {
        NodeKind::Class => UseRole::Class,
        NodeKind::Interface => UseRole::Interface,
        NodeKind::New | NodeKind::Try | NodeKind::InstanceOf => UseRole::Classes,
        NodeKind::TypeName => UseRole::TypeName,
        NodeKind::Block
        | NodeKind::Empty
        | NodeKind::ExprStmt
        | NodeKind::Echo
        | NodeKind::Html
        | NodeKind::Return
        | NodeKind::If
        | NodeKind::IfAlt
        | NodeKind::While
        | NodeKind::DoWhile
        | NodeKind::For
        | NodeKind::Foreach
        | NodeKind::Switch
        | NodeKind::Case
        | NodeKind::Break
        | NodeKind::Continue
        | NodeKind::Global
        | NodeKind::Statics
        | NodeKind::Unset
        | NodeKind::Throw
        | NodeKind::Function
        | NodeKind::Param
        | NodeKind::Trait
        | NodeKind::Property
        | NodeKind::ClassConst
        | NodeKind::Method
        | NodeKind::TraitUse
        | NodeKind::Const
        | NodeKind::Namespace
        | NodeKind::Use
        | NodeKind::Declare
        | NodeKind::Goto
        | NodeKind::LabelStmt
        | NodeKind::Variable
        | NodeKind::Number
        | NodeKind::Float
        | NodeKind::Text
        | NodeKind::Quoted
        | NodeKind::Constant
        | NodeKind::ClassConstant
        | NodeKind::Array
        | NodeKind::Item
        | NodeKind::List
        | NodeKind::Paren
        | NodeKind::Offset
        | NodeKind::BraceOffset
        | NodeKind::Prop
        | NodeKind::StaticProp
        | NodeKind::Call
        | NodeKind::MethodCall
        | NodeKind::StaticCall
        | NodeKind::Args
        | NodeKind::Isset
        | NodeKind::EmptyTest
        | NodeKind::Exit
        | NodeKind::Closure
        | NodeKind::Arrow
        | NodeKind::Include
        | NodeKind::EvalTest
        | NodeKind::Binary
        | NodeKind::Prefix
        | NodeKind::Postfix
        | NodeKind::Cast
        | NodeKind::Ternary
        | NodeKind::ShortTernary
        | NodeKind::Assign
        | NodeKind::AssignRef
        | NodeKind::CompoundAssign
        | NodeKind::Print
        | NodeKind::Yield => UseRole::Nothing,
    }
}

// Where a kind of node has other names.
fn other_role(kind: NodeKind) -> UseRole
    ensures { result ≡ spec.other_role kind }
{
    match kind {
        NodeKind::Call => UseRole::Call,
        NodeKind::Constant => UseRole::Constant,
        NodeKind::ClassConstant => UseRole::ClassConstant,
        NodeKind::StaticCall => UseRole::StaticCall,
        NodeKind::StaticProp => UseRole::StaticProp,
        NodeKind::Prop => UseRole::Prop,
        NodeKind::MethodCall => UseRole::MethodCall,
        NodeKind::Use => UseRole::Import,
        NodeKind::Block
        | NodeKind::Empty
        | NodeKind::ExprStmt
        | NodeKind::Echo
        | NodeKind::Html
        | NodeKind::Return
        | NodeKind::If
        | NodeKind::IfAlt
        | NodeKind::While
        | NodeKind::DoWhile
        | NodeKind::For
        | NodeKind::Foreach
        | NodeKind::Switch
        | NodeKind::Case
        | NodeKind::Break
        | NodeKind::Continue
        | NodeKind::Global
        | NodeKind::Statics
        | NodeKind::Unset
        | NodeKind::Throw
        | NodeKind::Try
        | NodeKind::Function
        | NodeKind::Param
        | NodeKind::TypeName
        | NodeKind::Class
        | NodeKind::Interface
        | NodeKind::Trait
        | NodeKind::Property
        | NodeKind::ClassConst
        | NodeKind::Method
        | NodeKind::TraitUse
        | NodeKind::Const
        | NodeKind::Namespace
        | NodeKind::Declare
        | NodeKind::Goto
        | NodeKind::LabelStmt
        | NodeKind::Variable
        | NodeKind::Number
        | NodeKind::Float
        | NodeKind::Text
        | NodeKind::Quoted
        | NodeKind::Array
        | NodeKind::Item
        | NodeKind::List
        | NodeKind::Paren
        | NodeKind::Offset
        | NodeKind::BraceOffset
        | NodeKind::Args
        | NodeKind::New
        | NodeKind::Isset
        | NodeKind::EmptyTest
        | NodeKind::Exit
        | NodeKind::Closure
        | NodeKind::Arrow
        | NodeKind::Include
        | NodeKind::EvalTest
        | NodeKind::Binary
        | NodeKind::Prefix
        | NodeKind::Postfix
        | NodeKind::Cast
        | NodeKind::Ternary
        | NodeKind::ShortTernary
        | NodeKind::Assign
        | NodeKind::AssignRef
        | NodeKind::CompoundAssign
        | NodeKind::InstanceOf
        | NodeKind::Print
        | NodeKind::Yield => UseRole::Nothing,
    }
}

pub(crate) fn use_role(kind: NodeKind) -> UseRole
    ensures { result ≡ spec.use_role kind }
{
    match class_role(kind) {
        UseRole::Nothing => other_role(kind),
        UseRole::Class => UseRole::Class,
        UseRole::Interface => UseRole::Interface,
        UseRole::Classes => UseRole::Classes,
        UseRole::TypeName => UseRole::TypeName,
        UseRole::Call => UseRole::Call,
        UseRole::Constant => UseRole::Constant,
        UseRole::ClassConstant => UseRole::ClassConstant,
        UseRole::StaticCall => UseRole::StaticCall,
        UseRole::StaticProp => UseRole::StaticProp,
        UseRole::Prop => UseRole::Prop,
        UseRole::MethodCall => UseRole::MethodCall,
        UseRole::Import => UseRole::Import,
    }
}
