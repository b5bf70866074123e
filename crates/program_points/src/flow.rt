// How evaluation runs through a node of a kind.
ghost use Rattle.std.specs.Prelude.{◌≡◌};
ghost use Rattle.program_points.specs.Flows as spec;

use php_tree::NodeKind;

/// How evaluation runs through a node: which row of the table of edges it has.
#[derive(Clone, Copy)]
pub enum Flow {
    InOrder,
    Ends,
    Nowhere,
    Alone,
    Branches,
    While,
    DoWhile,
    For,
    Foreach,
    Switch,
    Try,
    Break,
    Continue,
    Statics,
    Function,
    Arrow,
    Method,
    Ternary,
    Second,
    Isset,
    Operator,
}

pub(crate) fn flow_of(kind: NodeKind) -> Flow
    ensures { result ≡ spec.flow_of kind }
{
    match kind {
        NodeKind::If | NodeKind::IfAlt => Flow::Branches,
        NodeKind::While => Flow::While,
        NodeKind::DoWhile => Flow::DoWhile,
        NodeKind::For => Flow::For,
        NodeKind::Foreach => Flow::Foreach,
        NodeKind::Switch => Flow::Switch,
        NodeKind::Try => Flow::Try,
        NodeKind::Break => Flow::Break,
        NodeKind::Continue => Flow::Continue,
        NodeKind::Return | NodeKind::Throw | NodeKind::Exit => Flow::Ends,
        NodeKind::Statics => Flow::Statics,
        NodeKind::Function | NodeKind::Closure => Flow::Function,
        NodeKind::Arrow => Flow::Arrow,
        NodeKind::Method => Flow::Method,
        NodeKind::Class | NodeKind::Interface | NodeKind::Trait => Flow::Alone,
        NodeKind::Ternary => Flow::Ternary,
        NodeKind::ShortTernary => Flow::Second,
        NodeKind::Isset => Flow::Isset,
        NodeKind::Binary | NodeKind::CompoundAssign => Flow::Operator,
        NodeKind::Goto
        | NodeKind::Case
        | NodeKind::Param
        | NodeKind::TypeName
        | NodeKind::Property
        | NodeKind::ClassConst
        | NodeKind::TraitUse
        | NodeKind::Item
        | NodeKind::List
        | NodeKind::Args => Flow::Nowhere,
        NodeKind::Block
        | NodeKind::Empty
        | NodeKind::ExprStmt
        | NodeKind::Echo
        | NodeKind::Html
        | NodeKind::Global
        | NodeKind::Unset
        | NodeKind::Const
        | NodeKind::Namespace
        | NodeKind::Use
        | NodeKind::Declare
        | NodeKind::LabelStmt
        | NodeKind::Variable
        | NodeKind::Number
        | NodeKind::Float
        | NodeKind::Text
        | NodeKind::Quoted
        | NodeKind::Constant
        | NodeKind::ClassConstant
        | NodeKind::Array
        | NodeKind::Paren
        | NodeKind::Offset
        | NodeKind::BraceOffset
        | NodeKind::Prop
        | NodeKind::StaticProp
        | NodeKind::Call
        | NodeKind::MethodCall
        | NodeKind::StaticCall
        | NodeKind::New
        | NodeKind::EmptyTest
        | NodeKind::Include
        | NodeKind::EvalTest
        | NodeKind::Prefix
        | NodeKind::Postfix
        | NodeKind::Cast
        | NodeKind::Assign
        | NodeKind::AssignRef
        | NodeKind::InstanceOf
        | NodeKind::Print
        | NodeKind::Yield => Flow::InOrder,
    }
}
