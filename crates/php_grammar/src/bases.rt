// Which nodes may stand before what.
ghost use Rattle.std.specs.Prelude.{◌≡◌};
ghost use Rattle.php_grammar.specs.Bases.{is_callee, is_class_base, is_list, is_member_base, is_offset_base, is_short_ternary, is_target, is_variable, is_variable_expression, role_of};

use php_tree::NodeKind;

/// What a node is to what stands behind it.
#[derive(Clone, Copy, Debug, PartialEq, Eq)]
pub enum Role {
    /// A variable.
    Variable,
    /// An offset.
    Element,
    /// A property.
    Property,
    /// A call.
    Call,
    /// An array or a text.
    Literal,
    /// A constant.
    Constant,
    /// An expression in parentheses.
    Paren,
    /// A list form.
    List,
    /// A `?:`.
    ShortTernary,
    /// Any other node.
    Other,
}

// The role of a node.
fn role_of(kind: NodeKind) -> Role
    ensures { result ≡ role_of kind }
{
    match kind {
        NodeKind::Block => Role::Other,
        NodeKind::Empty => Role::Other,
        NodeKind::ExprStmt => Role::Other,
        NodeKind::Echo => Role::Other,
        NodeKind::Html => Role::Other,
        NodeKind::Return => Role::Other,
        NodeKind::If => Role::Other,
        NodeKind::IfAlt => Role::Other,
        NodeKind::While => Role::Other,
        NodeKind::DoWhile => Role::Other,
        NodeKind::For => Role::Other,
        NodeKind::Foreach => Role::Other,
        NodeKind::Switch => Role::Other,
        NodeKind::Case => Role::Other,
        NodeKind::Break => Role::Other,
        NodeKind::Continue => Role::Other,
        NodeKind::Global => Role::Other,
        NodeKind::Statics => Role::Other,
        NodeKind::Unset => Role::Other,
        NodeKind::Throw => Role::Other,
        NodeKind::Try => Role::Other,
        NodeKind::Function => Role::Other,
        NodeKind::Param => Role::Other,
        NodeKind::TypeName => Role::Other,
        NodeKind::Class => Role::Other,
        NodeKind::Interface => Role::Other,
        NodeKind::Trait => Role::Other,
        NodeKind::Property => Role::Other,
        NodeKind::ClassConst => Role::Other,
        NodeKind::Method => Role::Other,
        NodeKind::TraitUse => Role::Other,
        NodeKind::Const => Role::Other,
        NodeKind::Namespace => Role::Other,
        NodeKind::Use => Role::Other,
        NodeKind::Declare => Role::Other,
        NodeKind::Goto => Role::Other,
        NodeKind::LabelStmt => Role::Other,
        NodeKind::Variable => Role::Variable,
        NodeKind::Number => Role::Other,
        NodeKind::Float => Role::Other,
        NodeKind::Text => Role::Literal,
        NodeKind::Quoted => Role::Other,
        NodeKind::Constant => Role::Constant,
        NodeKind::ClassConstant => Role::Constant,
        NodeKind::Array => Role::Literal,
        NodeKind::Item => Role::Other,
        NodeKind::List => Role::List,
        NodeKind::Paren => Role::Paren,
        NodeKind::Offset => Role::Element,
        NodeKind::BraceOffset => Role::Element,
        NodeKind::Prop => Role::Property,
        NodeKind::StaticProp => Role::Property,
        NodeKind::Call => Role::Call,
        NodeKind::MethodCall => Role::Call,
        NodeKind::StaticCall => Role::Call,
        NodeKind::Args => Role::Other,
        NodeKind::New => Role::Other,
        NodeKind::Isset => Role::Other,
        NodeKind::EmptyTest => Role::Other,
        NodeKind::Exit => Role::Other,
        NodeKind::Closure => Role::Other,
        NodeKind::Arrow => Role::Other,
        NodeKind::Include => Role::Other,
        NodeKind::EvalTest => Role::Other,
        NodeKind::Binary => Role::Other,
        NodeKind::Prefix => Role::Other,
        NodeKind::Postfix => Role::Other,
        NodeKind::Cast => Role::Other,
        NodeKind::Ternary => Role::Other,
        NodeKind::ShortTernary => Role::ShortTernary,
        NodeKind::Assign => Role::Other,
        NodeKind::AssignRef => Role::Other,
        NodeKind::CompoundAssign => Role::Other,
        NodeKind::InstanceOf => Role::Other,
        NodeKind::Print => Role::Other,
        NodeKind::Yield => Role::Other,
    }
}

// A node that may stand before an offset.
pub fn is_offset_base(kind: NodeKind) -> bool
    ensures { result ≡ is_offset_base kind }
{
    match role_of(kind) {
        Role::Variable
        | Role::Element
        | Role::Property
        | Role::Call
        | Role::Literal
        | Role::Constant
        | Role::Paren => true,
        Role::List | Role::ShortTernary | Role::Other => false,
    }
}

// A node that may stand before `->`.
pub fn is_member_base(kind: NodeKind) -> bool
    ensures { result ≡ is_member_base kind }
{
    match role_of(kind) {
        Role::Variable
        | Role::Element
        | Role::Property
        | Role::Call
        | Role::Literal
        | Role::Paren => true,
        Role::Constant | Role::List | Role::ShortTernary | Role::Other => false,
    }
}

// A node that may stand before arguments.
pub fn is_callee(kind: NodeKind) -> bool
    ensures { result ≡ is_callee kind }
{
    match role_of(kind) {
        Role::Variable | Role::Element | Role::Call | Role::Literal | Role::Paren => true,
        Role::Property | Role::Constant | Role::List | Role::ShortTernary | Role::Other => false,
    }
}

// A node that may stand before `::`.
pub fn is_class_base(kind: NodeKind) -> bool
    ensures { result ≡ is_class_base kind }
{
    match role_of(kind) {
        Role::Variable | Role::Element | Role::Property | Role::Call | Role::Paren => true,
        Role::Literal | Role::Constant | Role::List | Role::ShortTernary | Role::Other => false,
    }
}

// A node that may be written.
pub fn is_target(kind: NodeKind) -> bool
    ensures { result ≡ is_target kind }
{
    match role_of(kind) {
        Role::Variable | Role::Element | Role::Property => true,
        Role::Call
        | Role::Literal
        | Role::Constant
        | Role::Paren
        | Role::List
        | Role::ShortTernary
        | Role::Other => false,
    }
}

// A list form.
pub fn is_list(kind: NodeKind) -> bool
    ensures { result ≡ is_list kind }
{
    match role_of(kind) {
        Role::List => true,
        Role::Variable
        | Role::Element
        | Role::Property
        | Role::Call
        | Role::Literal
        | Role::Constant
        | Role::Paren
        | Role::ShortTernary
        | Role::Other => false,
    }
}

// A `?:`.
pub fn is_short_ternary(kind: NodeKind) -> bool
    ensures { result ≡ is_short_ternary kind }
{
    match role_of(kind) {
        Role::ShortTernary => true,
        Role::Variable
        | Role::Element
        | Role::Property
        | Role::Call
        | Role::Literal
        | Role::Constant
        | Role::Paren
        | Role::List
        | Role::Other => false,
    }
}

// A variable expression.
pub fn is_variable_expression(kind: NodeKind) -> bool
    ensures { result ≡ is_variable_expression kind }
{
    match role_of(kind) {
        Role::Variable | Role::Element | Role::Property | Role::Call => true,
        Role::Literal
        | Role::Constant
        | Role::Paren
        | Role::List
        | Role::ShortTernary
        | Role::Other => false,
    }
}

// A variable.
pub fn is_variable(kind: NodeKind) -> bool
    ensures { result ≡ is_variable kind }
{
    match role_of(kind) {
        Role::Variable => true,
        Role::Element
        | Role::Property
        | Role::Call
        | Role::Literal
        | Role::Constant
        | Role::Paren
        | Role::List
        | Role::ShortTernary
        | Role::Other => false,
    }
}
