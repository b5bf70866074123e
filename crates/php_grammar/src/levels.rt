// The levels of operators: 1 is the tightest, 24 the loosest. The only place that has them.
ghost use Rattle.std.specs.Prelude.{◌≡◌};
ghost use Rattle.php_rows.specs.Reading.{forest_in};
ghost use Rattle.php_grammar.specs.Levels.{binary_items, binary_level, dot_items, dot_level, first_leaf, is_alone, left_limit, level, middle_leaf, prefix_level};

use php_forms::item::Item::{self, Node as Operand, Word};
use php_forms::item::{NOTHING, Sort};
use php_rows::{Parts, Step};
use php_terminals::terminal::Terminal;
use php_tree::{NodeKind, Version};

// The level of `.`: 7.4 has it with `+` and `-`, 8.3 behind the shifts.
fn dot_level(version: Version) -> u8
    ensures { result ≡ dot_level version }
{
    match version {
        Version::V74 => 7,
        Version::V83 => 9,
    }
}

/// The level of an operator between two operands, or 0 where it is none.
pub fn binary_level(version: Version, operator: Terminal) -> u8
    ensures { result ≡ binary_level version operator }
{
    match operator {
        Terminal::Power => 2,
        Terminal::Factor => 6,
        Terminal::Plus => 7,
        Terminal::Minus => 7,
        Terminal::Shift => 8,
        Terminal::Order => 10,
        Terminal::Equality => 11,
        Terminal::Ampersand => 12,
        Terminal::Caret => 13,
        Terminal::Bar => 14,
        Terminal::BooleanAnd => 15,
        Terminal::BooleanOr => 16,
        Terminal::Coalesce => 17,
        Terminal::And => 21,
        Terminal::Xor => 22,
        Terminal::Or => 23,
        Terminal::Dot => dot_level(version),
        _ => 0,
    }
}

/// The loosest level of the left operand: that of the operator where it groups to the left, else a tighter one.
pub fn left_limit(version: Version, operator: Terminal) -> u8
    ensures { result ≡ left_limit version operator }
{
    match operator {
        Terminal::Power => 1,
        Terminal::Factor => 6,
        Terminal::Plus => 7,
        Terminal::Minus => 7,
        Terminal::Shift => 8,
        Terminal::Order => 9,
        Terminal::Equality => 10,
        Terminal::Ampersand => 12,
        Terminal::Caret => 13,
        Terminal::Bar => 14,
        Terminal::BooleanAnd => 15,
        Terminal::BooleanOr => 16,
        Terminal::Coalesce => 16,
        Terminal::And => 21,
        Terminal::Xor => 22,
        Terminal::Or => 23,
        Terminal::Dot => dot_level(version),
        _ => 0,
    }
}

static POWER: [Item; 2] = [Word(Terminal::BinaryOperator), Operand(Sort::Operand(2))];

static FACTOR: [Item; 2] = [Word(Terminal::BinaryOperator), Operand(Sort::Operand(5))];

static PLUS: [Item; 2] = [Word(Terminal::BinaryOperator), Operand(Sort::Operand(6))];

static SHIFT: [Item; 2] = [Word(Terminal::BinaryOperator), Operand(Sort::Operand(7))];

static ORDER: [Item; 2] = [Word(Terminal::BinaryOperator), Operand(Sort::Operand(9))];

static EQUALITY: [Item; 2] = [Word(Terminal::BinaryOperator), Operand(Sort::Operand(10))];

static AMPERSAND: [Item; 2] = [Word(Terminal::BinaryOperator), Operand(Sort::Operand(11))];

static CARET: [Item; 2] = [Word(Terminal::BinaryOperator), Operand(Sort::Operand(12))];

static BAR: [Item; 2] = [Word(Terminal::BinaryOperator), Operand(Sort::Operand(13))];

static BOOLEAN_AND: [Item; 2] = [Word(Terminal::BinaryOperator), Operand(Sort::Operand(14))];

static BOOLEAN_OR: [Item; 2] = [Word(Terminal::BinaryOperator), Operand(Sort::Operand(15))];

static COALESCE: [Item; 2] = [Word(Terminal::BinaryOperator), Operand(Sort::Operand(17))];

static AND: [Item; 2] = [Word(Terminal::BinaryOperator), Operand(Sort::Operand(20))];

static XOR: [Item; 2] = [Word(Terminal::BinaryOperator), Operand(Sort::Operand(21))];

static OR: [Item; 2] = [Word(Terminal::BinaryOperator), Operand(Sort::Operand(22))];

static DOT_74: [Item; 2] = [Word(Terminal::BinaryOperator), Operand(Sort::Operand(6))];

static DOT_83: [Item; 2] = [Word(Terminal::BinaryOperator), Operand(Sort::Operand(8))];

// The operator `.` and its right operand.
fn dot_items(version: Version) -> &'static [Item]
    ensures { result.now ≡ dot_items version }
{
    match version {
        Version::V74 => &DOT_74,
        Version::V83 => &DOT_83,
    }
}

/// The operator and its right operand: as loose as the operator where it groups to the right, else tighter.
pub fn binary_items(version: Version, operator: Terminal) -> &'static [Item]
    ensures { result.now ≡ binary_items version operator }
{
    match operator {
        Terminal::Power => &POWER,
        Terminal::Factor => &FACTOR,
        Terminal::Plus => &PLUS,
        Terminal::Minus => &PLUS,
        Terminal::Shift => &SHIFT,
        Terminal::Order => &ORDER,
        Terminal::Equality => &EQUALITY,
        Terminal::Ampersand => &AMPERSAND,
        Terminal::Caret => &CARET,
        Terminal::Bar => &BAR,
        Terminal::BooleanAnd => &BOOLEAN_AND,
        Terminal::BooleanOr => &BOOLEAN_OR,
        Terminal::Coalesce => &COALESCE,
        Terminal::And => &AND,
        Terminal::Xor => &XOR,
        Terminal::Or => &OR,
        Terminal::Dot => dot_items(version),
        _ => &NOTHING,
    }
}

// The class of the first part of a node of the kind, where that is a token.
fn first_leaf(kind: NodeKind, parts: Parts<'_>) -> Terminal
    ensures { result ≡ first_leaf (kind, forest_in parts.entry) }
{
    let mut left = parts;
    match left.next() {
        None => Terminal::End,
        Some(Step::Leaf(mark)) => mark.class,
        Some(Step::Child(_, _, _)) => Terminal::End,
    }
}

// The class of the second part, where that is a token behind a node.
fn middle_leaf(kind: NodeKind, parts: Parts<'_>) -> Terminal
    ensures { result ≡ middle_leaf (kind, forest_in parts.entry) }
{
    let mut left = parts;
    match left.next() {
        None => Terminal::End,
        Some(Step::Leaf(_)) => Terminal::End,
        Some(Step::Child(_, _, _)) => match left.next() {
            None => Terminal::End,
            Some(Step::Leaf(mark)) => mark.class,
            Some(Step::Child(_, _, _)) => Terminal::End,
        },
    }
}

// Whether a node of the kind is one token.
fn is_alone(kind: NodeKind, parts: Parts<'_>) -> bool
    ensures { result ≡ is_alone (kind, forest_in parts.entry) }
{
    let mut left = parts;
    match left.next() {
        None => false,
        Some(Step::Leaf(_)) => match left.next() {
            None => true,
            Some(Step::Leaf(_)) => false,
            Some(Step::Child(_, _, _)) => false,
        },
        Some(Step::Child(_, _, _)) => false,
    }
}

// The level of a prefix.
fn prefix_level(operator: Terminal) -> u8
    ensures { result ≡ prefix_level operator }
{
    match operator {
        Terminal::Clone => 1,
        Terminal::Plus => 3,
        Terminal::Minus => 3,
        Terminal::Tight => 3,
        Terminal::Not => 5,
        _ => 0,
    }
}

/// The level of an expression: that of its outermost operator, or 0. A bare `yield` is looser than all, so that it is
/// no left operand.
pub fn level(version: Version, kind: NodeKind, parts: Parts<'_>) -> u8
    ensures { result ≡ level version (kind, forest_in parts.entry) }
{
    match kind {
        NodeKind::Binary => binary_level(version, middle_leaf(kind, parts)),
        NodeKind::Prefix => prefix_level(first_leaf(kind, parts)),
        NodeKind::Cast => 3,
        NodeKind::InstanceOf => 4,
        NodeKind::Ternary => 18,
        NodeKind::ShortTernary => 18,
        NodeKind::Assign => 19,
        NodeKind::AssignRef => 19,
        NodeKind::CompoundAssign => 19,
        NodeKind::Print => 20,
        NodeKind::Yield => { if is_alone(kind, parts) { 25 } else { 20 } }
        NodeKind::Include => 24,
        NodeKind::Arrow => 24,
        NodeKind::Block => 0,
        NodeKind::Empty => 0,
        NodeKind::ExprStmt => 0,
        NodeKind::Echo => 0,
        NodeKind::Html => 0,
        NodeKind::Return => 0,
        NodeKind::If => 0,
        NodeKind::IfAlt => 0,
        NodeKind::While => 0,
        NodeKind::DoWhile => 0,
        NodeKind::For => 0,
        NodeKind::Foreach => 0,
        NodeKind::Switch => 0,
        NodeKind::Case => 0,
        NodeKind::Break => 0,
        NodeKind::Continue => 0,
        NodeKind::Global => 0,
        NodeKind::Statics => 0,
        NodeKind::Unset => 0,
        NodeKind::Throw => 0,
        NodeKind::Try => 0,
        NodeKind::Function => 0,
        NodeKind::Param => 0,
        NodeKind::TypeName => 0,
        NodeKind::Class => 0,
        NodeKind::Interface => 0,
        NodeKind::Trait => 0,
        NodeKind::Property => 0,
        NodeKind::ClassConst => 0,
        NodeKind::Method => 0,
        NodeKind::TraitUse => 0,
        NodeKind::Const => 0,
        NodeKind::Namespace => 0,
        NodeKind::Use => 0,
        NodeKind::Declare => 0,
        NodeKind::Goto => 0,
        NodeKind::LabelStmt => 0,
        NodeKind::Variable => 0,
        NodeKind::Number => 0,
        NodeKind::Float => 0,
        NodeKind::Text => 0,
        NodeKind::Quoted => 0,
        NodeKind::Constant => 0,
        NodeKind::ClassConstant => 0,
        NodeKind::Array => 0,
        NodeKind::Item => 0,
        NodeKind::List => 0,
        NodeKind::Paren => 0,
        NodeKind::Offset => 0,
        NodeKind::BraceOffset => 0,
        NodeKind::Prop => 0,
        NodeKind::StaticProp => 0,
        NodeKind::Call => 0,
        NodeKind::MethodCall => 0,
        NodeKind::StaticCall => 0,
        NodeKind::Args => 0,
        NodeKind::New => 0,
        NodeKind::Isset => 0,
        NodeKind::EmptyTest => 0,
        NodeKind::Exit => 0,
        NodeKind::Closure => 0,
        NodeKind::EvalTest => 0,
        NodeKind::Postfix => 0,
    }
}
