// How expressions begin.
ghost use Rattle.std.specs.Prelude.{◌≡◌};
ghost use Rattle.php_forms.specs.Atoms.{atom_form, closure_use, ctor_args, exit_code, exit_value, member, more_used, offset_key, static_member, yield_to};
ghost use Rattle.php_forms.specs.Forms.{form_view};

use crate::item::Item::{self, Node, Part, Repeats, Word};
use crate::item::{ANY, Form, Group, NOTHING, Sort};
use php_terminals::terminal::Terminal;
use php_tree::NodeKind;

pub static VARIABLE: [Item; 1] = [Word(Terminal::Variable)];

pub static CREATED_REF: [Item; 2] = [Node(Sort::ClassRef), Part(Group::CtorArgs)];

pub static CREATED_NAME: [Item; 2] = [Part(Group::Name), Part(Group::CtorArgs)];

pub static CREATED_CLASS: [Item; 7] = [
    Word(Terminal::Class),
    Part(Group::CtorArgs),
    Part(Group::Extends),
    Part(Group::Implements),
    Word(Terminal::OpenBrace),
    Repeats(Group::Members),
    Word(Terminal::CloseBrace),
];

pub static CREATED_STATIC: [Item; 2] = [Word(Terminal::Static), Part(Group::CtorArgs)];

pub static REF: [Item; 1] = [Node(Sort::ClassRef)];

pub static STATIC: [Item; 1] = [Word(Terminal::Static)];

pub static YIELDED: [Item; 2] = [Node(Sort::Operand(20)), Part(Group::YieldTo)];

pub static VARIABLE_BRACES: [Item; 4] = [
    Word(Terminal::Dollar),
    Word(Terminal::OpenBrace),
    Node(Sort::Operand(ANY)),
    Word(Terminal::CloseBrace),
];

pub static VARIABLE_DOLLAR: [Item; 2] = [Word(Terminal::Dollar), Node(Sort::SimpleVariable)];

pub static CALL: [Item; 4] = [
    Part(Group::CalledName),
    Word(Terminal::OpenParen),
    Node(Sort::Args),
    Word(Terminal::CloseParen),
];

pub static CONSTANT: [Item; 1] = [Part(Group::Name)];

pub static NAME_CALL: [Item; 6] = [
    Part(Group::Name),
    Word(Terminal::DoubleColon),
    Part(Group::Member),
    Word(Terminal::OpenParen),
    Node(Sort::Args),
    Word(Terminal::CloseParen),
];

pub static NAME_PROP: [Item; 3] = [
    Part(Group::Name),
    Word(Terminal::DoubleColon),
    Part(Group::StaticMember),
];

pub static NAME_CONST: [Item; 3] = [
    Part(Group::Name),
    Word(Terminal::DoubleColon),
    Word(Terminal::AnyWord),
];

pub static STATIC_CALL: [Item; 6] = [
    Word(Terminal::Static),
    Word(Terminal::DoubleColon),
    Part(Group::Member),
    Word(Terminal::OpenParen),
    Node(Sort::Args),
    Word(Terminal::CloseParen),
];

pub static STATIC_PROP: [Item; 3] = [
    Word(Terminal::Static),
    Word(Terminal::DoubleColon),
    Part(Group::StaticMember),
];

pub static STATIC_CONST: [Item; 3] = [
    Word(Terminal::Static),
    Word(Terminal::DoubleColon),
    Word(Terminal::AnyWord),
];

pub static STATIC_CLOSURE: [Item; 9] = [
    Word(Terminal::Static),
    Word(Terminal::Function),
    Part(Group::ByRef),
    Word(Terminal::OpenParen),
    Part(Group::Params),
    Word(Terminal::CloseParen),
    Part(Group::ClosureUse),
    Part(Group::ReturnType),
    Node(Sort::Block),
];

pub static STATIC_ARROW: [Item; 9] = [
    Word(Terminal::Static),
    Word(Terminal::Fn),
    Part(Group::ByRef),
    Word(Terminal::OpenParen),
    Part(Group::Params),
    Word(Terminal::CloseParen),
    Part(Group::ReturnType),
    Word(Terminal::DoubleArrow),
    Node(Sort::Operand(ANY)),
];

pub static LIST_BRACKETS: [Item; 4] = [
    Word(Terminal::OpenBracket),
    Part(Group::ListHead),
    Repeats(Group::ListMore),
    Word(Terminal::CloseBracket),
];

pub static LIST_WORD: [Item; 5] = [
    Word(Terminal::List),
    Word(Terminal::OpenParen),
    Part(Group::ListHead),
    Repeats(Group::ListMore),
    Word(Terminal::CloseParen),
];

pub static ARRAY_BRACKETS: [Item; 3] = [
    Word(Terminal::OpenBracket),
    Part(Group::ArrayItems),
    Word(Terminal::CloseBracket),
];

pub static ARRAY_WORD: [Item; 4] = [
    Word(Terminal::Array),
    Word(Terminal::OpenParen),
    Part(Group::ArrayItems),
    Word(Terminal::CloseParen),
];

pub static OLD_CAST: [Item; 2] = [Word(Terminal::OldCast), Node(Sort::Operand(3))];

static EXIT_VALUE: [Item; 3] = [
    Word(Terminal::OpenParen),
    Part(Group::ExitCode),
    Word(Terminal::CloseParen),
];

static EXIT_CODE: [Item; 1] = [Node(Sort::Operand(ANY))];

static YIELD_TO: [Item; 2] = [Word(Terminal::DoubleArrow), Node(Sort::Operand(20))];

static CLOSURE_USE: [Item; 6] = [
    Word(Terminal::Use),
    Word(Terminal::OpenParen),
    Part(Group::ByRef),
    Word(Terminal::Variable),
    Repeats(Group::MoreUsed),
    Word(Terminal::CloseParen),
];

static MORE_USED: [Item; 3] = [
    Word(Terminal::Comma),
    Part(Group::ByRef),
    Word(Terminal::Variable),
];

static CTOR_ARGS: [Item; 3] = [
    Word(Terminal::OpenParen),
    Node(Sort::Args),
    Word(Terminal::CloseParen),
];

static MEMBER_VARIABLE: [Item; 1] = [Node(Sort::SimpleVariable)];

static MEMBER_OPEN_BRACE: [Item; 3] = [
    Word(Terminal::OpenBrace),
    Node(Sort::Operand(ANY)),
    Word(Terminal::CloseBrace),
];

static MEMBER: [Item; 1] = [Word(Terminal::AnyWord)];

static NUMBER: [Item; 1] = [Word(Terminal::Int)];

static FLOAT: [Item; 1] = [Word(Terminal::Float)];

static TEXT: [Item; 1] = [Word(Terminal::Text)];

static QUOTED: [Item; 3] = [
    Word(Terminal::QuoteOpen),
    Repeats(Group::QuotedParts),
    Word(Terminal::QuotedEnd),
];

static PAREN: [Item; 3] = [
    Word(Terminal::OpenParen),
    Node(Sort::Operand(ANY)),
    Word(Terminal::CloseParen),
];

static NEW: [Item; 2] = [Word(Terminal::New), Part(Group::Created)];

static PREFIX: [Item; 2] = [Word(Terminal::Clone), Node(Sort::Operand(1))];

static PLUS_PREFIX: [Item; 2] = [Word(Terminal::SignOrTight), Node(Sort::Operand(3))];

static NOT_PREFIX: [Item; 2] = [Word(Terminal::Not), Node(Sort::Operand(5))];

static STEP_PREFIX: [Item; 2] = [Word(Terminal::Step), Node(Sort::Place)];

static CAST: [Item; 2] = [Word(Terminal::Cast), Node(Sort::Operand(3))];

static PRINT: [Item; 2] = [Word(Terminal::Print), Node(Sort::Operand(20))];

static YIELD: [Item; 2] = [Word(Terminal::Yield), Part(Group::YieldValue)];

static YIELD_FROM_YIELD: [Item; 2] = [Word(Terminal::YieldFrom), Node(Sort::Operand(20))];

static INCLUDE: [Item; 2] = [Word(Terminal::Include), Node(Sort::Operand(ANY))];

static ISSET: [Item; 5] = [
    Word(Terminal::Isset),
    Word(Terminal::OpenParen),
    Node(Sort::Operand(ANY)),
    Repeats(Group::MoreUnset),
    Word(Terminal::CloseParen),
];

static EMPTY_TEST: [Item; 4] = [
    Word(Terminal::Empty),
    Word(Terminal::OpenParen),
    Node(Sort::Operand(ANY)),
    Word(Terminal::CloseParen),
];

static EXIT: [Item; 2] = [Word(Terminal::Exit), Part(Group::ExitValue)];

static EVAL_TEST: [Item; 4] = [
    Word(Terminal::Eval),
    Word(Terminal::OpenParen),
    Node(Sort::Operand(ANY)),
    Word(Terminal::CloseParen),
];

static CLOSURE: [Item; 8] = [
    Word(Terminal::Function),
    Part(Group::ByRef),
    Word(Terminal::OpenParen),
    Part(Group::Params),
    Word(Terminal::CloseParen),
    Part(Group::ClosureUse),
    Part(Group::ReturnType),
    Node(Sort::Block),
];

static ARROW: [Item; 8] = [
    Word(Terminal::Fn),
    Part(Group::ByRef),
    Word(Terminal::OpenParen),
    Part(Group::Params),
    Word(Terminal::CloseParen),
    Part(Group::ReturnType),
    Word(Terminal::DoubleArrow),
    Node(Sort::Operand(ANY)),
];

// The value of an `exit`.
pub fn exit_value(first: Terminal) -> &'static [Item]
    ensures { result.now ≡ exit_value first }
{
    match first {
        Terminal::OpenParen => &EXIT_VALUE,
        _ => &NOTHING,
    }
}

// The value of an `exit` in its parentheses.
pub fn exit_code(first: Terminal) -> &'static [Item]
    ensures { result.now ≡ exit_code first }
{
    match first {
        Terminal::CloseParen => &NOTHING,
        _ => &EXIT_CODE,
    }
}

// The value behind the key of a `yield`.
pub fn yield_to(first: Terminal) -> &'static [Item]
    ensures { result.now ≡ yield_to first }
{
    match first {
        Terminal::DoubleArrow => &YIELD_TO,
        _ => &NOTHING,
    }
}

// The variables that a closure takes along.
pub fn closure_use(first: Terminal) -> &'static [Item]
    ensures { result.now ≡ closure_use first }
{
    match first {
        Terminal::Use => &CLOSURE_USE,
        _ => &NOTHING,
    }
}

// The other variables that a closure takes along.
pub fn more_used(first: Terminal) -> &'static [Item]
    ensures { result.now ≡ more_used first }
{
    match first {
        Terminal::Comma => &MORE_USED,
        _ => &NOTHING,
    }
}

// The arguments of a `new`.
pub fn ctor_args(first: Terminal) -> &'static [Item]
    ensures { result.now ≡ ctor_args first }
{
    match first {
        Terminal::OpenParen => &CTOR_ARGS,
        _ => &NOTHING,
    }
}

// The key of an offset.
pub fn offset_key(first: Terminal) -> &'static [Item]
    ensures { result.now ≡ offset_key first }
{
    match first {
        Terminal::CloseBracket => &NOTHING,
        _ => &EXIT_CODE,
    }
}

// A member: a variable, an expression in braces, or a word.
pub fn member(first: Terminal) -> &'static [Item]
    ensures { result.now ≡ member first }
{
    match first {
        Terminal::Variable | Terminal::Dollar => &MEMBER_VARIABLE,
        Terminal::OpenBrace => &MEMBER_OPEN_BRACE,
        _ => &MEMBER,
    }
}

// A static property.
pub fn static_member(first: Terminal) -> &'static [Item]
    ensures { result.now ≡ static_member first }
{
    match first {
        Terminal::Variable => &VARIABLE,
        _ => &MEMBER_VARIABLE,
    }
}

// The form of an expression that its first token settles.
pub fn atom_form(first: Terminal) -> Option<Form>
    ensures { form_view result ≡ atom_form first }
{
    match first {
        Terminal::Variable => Some((NodeKind::Variable, &VARIABLE)),
        Terminal::Int => Some((NodeKind::Number, &NUMBER)),
        Terminal::Float => Some((NodeKind::Float, &FLOAT)),
        Terminal::Text => Some((NodeKind::Text, &TEXT)),
        Terminal::QuoteOpen => Some((NodeKind::Quoted, &QUOTED)),
        Terminal::OpenParen => Some((NodeKind::Paren, &PAREN)),
        Terminal::New => Some((NodeKind::New, &NEW)),
        Terminal::Clone => Some((NodeKind::Prefix, &PREFIX)),
        Terminal::Plus | Terminal::Minus | Terminal::Tight => Some((
            NodeKind::Prefix,
            &PLUS_PREFIX,
        )),
        Terminal::Not => Some((NodeKind::Prefix, &NOT_PREFIX)),
        Terminal::Step => Some((NodeKind::Prefix, &STEP_PREFIX)),
        Terminal::Cast => Some((NodeKind::Cast, &CAST)),
        Terminal::Print => Some((NodeKind::Print, &PRINT)),
        Terminal::Yield => Some((NodeKind::Yield, &YIELD)),
        Terminal::YieldFrom => Some((NodeKind::Yield, &YIELD_FROM_YIELD)),
        Terminal::Include => Some((NodeKind::Include, &INCLUDE)),
        Terminal::Isset => Some((NodeKind::Isset, &ISSET)),
        Terminal::Empty => Some((NodeKind::EmptyTest, &EMPTY_TEST)),
        Terminal::Exit => Some((NodeKind::Exit, &EXIT)),
        Terminal::Eval => Some((NodeKind::EvalTest, &EVAL_TEST)),
        Terminal::Function => Some((NodeKind::Closure, &CLOSURE)),
        Terminal::Fn => Some((NodeKind::Arrow, &ARROW)),
        _ => None,
    }
}
