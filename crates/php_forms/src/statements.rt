// Statements.
ghost use Rattle.std.specs.Prelude.{◌≡◌};
ghost use Rattle.php_forms.specs.Statements.{alt_else, alt_else_ifs, case_mark, cases, catches, caught_names, declare_body, else_ifs, else_part, exprs, finally_part, first_semi, for_body, foreach_body, foreach_target, foreach_value, handlers, loop_count, more_directives, more_exprs, more_globals, more_unset, more_unset_last, return_value, simple_form, statements, switch_body, while_body};

use crate::item::Item::{self, Node, Part, Repeats, Word};
use crate::item::{ANY, Form, Group, NOTHING, Sort};
use php_terminals::terminal::Terminal;
use php_tree::NodeKind;

pub static EXPR_STMT: [Item; 2] = [Node(Sort::Operand(ANY)), Word(Terminal::Semi)];

pub static IF: [Item; 7] = [
    Word(Terminal::If),
    Word(Terminal::OpenParen),
    Node(Sort::Operand(ANY)),
    Word(Terminal::CloseParen),
    Node(Sort::Statement),
    Repeats(Group::ElseIfs),
    Part(Group::ElsePart),
];

pub static IF_ALT: [Item; 10] = [
    Word(Terminal::If),
    Word(Terminal::OpenParen),
    Node(Sort::Operand(ANY)),
    Word(Terminal::CloseParen),
    Word(Terminal::Colon),
    Repeats(Group::Statements),
    Repeats(Group::AltElseIfs),
    Part(Group::AltElse),
    Word(Terminal::EndIf),
    Word(Terminal::Semi),
];

pub static STATICS: [Item; 5] = [
    Word(Terminal::Static),
    Word(Terminal::Variable),
    Part(Group::FirstValue),
    Repeats(Group::MoreVariables),
    Word(Terminal::Semi),
];

pub static FUNCTION: [Item; 8] = [
    Word(Terminal::Function),
    Part(Group::ByRef),
    Word(Terminal::FunctionLabel),
    Word(Terminal::OpenParen),
    Part(Group::Params),
    Word(Terminal::CloseParen),
    Part(Group::ReturnType),
    Node(Sort::Block),
];

pub static NAMESPACE: [Item; 2] = [Word(Terminal::Namespace), Part(Group::NamespaceBody)];

pub static LABEL: [Item; 2] = [Word(Terminal::FreeLabel), Word(Terminal::Colon)];

pub static CASE: [Item; 4] = [
    Word(Terminal::Case),
    Node(Sort::Operand(ANY)),
    Part(Group::CaseMark),
    Repeats(Group::Statements),
];

pub static DEFAULT: [Item; 3] = [
    Word(Terminal::Default),
    Part(Group::CaseMark),
    Repeats(Group::Statements),
];

static STATEMENTS: [Item; 1] = [Node(Sort::Statement)];

static ELSE_IFS: [Item; 5] = [
    Word(Terminal::ElseIf),
    Word(Terminal::OpenParen),
    Node(Sort::Operand(ANY)),
    Word(Terminal::CloseParen),
    Node(Sort::Statement),
];

static ELSE_PART: [Item; 2] = [Word(Terminal::Else), Node(Sort::Statement)];

static ALT_ELSE_IFS: [Item; 6] = [
    Word(Terminal::ElseIf),
    Word(Terminal::OpenParen),
    Node(Sort::Operand(ANY)),
    Word(Terminal::CloseParen),
    Word(Terminal::Colon),
    Repeats(Group::Statements),
];

static ALT_ELSE: [Item; 3] = [
    Word(Terminal::Else),
    Word(Terminal::Colon),
    Repeats(Group::Statements),
];

static WHILE_BODY_COLON: [Item; 4] = [
    Word(Terminal::Colon),
    Repeats(Group::Statements),
    Word(Terminal::EndWhile),
    Word(Terminal::Semi),
];

static FOR_BODY_COLON: [Item; 4] = [
    Word(Terminal::Colon),
    Repeats(Group::Statements),
    Word(Terminal::EndFor),
    Word(Terminal::Semi),
];

static FOREACH_BODY_COLON: [Item; 4] = [
    Word(Terminal::Colon),
    Repeats(Group::Statements),
    Word(Terminal::EndForeach),
    Word(Terminal::Semi),
];

static DECLARE_BODY_COLON: [Item; 4] = [
    Word(Terminal::Colon),
    Repeats(Group::Statements),
    Word(Terminal::EndDeclare),
    Word(Terminal::Semi),
];

static SWITCH_BODY_OPEN_BRACE: [Item; 4] = [
    Word(Terminal::OpenBrace),
    Part(Group::FirstSemi),
    Repeats(Group::Cases),
    Word(Terminal::CloseBrace),
];

static SWITCH_BODY: [Item; 5] = [
    Word(Terminal::Colon),
    Part(Group::FirstSemi),
    Repeats(Group::Cases),
    Word(Terminal::EndSwitch),
    Word(Terminal::Semi),
];

static FIRST_SEMI: [Item; 1] = [Word(Terminal::Semi)];

static CASES: [Item; 1] = [Node(Sort::Case)];

static CASE_MARK_COLON: [Item; 1] = [Word(Terminal::Colon)];

static MORE_EXPRS: [Item; 2] = [Word(Terminal::Comma), Node(Sort::Operand(ANY))];

static RETURN_VALUE: [Item; 1] = [Node(Sort::Operand(ANY))];

static EXPRS: [Item; 2] = [Node(Sort::Operand(ANY)), Repeats(Group::MoreExprs)];

static FOREACH_TARGET_AMPERSAND: [Item; 2] = [Word(Terminal::Ampersand), Node(Sort::Target)];

static FOREACH_TARGET: [Item; 2] = [Node(Sort::Target), Part(Group::ForeachValue)];

static FOREACH_VALUE: [Item; 3] = [
    Word(Terminal::DoubleArrow),
    Part(Group::ByRef),
    Node(Sort::Target),
];

static LOOP_COUNT: [Item; 1] = [Word(Terminal::Int)];

static MORE_GLOBALS: [Item; 2] = [Word(Terminal::Comma), Node(Sort::SimpleVariable)];

static HANDLERS_FINALLY: [Item; 2] = [Word(Terminal::Finally), Node(Sort::Block)];

static HANDLERS: [Item; 9] = [
    Word(Terminal::Catch),
    Word(Terminal::OpenParen),
    Part(Group::Name),
    Repeats(Group::CaughtNames),
    Word(Terminal::Variable),
    Word(Terminal::CloseParen),
    Node(Sort::Block),
    Repeats(Group::Catches),
    Part(Group::FinallyPart),
];

static CATCHES: [Item; 7] = [
    Word(Terminal::Catch),
    Word(Terminal::OpenParen),
    Part(Group::Name),
    Repeats(Group::CaughtNames),
    Word(Terminal::Variable),
    Word(Terminal::CloseParen),
    Node(Sort::Block),
];

static CAUGHT_NAMES: [Item; 2] = [Word(Terminal::Bar), Part(Group::Name)];

static MORE_DIRECTIVES: [Item; 4] = [
    Word(Terminal::Comma),
    Word(Terminal::FreeLabel),
    Word(Terminal::Assign),
    Node(Sort::Operand(ANY)),
];

static MORE_UNSET_LAST_CLOSE_PAREN: [Item; 1] = [Word(Terminal::Comma)];

pub static BLOCK: [Item; 3] = [
    Word(Terminal::OpenBrace),
    Repeats(Group::Statements),
    Word(Terminal::CloseBrace),
];

static ECHO: [Item; 4] = [
    Word(Terminal::Echo),
    Node(Sort::Operand(ANY)),
    Repeats(Group::MoreExprs),
    Word(Terminal::Semi),
];

static HTML: [Item; 1] = [Word(Terminal::InlineHtml)];

static RETURN: [Item; 3] = [
    Word(Terminal::Return),
    Part(Group::ReturnValue),
    Word(Terminal::Semi),
];

static WHILE: [Item; 5] = [
    Word(Terminal::While),
    Word(Terminal::OpenParen),
    Node(Sort::Operand(ANY)),
    Word(Terminal::CloseParen),
    Part(Group::WhileBody),
];

static DO_WHILE: [Item; 7] = [
    Word(Terminal::Do),
    Node(Sort::Statement),
    Word(Terminal::While),
    Word(Terminal::OpenParen),
    Node(Sort::Operand(ANY)),
    Word(Terminal::CloseParen),
    Word(Terminal::Semi),
];

static FOR: [Item; 9] = [
    Word(Terminal::For),
    Word(Terminal::OpenParen),
    Part(Group::Exprs),
    Word(Terminal::Semi),
    Part(Group::Exprs),
    Word(Terminal::Semi),
    Part(Group::Exprs),
    Word(Terminal::CloseParen),
    Part(Group::ForBody),
];

static FOREACH: [Item; 7] = [
    Word(Terminal::Foreach),
    Word(Terminal::OpenParen),
    Node(Sort::Operand(ANY)),
    Word(Terminal::As),
    Part(Group::ForeachTarget),
    Word(Terminal::CloseParen),
    Part(Group::ForeachBody),
];

static SWITCH: [Item; 5] = [
    Word(Terminal::Switch),
    Word(Terminal::OpenParen),
    Node(Sort::Operand(ANY)),
    Word(Terminal::CloseParen),
    Part(Group::SwitchBody),
];

static BREAK: [Item; 3] = [
    Word(Terminal::Break),
    Part(Group::LoopCount),
    Word(Terminal::Semi),
];

static CONTINUE: [Item; 3] = [
    Word(Terminal::Continue),
    Part(Group::LoopCount),
    Word(Terminal::Semi),
];

static GLOBAL: [Item; 4] = [
    Word(Terminal::Global),
    Node(Sort::SimpleVariable),
    Repeats(Group::MoreGlobals),
    Word(Terminal::Semi),
];

static UNSET: [Item; 6] = [
    Word(Terminal::Unset),
    Word(Terminal::OpenParen),
    Node(Sort::Operand(ANY)),
    Repeats(Group::MoreUnset),
    Word(Terminal::CloseParen),
    Word(Terminal::Semi),
];

static THROW: [Item; 3] = [
    Word(Terminal::Throw),
    Node(Sort::Operand(ANY)),
    Word(Terminal::Semi),
];

static TRY: [Item; 3] = [
    Word(Terminal::Try),
    Node(Sort::Block),
    Part(Group::Handlers),
];

static DECLARE: [Item; 8] = [
    Word(Terminal::Declare),
    Word(Terminal::OpenParen),
    Word(Terminal::FreeLabel),
    Word(Terminal::Assign),
    Node(Sort::Operand(ANY)),
    Repeats(Group::MoreDirectives),
    Word(Terminal::CloseParen),
    Part(Group::DeclareBody),
];

static GOTO: [Item; 3] = [
    Word(Terminal::Goto),
    Word(Terminal::FreeLabel),
    Word(Terminal::Semi),
];

static CLASS: [Item; 9] = [
    Part(Group::Attribute),
    Repeats(Group::ClassModifiers),
    Word(Terminal::Class),
    Word(Terminal::ClassLabel),
    Part(Group::Extends),
    Part(Group::Implements),
    Word(Terminal::OpenBrace),
    Repeats(Group::Members),
    Word(Terminal::CloseBrace),
];

static INTERFACE: [Item; 6] = [
    Word(Terminal::Interface),
    Word(Terminal::ClassLabel),
    Part(Group::Parents),
    Word(Terminal::OpenBrace),
    Repeats(Group::Members),
    Word(Terminal::CloseBrace),
];

static TRAIT: [Item; 5] = [
    Word(Terminal::Trait),
    Word(Terminal::ClassLabel),
    Word(Terminal::OpenBrace),
    Repeats(Group::Members),
    Word(Terminal::CloseBrace),
];

static USE: [Item; 3] = [
    Word(Terminal::Use),
    Part(Group::UseBody),
    Word(Terminal::Semi),
];

static CONST: [Item; 6] = [
    Word(Terminal::Const),
    Word(Terminal::FreeLabel),
    Word(Terminal::Assign),
    Node(Sort::Operand(ANY)),
    Repeats(Group::MoreConsts),
    Word(Terminal::Semi),
];

// Statements, up to a word or a brace that ends them.
pub fn statements(first: Terminal) -> &'static [Item]
    ensures { result.now ≡ statements first }
{
    match first {
        Terminal::CloseBrace
        | Terminal::End
        | Terminal::Case
        | Terminal::Default
        | Terminal::Else
        | Terminal::ElseIf
        | Terminal::EndDeclare
        | Terminal::EndFor
        | Terminal::EndForeach
        | Terminal::EndIf
        | Terminal::EndSwitch
        | Terminal::EndWhile => &NOTHING,
        _ => &STATEMENTS,
    }
}

// The `elseif` parts of an `if`.
pub fn else_ifs(first: Terminal) -> &'static [Item]
    ensures { result.now ≡ else_ifs first }
{
    match first {
        Terminal::ElseIf => &ELSE_IFS,
        _ => &NOTHING,
    }
}

// The `else` of an `if`: it belongs to the nearest one.
pub fn else_part(first: Terminal) -> &'static [Item]
    ensures { result.now ≡ else_part first }
{
    match first {
        Terminal::Else => &ELSE_PART,
        _ => &NOTHING,
    }
}

// The `elseif` parts of an `if` with colons.
pub fn alt_else_ifs(first: Terminal) -> &'static [Item]
    ensures { result.now ≡ alt_else_ifs first }
{
    match first {
        Terminal::ElseIf => &ALT_ELSE_IFS,
        _ => &NOTHING,
    }
}

// The `else` of an `if` with colons.
pub fn alt_else(first: Terminal) -> &'static [Item]
    ensures { result.now ≡ alt_else first }
{
    match first {
        Terminal::Else => &ALT_ELSE,
        _ => &NOTHING,
    }
}

// The body of a `while`.
pub fn while_body(first: Terminal) -> &'static [Item]
    ensures { result.now ≡ while_body first }
{
    match first {
        Terminal::Colon => &WHILE_BODY_COLON,
        _ => &STATEMENTS,
    }
}

// The body of a `for`.
pub fn for_body(first: Terminal) -> &'static [Item]
    ensures { result.now ≡ for_body first }
{
    match first {
        Terminal::Colon => &FOR_BODY_COLON,
        _ => &STATEMENTS,
    }
}

// The body of a `foreach`.
pub fn foreach_body(first: Terminal) -> &'static [Item]
    ensures { result.now ≡ foreach_body first }
{
    match first {
        Terminal::Colon => &FOREACH_BODY_COLON,
        _ => &STATEMENTS,
    }
}

// The body of a `declare`.
pub fn declare_body(first: Terminal) -> &'static [Item]
    ensures { result.now ≡ declare_body first }
{
    match first {
        Terminal::Colon => &DECLARE_BODY_COLON,
        _ => &STATEMENTS,
    }
}

// The cases of a `switch`.
pub fn switch_body(first: Terminal) -> &'static [Item]
    ensures { result.now ≡ switch_body first }
{
    match first {
        Terminal::OpenBrace => &SWITCH_BODY_OPEN_BRACE,
        _ => &SWITCH_BODY,
    }
}

// The semicolon before the first case.
pub fn first_semi(first: Terminal) -> &'static [Item]
    ensures { result.now ≡ first_semi first }
{
    match first {
        Terminal::Semi => &FIRST_SEMI,
        _ => &NOTHING,
    }
}

// The cases.
pub fn cases(first: Terminal) -> &'static [Item]
    ensures { result.now ≡ cases first }
{
    match first {
        Terminal::Case | Terminal::Default => &CASES,
        _ => &NOTHING,
    }
}

// The mark behind a case.
pub fn case_mark(first: Terminal) -> &'static [Item]
    ensures { result.now ≡ case_mark first }
{
    match first {
        Terminal::Colon => &CASE_MARK_COLON,
        _ => &FIRST_SEMI,
    }
}

// The other expressions of a list.
pub fn more_exprs(first: Terminal) -> &'static [Item]
    ensures { result.now ≡ more_exprs first }
{
    match first {
        Terminal::Comma => &MORE_EXPRS,
        _ => &NOTHING,
    }
}

// The value of a `return`.
pub fn return_value(first: Terminal) -> &'static [Item]
    ensures { result.now ≡ return_value first }
{
    match first {
        Terminal::Semi => &NOTHING,
        _ => &RETURN_VALUE,
    }
}

// The expressions of a part of a `for`.
pub fn exprs(first: Terminal) -> &'static [Item]
    ensures { result.now ≡ exprs first }
{
    match first {
        Terminal::Semi | Terminal::CloseParen => &NOTHING,
        _ => &EXPRS,
    }
}

// What a `foreach` writes.
pub fn foreach_target(first: Terminal) -> &'static [Item]
    ensures { result.now ≡ foreach_target first }
{
    match first {
        Terminal::Ampersand => &FOREACH_TARGET_AMPERSAND,
        _ => &FOREACH_TARGET,
    }
}

// The value behind the key of a `foreach`.
pub fn foreach_value(first: Terminal) -> &'static [Item]
    ensures { result.now ≡ foreach_value first }
{
    match first {
        Terminal::DoubleArrow => &FOREACH_VALUE,
        _ => &NOTHING,
    }
}

// The number of loops of a `break` or `continue`.
pub fn loop_count(first: Terminal) -> &'static [Item]
    ensures { result.now ≡ loop_count first }
{
    match first {
        Terminal::Int => &LOOP_COUNT,
        _ => &NOTHING,
    }
}

// The other variables of a `global`.
pub fn more_globals(first: Terminal) -> &'static [Item]
    ensures { result.now ≡ more_globals first }
{
    match first {
        Terminal::Comma => &MORE_GLOBALS,
        _ => &NOTHING,
    }
}

// The `catch` parts and the `finally` of a `try`: there is at least one.
pub fn handlers(first: Terminal) -> &'static [Item]
    ensures { result.now ≡ handlers first }
{
    match first {
        Terminal::Finally => &HANDLERS_FINALLY,
        _ => &HANDLERS,
    }
}

// The other `catch` parts.
pub fn catches(first: Terminal) -> &'static [Item]
    ensures { result.now ≡ catches first }
{
    match first {
        Terminal::Catch => &CATCHES,
        _ => &NOTHING,
    }
}

// The other names of a `catch`.
pub fn caught_names(first: Terminal) -> &'static [Item]
    ensures { result.now ≡ caught_names first }
{
    match first {
        Terminal::Bar => &CAUGHT_NAMES,
        _ => &NOTHING,
    }
}

// The `finally`.
pub fn finally_part(first: Terminal) -> &'static [Item]
    ensures { result.now ≡ finally_part first }
{
    match first {
        Terminal::Finally => &HANDLERS_FINALLY,
        _ => &NOTHING,
    }
}

// The other directives of a `declare`.
pub fn more_directives(first: Terminal) -> &'static [Item]
    ensures { result.now ≡ more_directives first }
{
    match first {
        Terminal::Comma => &MORE_DIRECTIVES,
        _ => &NOTHING,
    }
}

// Behind a comma of an `unset` or `isset`.
fn more_unset_last(second: Terminal) -> &'static [Item]
    ensures { result.now ≡ more_unset_last second }
{
    match second {
        Terminal::CloseParen => &MORE_UNSET_LAST_CLOSE_PAREN,
        _ => &MORE_EXPRS,
    }
}

// The other expressions of an `unset` or `isset`, which may end with a comma.
pub fn more_unset(first: Terminal, second: Terminal) -> &'static [Item]
    ensures { result.now ≡ more_unset first second }
{
    match first {
        Terminal::Comma => more_unset_last(second),
        _ => &NOTHING,
    }
}

// The form of a statement that its first token settles.
pub fn simple_form(first: Terminal) -> Form
    ensures { (result.0, result.1.now) ≡ simple_form first }
{
    match first {
        Terminal::OpenBrace => (NodeKind::Block, &BLOCK),
        Terminal::Semi => (NodeKind::Empty, &FIRST_SEMI),
        Terminal::Echo => (NodeKind::Echo, &ECHO),
        Terminal::InlineHtml => (NodeKind::Html, &HTML),
        Terminal::Return => (NodeKind::Return, &RETURN),
        Terminal::While => (NodeKind::While, &WHILE),
        Terminal::Do => (NodeKind::DoWhile, &DO_WHILE),
        Terminal::For => (NodeKind::For, &FOR),
        Terminal::Foreach => (NodeKind::Foreach, &FOREACH),
        Terminal::Switch => (NodeKind::Switch, &SWITCH),
        Terminal::Break => (NodeKind::Break, &BREAK),
        Terminal::Continue => (NodeKind::Continue, &CONTINUE),
        Terminal::Global => (NodeKind::Global, &GLOBAL),
        Terminal::Unset => (NodeKind::Unset, &UNSET),
        Terminal::Throw => (NodeKind::Throw, &THROW),
        Terminal::Try => (NodeKind::Try, &TRY),
        Terminal::Declare => (NodeKind::Declare, &DECLARE),
        Terminal::Goto => (NodeKind::Goto, &GOTO),
        Terminal::Class | Terminal::ClassModifier | Terminal::AttributeOpen => (
            NodeKind::Class,
            &CLASS,
        ),
        Terminal::Interface => (NodeKind::Interface, &INTERFACE),
        Terminal::Trait => (NodeKind::Trait, &TRAIT),
        Terminal::Use => (NodeKind::Use, &USE),
        Terminal::Const => (NodeKind::Const, &CONST),
        _ => (NodeKind::ExprStmt, &EXPR_STMT),
    }
}
