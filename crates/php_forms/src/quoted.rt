// Quoted texts.
ghost use Rattle.std.specs.Prelude.{◌≡◌};
ghost use Rattle.php_forms.specs.Quoted.{named_key, quoted_parts, quoted_parts_name, simple_key};

use crate::item::Item::{self, Node, Part, Word};
use crate::item::{ANY, Group, NOTHING, Sort};
use php_terminals::terminal::Terminal;

static QUOTED_PARTS_PIECE: [Item; 1] = [Word(Terminal::Piece)];

static QUOTED_PARTS_VARIABLE: [Item; 1] = [Node(Sort::Interpolated)];

static QUOTED_PARTS_CURLY_OPEN: [Item; 3] = [
    Word(Terminal::CurlyOpen),
    Node(Sort::Embedded),
    Word(Terminal::CloseBrace),
];

static QUOTED_PARTS_NAME_VAR_NAME: [Item; 4] = [
    Word(Terminal::DollarBrace),
    Word(Terminal::VarName),
    Part(Group::NamedKey),
    Word(Terminal::CloseBrace),
];

static QUOTED_PARTS_NAME: [Item; 3] = [
    Word(Terminal::DollarBrace),
    Node(Sort::Operand(ANY)),
    Word(Terminal::CloseBrace),
];

static NAMED_KEY: [Item; 3] = [
    Word(Terminal::OpenBracket),
    Node(Sort::Operand(ANY)),
    Word(Terminal::CloseBracket),
];

static SIMPLE_KEY_LABEL: [Item; 1] = [Word(Terminal::AnyLabel)];

static SIMPLE_KEY_INT: [Item; 1] = [Word(Terminal::Int)];

static SIMPLE_KEY_MINUS: [Item; 2] = [Word(Terminal::Minus), Word(Terminal::Int)];

static SIMPLE_KEY: [Item; 1] = [Node(Sort::PlainVariable)];

// Behind `${`.
fn quoted_parts_name(second: Terminal) -> &'static [Item]
    ensures { result.now ≡ quoted_parts_name second }
{
    match second {
        Terminal::VarName => &QUOTED_PARTS_NAME_VAR_NAME,
        _ => &QUOTED_PARTS_NAME,
    }
}

// The parts of a quoted text.
pub fn quoted_parts(first: Terminal, second: Terminal) -> &'static [Item]
    ensures { result.now ≡ quoted_parts first second }
{
    match first {
        Terminal::Piece => &QUOTED_PARTS_PIECE,
        Terminal::Variable => &QUOTED_PARTS_VARIABLE,
        Terminal::CurlyOpen => &QUOTED_PARTS_CURLY_OPEN,
        Terminal::DollarBrace => quoted_parts_name(second),
        _ => &NOTHING,
    }
}

// The offset behind a name after `${`.
pub fn named_key(first: Terminal) -> &'static [Item]
    ensures { result.now ≡ named_key first }
{
    match first {
        Terminal::OpenBracket => &NAMED_KEY,
        _ => &NOTHING,
    }
}

// A simple offset.
pub fn simple_key(first: Terminal) -> &'static [Item]
    ensures { result.now ≡ simple_key first }
{
    match first {
        Terminal::Label | Terminal::Match | Terminal::Readonly | Terminal::MixedOrNever =>
            &SIMPLE_KEY_LABEL,
        Terminal::Int => &SIMPLE_KEY_INT,
        Terminal::Minus => &SIMPLE_KEY_MINUS,
        _ => &SIMPLE_KEY,
    }
}
