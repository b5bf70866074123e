// Classes of tokens that tables look for.
ghost use Rattle.std.specs.Prelude.{◌≡◌};
ghost use Rattle.php_terminals.specs.Marks.{begins_place, closes, ends_item, goes_on, is_ampersand, is_assign, is_colon, is_dollar, is_double_arrow, is_double_colon, is_name_part, is_open_brace, is_open_paren, is_variable_start, opens};

use crate::terminal::Terminal;

// An opening bracket.
pub fn opens(terminal: Terminal) -> bool
    ensures { result ≡ opens terminal }
{
    match terminal {
        Terminal::OpenParen
        | Terminal::OpenBracket
        | Terminal::OpenBrace
        | Terminal::CurlyOpen
        | Terminal::DollarBrace
        | Terminal::AttributeOpen => true,
        _ => false,
    }
}

// A closing bracket.
pub fn closes(terminal: Terminal) -> bool
    ensures { result ≡ closes terminal }
{
    match terminal {
        Terminal::CloseParen | Terminal::CloseBracket | Terminal::CloseBrace => true,
        _ => false,
    }
}

// A part of a name.
pub fn is_name_part(terminal: Terminal) -> bool
    ensures { result ≡ is_name_part terminal }
{
    match terminal {
        Terminal::Label
        | Terminal::Match
        | Terminal::Readonly
        | Terminal::MixedOrNever
        | Terminal::Backslash
        | Terminal::Namespace
        | Terminal::QualifiedName
        | Terminal::FullName
        | Terminal::RelativeName => true,
        _ => false,
    }
}

// `$`.
pub fn is_dollar(terminal: Terminal) -> bool
    ensures { result ≡ is_dollar terminal }
{
    match terminal {
        Terminal::Dollar => true,
        _ => false,
    }
}

// An opening parenthesis.
pub fn is_open_paren(terminal: Terminal) -> bool
    ensures { result ≡ is_open_paren terminal }
{
    match terminal {
        Terminal::OpenParen => true,
        _ => false,
    }
}

// `{`.
pub fn is_open_brace(terminal: Terminal) -> bool
    ensures { result ≡ is_open_brace terminal }
{
    match terminal {
        Terminal::OpenBrace => true,
        _ => false,
    }
}

// `:`.
pub fn is_colon(terminal: Terminal) -> bool
    ensures { result ≡ is_colon terminal }
{
    match terminal {
        Terminal::Colon => true,
        _ => false,
    }
}

// `::`.
pub fn is_double_colon(terminal: Terminal) -> bool
    ensures { result ≡ is_double_colon terminal }
{
    match terminal {
        Terminal::DoubleColon => true,
        _ => false,
    }
}

// `=>`.
pub fn is_double_arrow(terminal: Terminal) -> bool
    ensures { result ≡ is_double_arrow terminal }
{
    match terminal {
        Terminal::DoubleArrow => true,
        _ => false,
    }
}

// `=`.
pub fn is_assign(terminal: Terminal) -> bool
    ensures { result ≡ is_assign terminal }
{
    match terminal {
        Terminal::Assign => true,
        _ => false,
    }
}

// `&`.
pub fn is_ampersand(terminal: Terminal) -> bool
    ensures { result ≡ is_ampersand terminal }
{
    match terminal {
        Terminal::Ampersand => true,
        _ => false,
    }
}

// What a variable begins with.
pub fn is_variable_start(terminal: Terminal) -> bool
    ensures { result ≡ is_variable_start terminal }
{
    match terminal {
        Terminal::Variable | Terminal::Dollar => true,
        _ => false,
    }
}

// What stands behind an item of a list form, or behind a list form that is assigned to.
pub fn ends_item(terminal: Terminal) -> bool
    ensures { result ≡ ends_item terminal }
{
    match terminal {
        Terminal::Comma | Terminal::CloseBracket | Terminal::CloseParen | Terminal::Assign => true,
        _ => false,
    }
}

// What goes on behind the value of an array.
pub fn goes_on(terminal: Terminal) -> bool
    ensures { result ≡ goes_on terminal }
{
    match terminal {
        Terminal::OpenBracket
        | Terminal::OpenBrace
        | Terminal::Arrow
        | Terminal::DoubleColon
        | Terminal::OpenParen => true,
        _ => false,
    }
}

// What a variable expression begins with.
pub fn begins_place(terminal: Terminal) -> bool
    ensures { result ≡ begins_place terminal }
{
    match terminal {
        Terminal::Variable
        | Terminal::Dollar
        | Terminal::Label
        | Terminal::Match
        | Terminal::Readonly
        | Terminal::MixedOrNever
        | Terminal::Backslash
        | Terminal::Namespace
        | Terminal::QualifiedName
        | Terminal::FullName
        | Terminal::RelativeName
        | Terminal::Static
        | Terminal::OpenParen
        | Terminal::OpenBracket
        | Terminal::Text
        | Terminal::Array => true,
        _ => false,
    }
}
