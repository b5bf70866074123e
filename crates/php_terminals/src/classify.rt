// The class of a token.
ghost use Rattle.std.specs.Prelude.{◌≡◌, ◌↔◌, IsTrue, true};
ghost use Rattle.php_terminals.specs.Classify.{cast, cast_at, cast_letter, ends_in, is_any_label, is_attribute_by, is_called_label, is_class, is_constant_label, is_full, is_modifier, is_opening, is_plain_label, is_qualified, is_relative, is_sign_or_tight, is_word_kind, last, name, names_refused, opening, terminal_by};

use crate::terminal::Terminal;
use crate::words::{front, is_word, keyword, label, operator};
use php_tree::TokenKind;

/// The class of a token of a kind with a text. A `?>` is a `;`, and a `<?=` an `echo`.
pub fn class_of(kind: TokenKind, text: &[u8]) -> Terminal
    ensures { result ≡ terminal_by kind text.now }
{
    match kind {
        TokenKind::InlineHtml => Terminal::InlineHtml,
        TokenKind::OpenEcho => Terminal::Echo,
        TokenKind::Variable => Terminal::Variable,
        TokenKind::Label => label(text),
        TokenKind::Keyword => keyword(text),
        TokenKind::Int => Terminal::Int,
        TokenKind::Float => Terminal::Float,
        TokenKind::Text => Terminal::Text,
        TokenKind::Quote => Terminal::QuoteOpen,
        TokenKind::HeredocStart => Terminal::QuoteOpen,
        TokenKind::Backtick => Terminal::QuoteOpen,
        TokenKind::Cast => cast(text),
        TokenKind::Op => operator(text),
        TokenKind::AttributeOpen => Terminal::AttributeOpen,
        TokenKind::Name => name(text),
        TokenKind::Semi => Terminal::Semi,
        TokenKind::Close => Terminal::Semi,
        TokenKind::End => Terminal::End,
        TokenKind::Piece => Terminal::Piece,
        TokenKind::CurlyOpen => Terminal::CurlyOpen,
        TokenKind::DollarBrace => Terminal::DollarBrace,
        TokenKind::VarName => Terminal::VarName,
        TokenKind::QuotedEnd => Terminal::QuotedEnd,
    }
}

// A byte before the type word of a cast.
fn is_opening(byte: u8) -> bool
    ensures { result ≡ is_opening byte }
{
    byte == b'(' || byte == b' ' || byte == b'\t'
}

// The class of a cast whose type word begins so.
fn cast_letter(letter: u8) -> Terminal
    ensures { result ≡ cast_letter letter }
{
    if letter == b'r' || letter == b'u' {
        Terminal::OldCast
    } else {
        Terminal::Cast
    }
}

// How many bytes stand before the type word of a cast.
fn opening(text: &[u8]) -> usize
    ensures { result ≡ opening text.now }
{
    text.iter().take_while(|byte| is_opening(**byte)).count()
}

// The class of a cast whose type word begins at a place.
fn cast_at(text: &[u8], at: usize) -> Terminal
    ensures { result ≡ cast_at at text.now }
{
    if at < text.len() {
        cast_letter(text[at].to_ascii_lowercase())
    } else {
        Terminal::Cast
    }
}

// The class of a cast.
fn cast(text: &[u8]) -> Terminal
    ensures { result ≡ cast text.now }
{
    cast_at(text, opening(text))
}

// The class of a whole name.
fn name(text: &[u8]) -> Terminal
    ensures { result ≡ name text.now }
{
    if is_word(b"\\", front(text, 1)) {
        return Terminal::FullName;
    }
    if is_word(b"namespace\\", front(text, 10)) {
        return Terminal::RelativeName;
    }
    Terminal::QualifiedName
}

// The last bytes of the text, as many as there are.
fn last(text: &[u8], count: usize) -> &[u8]
    ensures { result.now ≡ last count text.now }
{
    text.split_at(text.len().saturating_sub(count)).1
}

// Whether the text ends in the word.
fn ends_in(word: &[u8], text: &[u8]) -> bool
    ensures { result ≡ ends_in word.now text.now }
{
    is_word(word, last(text, word.len()))
}

/// Whether the last part of a whole name is one that 8.3 refuses for a class.
pub fn names_refused(text: &[u8]) -> bool
    ensures { result ≡ names_refused text.now }
{
    ends_in(b"\\mixed", text) || ends_in(b"\\never", text)
}

/// Whether a token of a kind with a text is the name of the attribute that a class may have.
pub fn is_attribute_by(kind: TokenKind, text: &[u8]) -> bool
    ensures { result ≡ is_attribute_by kind text.now }
{
    match kind {
        TokenKind::Name => is_word(b"\\allowdynamicproperties", text),
        _ => false,
    }
}

/// Whether a kind is that of labels or of keywords.
pub fn is_word_kind(kind: TokenKind) -> bool
    ensures { result ≡ is_word_kind kind }
{
    match kind {
        TokenKind::Label | TokenKind::Keyword => true,
        _ => false,
    }
}

// Any label.
pub fn is_any_label(terminal: Terminal) -> bool
    ensures { result ≡ is_any_label terminal }
{
    match terminal {
        Terminal::Label | Terminal::Match | Terminal::Readonly | Terminal::MixedOrNever => true,
        _ => false,
    }
}

// A label that 8.3 refuses nowhere.
pub fn is_plain_label(terminal: Terminal) -> bool
    ensures { result ≡ is_plain_label terminal }
{
    match terminal {
        Terminal::Label => true,
        _ => false,
    }
}

// A label that 8.3 refuses at most for classes.
pub fn is_constant_label(terminal: Terminal) -> bool
    ensures { result ≡ is_constant_label terminal }
{
    match terminal {
        Terminal::Label | Terminal::MixedOrNever => true,
        _ => false,
    }
}

// A label that 8.3 allows for functions.
pub fn is_called_label(terminal: Terminal) -> bool
    ensures { result ≡ is_called_label terminal }
{
    match terminal {
        Terminal::Label | Terminal::MixedOrNever | Terminal::Readonly => true,
        _ => false,
    }
}

// A whole name with `\` between its parts.
pub fn is_qualified(terminal: Terminal) -> bool
    ensures { result ≡ is_qualified terminal }
{
    match terminal {
        Terminal::QualifiedName => true,
        _ => false,
    }
}

// A whole name that begins with `\`.
pub fn is_full(terminal: Terminal) -> bool
    ensures { result ≡ is_full terminal }
{
    match terminal {
        Terminal::FullName => true,
        _ => false,
    }
}

// A whole name that begins with `namespace\`.
pub fn is_relative(terminal: Terminal) -> bool
    ensures { result ≡ is_relative terminal }
{
    match terminal {
        Terminal::RelativeName => true,
        _ => false,
    }
}

// `class`.
pub fn is_class(terminal: Terminal) -> bool
    ensures { result ≡ is_class terminal }
{
    match terminal {
        Terminal::Class => true,
        _ => false,
    }
}

// A modifier of a member.
pub fn is_modifier(terminal: Terminal) -> bool
    ensures { result ≡ is_modifier terminal }
{
    match terminal {
        Terminal::ClassModifier | Terminal::Visibility | Terminal::Static => true,
        _ => false,
    }
}

// A sign, `~` or `@`.
pub fn is_sign_or_tight(terminal: Terminal) -> bool
    ensures { result ≡ is_sign_or_tight terminal }
{
    match terminal {
        Terminal::Plus | Terminal::Minus | Terminal::Tight => true,
        _ => false,
    }
}
