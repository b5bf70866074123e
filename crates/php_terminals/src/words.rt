// Words told by their texts.
ghost use Rattle.std.specs.Prelude.{◌≡◌, ◌<◌, length, take};
ghost use Rattle.php_terminals.specs.declared.terminal.Terminal.TheVariants.{OtherKeyword};
ghost use Rattle.php_terminals.specs.Words.{find_row, front, is_word, keyword, keywords, label, last_of, operator, row_class, rows_of, second_of, slot};

use crate::terminal::Terminal;

// The keywords of PHP 7.4 that forms have, in lower case.
static KEYWORDS: [(&str, Terminal); 66] = [
    ("array", Terminal::Array),
    ("as", Terminal::As),
    ("break", Terminal::Break),
    ("callable", Terminal::Callable),
    ("case", Terminal::Case),
    ("catch", Terminal::Catch),
    ("class", Terminal::Class),
    ("clone", Terminal::Clone),
    ("const", Terminal::Const),
    ("continue", Terminal::Continue),
    ("declare", Terminal::Declare),
    ("default", Terminal::Default),
    ("do", Terminal::Do),
    ("echo", Terminal::Echo),
    ("else", Terminal::Else),
    ("elseif", Terminal::ElseIf),
    ("empty", Terminal::Empty),
    ("enddeclare", Terminal::EndDeclare),
    ("endfor", Terminal::EndFor),
    ("endforeach", Terminal::EndForeach),
    ("endif", Terminal::EndIf),
    ("endswitch", Terminal::EndSwitch),
    ("endwhile", Terminal::EndWhile),
    ("eval", Terminal::Eval),
    ("exit", Terminal::Exit),
    ("die", Terminal::Exit),
    ("extends", Terminal::Extends),
    ("finally", Terminal::Finally),
    ("fn", Terminal::Fn),
    ("for", Terminal::For),
    ("foreach", Terminal::Foreach),
    ("function", Terminal::Function),
    ("global", Terminal::Global),
    ("goto", Terminal::Goto),
    ("if", Terminal::If),
    ("implements", Terminal::Implements),
    ("include", Terminal::Include),
    ("include_once", Terminal::Include),
    ("require", Terminal::Include),
    ("require_once", Terminal::Include),
    ("instanceof", Terminal::InstanceOf),
    ("interface", Terminal::Interface),
    ("isset", Terminal::Isset),
    ("list", Terminal::List),
    ("namespace", Terminal::Namespace),
    ("new", Terminal::New),
    ("and", Terminal::And),
    ("or", Terminal::Or),
    ("xor", Terminal::Xor),
    ("print", Terminal::Print),
    ("abstract", Terminal::ClassModifier),
    ("final", Terminal::ClassModifier),
    ("public", Terminal::Visibility),
    ("protected", Terminal::Visibility),
    ("private", Terminal::Visibility),
    ("var", Terminal::Visibility),
    ("return", Terminal::Return),
    ("static", Terminal::Static),
    ("switch", Terminal::Switch),
    ("throw", Terminal::Throw),
    ("trait", Terminal::Trait),
    ("try", Terminal::Try),
    ("unset", Terminal::Unset),
    ("use", Terminal::Use),
    ("while", Terminal::While),
    ("yield", Terminal::Yield),
];

// The row of each keyword, by its slot.
static KEYWORD_PLACES: [u8; 512] = [
    0, 0, 0, 0, 0, 0, 0, 0, 0, 0, 0, 0, 0, 0, 0, 0, 0, 0, 59, 0, 31, 0, 0, 0, 62, 0, 0, 0, 42, 0,
    0, 24, 0, 0, 0, 0, 0, 0, 0, 0, 0, 49, 0, 16, 0, 0, 0, 0, 0, 0, 0, 0, 0, 60, 0, 0, 0, 0, 0, 0,
    0, 0, 0, 0, 27, 0, 0, 0, 0, 0, 0, 0, 0, 0, 0, 0, 0, 0, 61, 0, 0, 0, 0, 0, 0, 0, 0, 0, 0, 0, 35,
    26, 0, 0, 0, 0, 0, 0, 0, 0, 0, 0, 0, 0, 0, 0, 0, 0, 0, 0, 0, 0, 0, 0, 0, 0, 0, 0, 0, 0, 0, 0,
    0, 0, 0, 0, 0, 0, 4, 0, 0, 0, 0, 0, 0, 0, 0, 0, 0, 0, 0, 0, 0, 0, 0, 0, 0, 0, 0, 0, 0, 34, 0,
    0, 0, 0, 0, 0, 0, 0, 0, 0, 0, 0, 0, 0, 0, 0, 0, 0, 25, 0, 0, 0, 0, 0, 0, 0, 0, 0, 0, 0, 0, 0,
    0, 0, 46, 0, 0, 0, 0, 0, 0, 0, 0, 0, 0, 0, 5, 0, 0, 0, 0, 0, 0, 0, 0, 0, 0, 0, 0, 0, 0, 0, 0,
    0, 0, 0, 0, 0, 0, 0, 14, 0, 0, 0, 0, 0, 3, 0, 0, 0, 0, 0, 0, 0, 0, 0, 10, 0, 0, 7, 0, 0, 0, 0,
    0, 0, 0, 0, 0, 0, 0, 0, 0, 0, 0, 0, 0, 0, 0, 0, 0, 0, 0, 0, 0, 0, 65, 64, 0, 0, 0, 0, 0, 0, 0,
    0, 20, 0, 38, 0, 0, 0, 0, 0, 44, 15, 0, 0, 0, 0, 0, 0, 0, 0, 0, 0, 0, 0, 13, 63, 0, 0, 0, 0, 0,
    0, 0, 0, 0, 0, 0, 0, 0, 0, 0, 0, 0, 0, 0, 0, 0, 0, 0, 36, 28, 0, 0, 0, 0, 51, 0, 0, 0, 0, 0, 0,
    22, 0, 9, 0, 0, 12, 0, 0, 0, 52, 57, 0, 0, 0, 0, 0, 0, 55, 0, 0, 0, 0, 0, 0, 0, 0, 0, 0, 0, 0,
    0, 30, 0, 0, 0, 0, 0, 41, 2, 0, 54, 0, 0, 0, 0, 32, 0, 0, 0, 0, 17, 0, 56, 0, 0, 0, 0, 0, 0, 0,
    0, 0, 0, 0, 33, 0, 0, 39, 0, 23, 21, 0, 0, 0, 0, 53, 0, 40, 0, 0, 0, 29, 0, 0, 0, 0, 0, 0, 1,
    0, 0, 0, 0, 0, 0, 19, 0, 0, 0, 0, 45, 0, 0, 0, 0, 0, 43, 47, 0, 58, 0, 0, 37, 6, 0, 0, 0, 50,
    0, 0, 0, 0, 0, 0, 0, 11, 0, 0, 0, 0, 0, 0, 0, 0, 0, 48, 0, 0, 0, 0, 0, 0, 0, 0, 0, 18, 0, 0, 0,
    0, 0, 0, 8, 0, 0, 0, 0, 0, 0, 0, 0, 0, 0, 0, 0, 0, 0, 0, 0, 0, 0, 0, 0, 0,
];

// The operators and brackets that forms have.
static OPERATORS: [(&str, Terminal); 59] = [
    ("(", Terminal::OpenParen),
    (")", Terminal::CloseParen),
    ("[", Terminal::OpenBracket),
    ("]", Terminal::CloseBracket),
    ("{", Terminal::OpenBrace),
    ("}", Terminal::CloseBrace),
    (",", Terminal::Comma),
    (":", Terminal::Colon),
    ("::", Terminal::DoubleColon),
    ("->", Terminal::Arrow),
    ("=>", Terminal::DoubleArrow),
    ("\\", Terminal::Backslash),
    ("$", Terminal::Dollar),
    ("...", Terminal::Ellipsis),
    ("?", Terminal::Question),
    ("=", Terminal::Assign),
    ("+=", Terminal::CompoundAssign),
    ("-=", Terminal::CompoundAssign),
    ("*=", Terminal::CompoundAssign),
    ("/=", Terminal::CompoundAssign),
    (".=", Terminal::CompoundAssign),
    ("%=", Terminal::CompoundAssign),
    ("**=", Terminal::CompoundAssign),
    ("&=", Terminal::CompoundAssign),
    ("|=", Terminal::CompoundAssign),
    ("^=", Terminal::CompoundAssign),
    ("<<=", Terminal::CompoundAssign),
    (">>=", Terminal::CompoundAssign),
    ("??=", Terminal::CompoundAssign),
    ("**", Terminal::Power),
    ("+", Terminal::Plus),
    ("-", Terminal::Minus),
    ("*", Terminal::Factor),
    ("/", Terminal::Factor),
    ("%", Terminal::Factor),
    ("<<", Terminal::Shift),
    (">>", Terminal::Shift),
    (".", Terminal::Dot),
    ("<", Terminal::Order),
    ("<=", Terminal::Order),
    (">", Terminal::Order),
    (">=", Terminal::Order),
    ("==", Terminal::Equality),
    ("!=", Terminal::Equality),
    ("===", Terminal::Equality),
    ("!==", Terminal::Equality),
    ("<>", Terminal::Equality),
    ("<=>", Terminal::Equality),
    ("&", Terminal::Ampersand),
    ("^", Terminal::Caret),
    ("|", Terminal::Bar),
    ("&&", Terminal::BooleanAnd),
    ("||", Terminal::BooleanOr),
    ("??", Terminal::Coalesce),
    ("++", Terminal::Step),
    ("--", Terminal::Step),
    ("!", Terminal::Not),
    ("~", Terminal::Tight),
    ("@", Terminal::Tight),
];

// The row of each operator, by its slot.
static OPERATOR_PLACES: [u8; 512] = [
    0, 0, 0, 0, 0, 0, 0, 0, 0, 0, 0, 0, 0, 0, 51, 0, 43, 0, 0, 0, 0, 0, 8, 0, 0, 0, 0, 0, 21, 0, 0,
    23, 0, 0, 0, 0, 0, 0, 0, 0, 0, 45, 0, 18, 0, 7, 16, 0, 0, 0, 0, 0, 17, 0, 0, 20, 0, 0, 19, 0,
    0, 0, 0, 0, 0, 0, 0, 0, 0, 0, 0, 0, 0, 0, 35, 9, 0, 0, 0, 0, 0, 38, 0, 0, 0, 0, 0, 0, 0, 0, 0,
    0, 0, 0, 0, 0, 0, 39, 0, 15, 42, 0, 0, 41, 0, 0, 0, 56, 0, 0, 0, 0, 0, 0, 26, 0, 0, 40, 29, 0,
    46, 0, 0, 10, 0, 44, 36, 2, 0, 0, 0, 0, 0, 0, 0, 14, 27, 47, 0, 0, 0, 0, 0, 0, 54, 11, 0, 28,
    0, 0, 0, 0, 53, 58, 0, 0, 0, 0, 0, 0, 0, 12, 0, 3, 0, 0, 0, 0, 0, 0, 0, 0, 0, 0, 0, 0, 0, 0, 0,
    34, 0, 49, 0, 0, 0, 0, 0, 0, 0, 0, 0, 4, 0, 0, 0, 0, 55, 48, 0, 25, 0, 0, 52, 0, 0, 0, 0, 0, 0,
    50, 0, 0, 0, 0, 0, 0, 0, 0, 0, 0, 0, 0, 0, 0, 0, 0, 0, 5, 0, 0, 0, 0, 0, 0, 0, 0, 0, 0, 0, 0,
    0, 0, 0, 0, 0, 57, 0, 13, 0, 0, 0, 1, 0, 0, 0, 0, 0, 0, 0, 0, 0, 0, 0, 0, 0, 0, 0, 0, 0, 32, 0,
    0, 0, 0, 0, 0, 0, 0, 0, 0, 0, 0, 0, 0, 0, 0, 0, 30, 0, 24, 0, 0, 0, 0, 0, 0, 0, 0, 0, 0, 0, 0,
    0, 0, 0, 6, 0, 0, 0, 0, 0, 0, 0, 0, 0, 0, 0, 0, 0, 0, 0, 0, 0, 31, 0, 0, 0, 0, 0, 0, 0, 0, 0,
    0, 0, 0, 0, 0, 0, 0, 0, 37, 0, 0, 0, 0, 0, 0, 0, 0, 0, 0, 0, 0, 0, 0, 0, 0, 0, 33, 0, 0, 0, 0,
    0, 0, 0, 0, 0, 0, 0, 0, 0, 0, 0, 0, 0, 0, 0, 0, 0, 0, 0, 0, 0, 0, 0, 0, 0, 0, 0, 0, 0, 0, 0, 0,
    0, 0, 0, 0, 0, 0, 0, 0, 0, 0, 0, 0, 0, 0, 0, 0, 0, 0, 0, 0, 0, 0, 0, 0, 0, 0, 0, 0, 0, 0, 0, 0,
    22, 0, 0, 0, 0, 0, 0, 0, 0, 0, 0, 0, 0, 0, 0, 0, 0, 0, 0, 0, 0, 0, 0, 0, 0, 0, 0, 0, 0, 0, 0,
    0, 0, 0, 0, 0, 0, 0, 0, 0, 0, 0, 0, 0, 0, 0, 0, 0, 0, 0, 0, 0, 0, 0, 0, 0, 0, 0, 0, 0, 0, 0, 0,
    0, 0, 0, 0, 0, 0, 0, 0, 0, 0, 0, 0, 0, 0, 0, 0, 0, 0, 0, 0, 0,
];

// The labels that 8.3 refuses in places.
static LABELS: [(&str, Terminal); 4] = [
    ("match", Terminal::Match),
    ("readonly", Terminal::Readonly),
    ("mixed", Terminal::MixedOrNever),
    ("never", Terminal::MixedOrNever),
];

/// Whether the text is the word, which is in lower case; without ASCII case.
#[tactic(auto, using(crate::proofs::WordLemmas::lengths_differ, crate::proofs::WordLemmas::byte_differs, crate::proofs::WordLemmas::byte_agrees, crate::proofs::WordLemmas::both_end))]
pub fn is_word(word: &[u8], text: &[u8]) -> bool
    ensures { result ≡ is_word word.now text.now }
{
    if word.len() != text.len() {
        return false;
    }
    for i in 0..word.len() {
        if word[i] != text[i].to_ascii_lowercase() {
            return false;
        }
    }
    true
}

/// The first bytes of the text, as many as there are.
pub fn front(text: &[u8], count: usize) -> &[u8]
    ensures { result.now ≡ front count text.now }
{
    if text.len() <= count {
        text
    } else {
        &text[..count]
    }
}

// The class of the first row whose word the text is, or this other one.
fn find_row(rows: &[(&'static str, Terminal)], other: Terminal, text: &[u8]) -> Terminal
    ensures { result ≡ find_row other (rows_of rows.now) text.now }
{
    for (word, terminal) in rows {
        if is_word(word.as_bytes(), text) {
            return *terminal;
        }
    }
    other
}

// The second byte of a text in lower case, by the bytes behind its first one.
fn second_of(rest: &[u8]) -> u8
    ensures { result ≡ second_of rest.now }
{
    match rest {
        [] => 0,
        [byte, ..] => byte.to_ascii_lowercase(),
    }
}

// The last byte of a text in lower case, by its first byte and those behind it.
#[tactic(auto, using(crate::proofs::SlotLemmas::last_is))]
fn last_of(first: u8, rest: &[u8]) -> u8
    ensures { result ≡ last_of first rest.now }
{
    if rest.is_empty() {
        first.to_ascii_lowercase()
    } else {
        rest[rest.len() - 1].to_ascii_lowercase()
    }
}

// The slot of a text in the tables.
fn slot(text: &[u8]) -> usize
    ensures is { result ≡ slot text.now }
    ensures within { result < 512 }
{
    match text {
        [] => 0,
        [first, rest @ ..] => {
            let front = 3 * first.to_ascii_lowercase() as usize + 8 * second_of(rest) as usize;
            (25 * (text.len() % 256) + front + 15 * last_of(*first, rest) as usize) % 512
        }
    }
}

// The class of the row at a place, if its word is the text, or this other one.
fn row_class(
    rows: &[(&'static str, Terminal)],
    place: usize,
    other: Terminal,
    text: &[u8],
) -> Terminal
    requires { place < length rows.now }
    ensures { result ≡ row_class other (rows_of rows.now) place text.now }
{
    let (word, terminal) = rows[place];
    if is_word(word.as_bytes(), text) {
        terminal
    } else {
        other
    }
}

// The class of the keyword that the text is, or that of other ones.
fn listed_keyword(text: &[u8]) -> Terminal
    ensures { result ≡ find_row OtherKeyword keywords text.now }
{
    let place = KEYWORD_PLACES[slot(text)] as usize;
    row_class(&KEYWORDS, place, Terminal::OtherKeyword, text)
}

/// The class of a keyword.
pub fn keyword(text: &[u8]) -> Terminal
    ensures { result ≡ keyword text.now }
{
    if text.len() > 5 && is_word(b"yield", front(text, 5)) {
        return Terminal::YieldFrom;
    }
    listed_keyword(text)
}

/// The class of an operator.
pub fn operator(text: &[u8]) -> Terminal
    ensures { result ≡ operator text.now }
{
    let place = OPERATOR_PLACES[slot(text)] as usize;
    row_class(&OPERATORS, place, Terminal::OtherOp, text)
}

/// The class of a label.
#[tactic(auto, unfolding(crate::specs::Words::labels))]
pub fn label(text: &[u8]) -> Terminal
    ensures { result ≡ label text.now }
{
    find_row(&LABELS, Terminal::Label, text)
}
