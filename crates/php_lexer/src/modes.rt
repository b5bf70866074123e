// Which mode a token leaves.
ghost use Rattle.std.specs.Prelude.{IsTrue, ◌≡◌, ◌≤◌, ◌+◌, ◌<◌, ◌∷◌, [], length, take, drop, nat_eq, true};
ghost use Rattle.php_spellings.specs.declared.table.Mark.TheVariants.{Here};
ghost use Rattle.php_lexer.specs.Modes.{is_byte, brace_mode_step, begins_arrow, begins_property, part_mode_step, ends_line, code_mode_step, quoted_mode_step, mode_step_of, html, code, quoted, offset, property, enter, stay, label_of, label_place};
ghost use Rattle.php_lexer.specs.Views.{mode_of, mode_step_seen, cut};

use php_spellings::classes::{first_is, first_letter, label_bytes, letter, line_end};
use php_spellings::table::{Kind, Mark};
use php_tree::Version;

/// A mode of the lexer; a heredoc's label stands at `from..to`.
#[derive(Clone, Copy)]
pub enum Mode {
    Html,
    Code,
    Named,
    Quoted(Mark, usize, usize, bool),
    Offset,
    Property,
}

/// What a token does to the stack of modes.
#[derive(Clone, Copy)]
pub enum ModeStep {
    Stay(Mode),
    Enter(Mode, Mode),
    Leave,
}

fn byte_is(text: &[u8], byte: u8) -> bool
    ensures { result ≡ is_byte byte text.now }
{
    match text {
        [] => false,
        [only] => *only == byte,
        [_, _, ..] => false,
    }
}

fn arrow_next(rest: &[u8]) -> bool
    ensures { result ≡ begins_arrow rest.now }
{
    match rest {
        [] => false,
        [_] => false,
        [a, b, ..] => {
            let (_, label) = rest.split_at(2);
            *a == 45 && *b == 62 && first_letter(label)
        }
    }
}

fn property_next(version: Version, rest: &[u8]) -> bool
    ensures { result ≡ begins_property version rest.now }
{
    match version {
        Version::V74 => arrow_next(rest),
        Version::V83 => match rest {
            [] => false,
            [first, ..] => {
                let (_, arrow) = rest.split_at(1);
                arrow_next(rest) || *first == 63 && arrow_next(arrow)
            }
        },
    }
}

fn line_ended(text: &[u8]) -> bool
    ensures { result ≡ ends_line text.now }
{
    !text.is_empty() && line_end(text[text.len() - 1])
}

// Where the label begins in the first line of a heredoc, behind its first byte.
fn label_start(text: &[u8]) -> usize
    ensures count { result ≡ label_place text.now }
    ensures within { result ≤ length (drop 1 text.now) }
{
    match text {
        [] => 0,
        [_, ..] => {
            let (_, rest) = text.split_at(1);
            rest.iter().take_while(|b| !letter(**b)).count()
        }
    }
}

// The start of a heredoc at `at`.
fn heredoc_stepped(bytes: &[u8], at: usize, len: usize) -> ModeStep
    requires within { at + len ≤ length bytes.now }
    requires some { 0 < len }
    ensures { mode_step_seen bytes.now result ≡ enter (quoted Here (label_of (take len (drop at bytes.now))) true) code }
{
    let (_, here) = bytes.split_at(at);
    let (text, _) = here.split_at(len);
    let from = 1 + label_start(text);
    let (_, label) = text.split_at(from);
    let to = from + label_bytes(label);
    ModeStep::Enter(
        Mode::Quoted(Mark::Here, at + from, at + to, true),
        Mode::Code,
    )
}

fn brace_stepped(bytes: &[u8], text: &[u8]) -> ModeStep
    ensures { mode_step_seen bytes.now result ≡ brace_mode_step text.now }
{
    if byte_is(text, 123) {
        ModeStep::Enter(Mode::Code, Mode::Code)
    } else if byte_is(text, 125) {
        ModeStep::Leave
    } else {
        ModeStep::Stay(Mode::Code)
    }
}

// What a token of code does, whose text is at `at`.
fn code_stepped(bytes: &[u8], kind: Kind, at: usize, len: usize) -> ModeStep
    requires within { at + len ≤ length bytes.now }
    requires some { 0 < len }
    ensures { mode_step_seen bytes.now result ≡ code_mode_step kind (take len (drop at bytes.now)) }
{
    let (_, here) = bytes.split_at(at);
    let (text, _) = here.split_at(len);
    match kind {
        Kind::Close => ModeStep::Stay(Mode::Html),
        Kind::Quote => ModeStep::Enter(Mode::Quoted(Mark::Double, 1, 0, false), Mode::Code),
        Kind::Backtick => ModeStep::Enter(Mode::Quoted(Mark::Back, 1, 0, false), Mode::Code),
        Kind::HeredocStart => heredoc_stepped(bytes, at, len),
        Kind::Op => brace_stepped(bytes, text),
        _ => ModeStep::Stay(Mode::Code),
    }
}

// Behind a variable of a quoted text in the mode.
fn part_stepped(version: Version, bytes: &[u8], mode: Mode, rest: &[u8]) -> ModeStep
    ensures { mode_step_seen bytes.now result ≡ part_mode_step version (mode_of bytes.now mode) rest.now }
{
    if first_is(91, rest) {
        ModeStep::Enter(Mode::Offset, mode)
    } else if property_next(version, rest) {
        ModeStep::Enter(Mode::Property, mode)
    } else {
        ModeStep::Stay(mode)
    }
}

// What a token of a quoted text does; the label of a heredoc stands at `from..to`.
fn quoted_stepped(
    version: Version,
    bytes: &[u8],
    mark: Mark,
    from: usize,
    to: usize,
    kind: Kind,
    text: &[u8],
    rest: &[u8],
) -> ModeStep
    ensures { mode_step_seen bytes.now result ≡ quoted_mode_step version mark (cut bytes.now from to) kind text.now rest.now }
{
    let inside = Mode::Quoted(mark, from, to, false);
    match kind {
        Kind::QuotedEnd => ModeStep::Leave,
        Kind::Variable => part_stepped(version, bytes, inside, rest),
        Kind::CurlyOpen => ModeStep::Enter(Mode::Code, inside),
        Kind::DollarBrace => ModeStep::Enter(Mode::Named, inside),
        _ => ModeStep::Stay(Mode::Quoted(mark, from, to, line_ended(text))),
    }
}

fn html_stepped(version: Version, bytes: &[u8], kind: Kind, text: &[u8], rest: &[u8]) -> ModeStep
    ensures { mode_step_seen bytes.now result ≡ mode_step_of version html kind text.now rest.now }
{
    match kind {
        Kind::InlineHtml => ModeStep::Stay(Mode::Html),
        _ => ModeStep::Stay(Mode::Code),
    }
}

fn offset_stepped(version: Version, bytes: &[u8], kind: Kind, text: &[u8], rest: &[u8]) -> ModeStep
    ensures { mode_step_seen bytes.now result ≡ mode_step_of version offset kind text.now rest.now }
{
    match kind {
        Kind::Op => {
            if byte_is(text, 93) {
                ModeStep::Leave
            } else {
                ModeStep::Stay(Mode::Offset)
            }
        }
        _ => ModeStep::Stay(Mode::Offset),
    }
}

fn property_stepped(
    version: Version,
    bytes: &[u8],
    kind: Kind,
    text: &[u8],
    rest: &[u8],
) -> ModeStep
    ensures { mode_step_seen bytes.now result ≡ mode_step_of version property kind text.now rest.now }
{
    match kind {
        Kind::Label => ModeStep::Leave,
        _ => ModeStep::Stay(Mode::Property),
    }
}

// Whether a token of code leaves the stack as it is.
fn stays_in_code(kind: Kind, text: &[u8]) -> bool
    ensures { IsTrue result → code_mode_step kind text.now ≡ stay code }
{
    match kind {
        Kind::Close => false,
        Kind::Quote => false,
        Kind::Backtick => false,
        Kind::HeredocStart => false,
        Kind::Op => !byte_is(text, 123) && !byte_is(text, 125),
        _ => true,
    }
}

/// Whether the token is one of code that leaves the stack as it is.
pub fn stays(mode: Mode, kind: Kind, text: &[u8]) -> bool
    ensures mode { IsTrue result → mode ≡ Mode.Code }
    ensures mode_step { IsTrue result → code_mode_step kind text.now ≡ stay code }
{
    match mode {
        Mode::Html => false,
        Mode::Code => stays_in_code(kind, text),
        Mode::Named => false,
        Mode::Quoted(_, _, _, _) => false,
        Mode::Offset => false,
        Mode::Property => false,
    }
}

/// What the token at `at` does to the stack.
pub fn mode_step_of(
    version: Version,
    bytes: &[u8],
    mode: Mode,
    kind: Kind,
    at: usize,
    len: usize,
) -> ModeStep
    requires within { at + len ≤ length bytes.now }
    requires some { 0 < len }
    ensures { mode_step_seen bytes.now result ≡ mode_step_of version (mode_of bytes.now mode) kind (take len (drop at bytes.now)) (drop len (drop at bytes.now)) }
{
    let (_, here) = bytes.split_at(at);
    let (text, rest) = here.split_at(len);
    match mode {
        Mode::Html => html_stepped(version, bytes, kind, text, rest),
        Mode::Code => code_stepped(bytes, kind, at, len),
        Mode::Named => code_stepped(bytes, kind, at, len),
        Mode::Quoted(mark, from, to, _) => {
            quoted_stepped(version, bytes, mark, from, to, kind, text, rest)
        }
        Mode::Offset => offset_stepped(version, bytes, kind, text, rest),
        Mode::Property => property_stepped(version, bytes, kind, text, rest),
    }
}
