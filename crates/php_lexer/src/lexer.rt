// The tokens of a file.
ghost use Rattle.std.specs.Prelude.{All, map, ◌≡◌, ◌≤◌, ◌<◌, ◌+◌, ◌^◌, ◌++◌, ◌∷◌, length, IfOk, IfErr, OnOk, [], drop, reverse};
ghost use Rattle.php_lexer.specs.Lexed.{fault_at, code_fault, open_fault, byte_limit, TokensOf, IsFault};
ghost use Rattle.php_lexer.specs.Views.{mode_of, MarksMeet, IsAfter, IsNoted, IsStepped, first_fault};
ghost use Rattle.php_terminals.specs.Marked.{IsMark, token_at};

use crate::fault::LexFault;
use crate::modes::{Mode, ModeStep, mode_step_of, stays};
use crate::scan::next;
use php_spellings::classes::starts_word;
use php_spellings::numbers::token_kind;
use php_spellings::table::{Kind, Mark as Quote};
use php_terminals::mark::Mark;
use php_terminals::marked::{mark_at, token_of};
use php_tree::{Token, TokenKind, Version};
use std::alloc::{AllocError, Global};

const BYTE_LIMIT: usize = 1_048_576;

// The fault at a place of code where no token begins.
fn code_fault_at(at: u32, here: &[u8]) -> LexFault
    ensures { result ≡ code_fault at here.now }
{
    if starts_word(b"'", here) || starts_word(b"b'", here) {
        LexFault::OpenText(at)
    } else if starts_word(b"/*", here) {
        LexFault::OpenComment(at)
    } else if starts_word(b"<<<", here) || starts_word(b"b<<<", here) {
        LexFault::OpenHeredoc(at)
    } else {
        LexFault::BadByte(at)
    }
}

// The fault at a place where no token begins.
fn fault_here(bytes: &[u8], mode: Mode, at: u32, here: &[u8]) -> LexFault
    ensures { result ≡ fault_at (mode_of bytes.now mode) at here.now }
{
    match mode {
        Mode::Html => LexFault::BadByte(at),
        Mode::Code => code_fault_at(at, here),
        Mode::Named => code_fault_at(at, here),
        Mode::Quoted(_, _, _, _) => LexFault::BadByte(at),
        Mode::Offset => LexFault::BadByte(at),
        Mode::Property => LexFault::BadByte(at),
    }
}

fn open_fault_at(mark: Quote, at: u32) -> LexFault
    ensures { result ≡ open_fault mark at }
{
    match mark {
        Quote::Here => LexFault::OpenHeredoc(at),
        Quote::Double => LexFault::OpenText(at),
        Quote::Back => LexFault::OpenText(at),
    }
}

// The mode behind the turn.
fn follow(below: &mut Vec<Mode>, mode_step: ModeStep) -> Result<Mode, AllocError>
    ensures { IfOk result (λ m. IsAfter mode_step below.old.items m below.new.items) }
{
    match mode_step {
        ModeStep::Stay(mode) => Ok(mode),
        ModeStep::Enter(above, under) => {
            below.push(under)?;
            Ok(above)
        }
        ModeStep::Leave => match below.pop() {
            None => Ok(Mode::Code),
            Some(mode) => Ok(mode),
        },
    }
}

// Keeps where a quoted text begins, until it ends.
fn note(
    opens: &mut Vec<LexFault>,
    mode: Mode,
    mode_step: ModeStep,
    at: u32,
) -> Result<(), AllocError>
    ensures { OnOk result (IsNoted mode mode_step at opens.old.items opens.new.items) }
{
    match mode_step {
        ModeStep::Stay(_) => {}
        ModeStep::Enter(above, _) => match above {
            Mode::Quoted(mark, _, _, _) => opens.push(open_fault_at(mark, at))?,
            Mode::Html => {}
            Mode::Code => {}
            Mode::Named => {}
            Mode::Offset => {}
            Mode::Property => {}
        },
        ModeStep::Leave => match mode {
            Mode::Quoted(_, _, _, _) => {
                opens.pop();
            }
            Mode::Html => {}
            Mode::Code => {}
            Mode::Named => {}
            Mode::Offset => {}
            Mode::Property => {}
        },
    }
    Ok(())
}

// The mode behind the token at a place.
fn stepped(
    version: Version,
    bytes: &[u8],
    mode: Mode,
    kind: Kind,
    at: usize,
    len: usize,
    below: &mut Vec<Mode>,
    opens: &mut Vec<LexFault>,
) -> Result<Mode, AllocError>
    requires within { at + len ≤ length bytes.now }
    requires some { 0 < len }
    requires short { length bytes.now ≤ byte_limit }
    ensures { IfOk result (λ m. IsStepped version bytes.now mode kind at len below.old.items m below.new.items opens.old.items opens.new.items) }
{
    let mode_step = mode_step_of(version, bytes, mode, kind, at, len);
    note(opens, mode, mode_step, at as u32)?;
    let behind = follow(below, mode_step)?;
    Ok(behind)
}

// The fault of the innermost text that has not ended.
fn innermost(opens: &Vec<LexFault>) -> Option<LexFault>
    ensures { result ≡ first_fault (reverse opens.now.items) }
{
    opens.last().copied()
}

fn push(marks: &mut Vec<Mark>, mark: Mark) -> Result<(), AllocError>
    ensures { OnOk result (marks.new.items ≡ marks.old.items ++ mark ∷ []) }
{
    marks.push(mark)?;
    Ok(())
}

// The tokens of a file of no more bytes than the limit.
fn read(alloc: Global, version: Version, bytes: &[u8]) -> Result<Vec<Mark>, LexFault>
    requires { length bytes.now ≤ byte_limit }
    ensures { MarksMeet version bytes.now result }
{
    let mut marks = Vec::new(alloc);
    let mut below = Vec::new(alloc);
    let mut opens = Vec::new(alloc);
    let mut mode = Mode::Html;
    let mut lead = 0;
    let mut at = 0;
    while at < bytes.len() {
        let (_, here) = bytes.split_at(at);
        match next(version, bytes, mode, here) {
            None => return Err(fault_here(bytes, mode, at as u32, here)),
            Some((kind, len)) => {
                let (text, _) = here.split_at(len);
                if !stays(mode, kind, text) {
                    mode = stepped(version, bytes, mode, kind, at, len, &mut below, &mut opens)?;
                }
                match token_kind(kind, text) {
                    None => {}
                    Some(kind) => {
                        let mark = mark_at(bytes, kind, lead, at, at + len);
                        push(&mut marks, mark)?;
                        lead = at + len;
                    }
                }
                at += len;
            }
        }
    }
    match innermost(&opens) {
        None => {}
        Some(fault) => return Err(fault),
    }
    let end = mark_at(bytes, TokenKind::End, lead, at, at);
    push(&mut marks, end)?;
    Ok(marks)
}

fn push_token(tokens: &mut Vec<Token>, token: Token) -> Result<(), AllocError>
    ensures { OnOk result (tokens.new.items ≡ tokens.old.items ++ token ∷ []) }
{
    tokens.push(token)?;
    Ok(())
}

// The tokens at some places.
fn tokens_of_marks(alloc: Global, bytes: &[u8], marks: &[Mark]) -> Result<Vec<Token>, AllocError>
    requires { All (IsMark bytes.now) marks.now }
    ensures { IfOk result (λ tokens. tokens.items ≡ map (token_at bytes.now) marks.now) }
{
    let mut tokens = Vec::new(alloc);
    for mark in marks {
        let token = token_of(alloc, bytes, *mark)?;
        push_token(&mut tokens, token)?;
    }
    Ok(tokens)
}

/// The tokens of a file, as `lex` gives them, by their places.
pub fn lex_marks(alloc: Global, version: Version, bytes: &[u8]) -> Result<Vec<Mark>, LexFault>
    ensures tokens { IfOk result (λ marks. TokensOf version bytes.now (map (token_at bytes.now) marks.items)) }
    ensures marks { IfOk result (λ marks. All (IsMark bytes.now) marks.items) }
    ensures within { OnOk result (length bytes.now ≤ byte_limit) }
    ensures fault { IfErr result (λ fault. IsFault version bytes.now fault) }
{
    if bytes.len() > BYTE_LIMIT {
        return Err(LexFault::TooLong);
    }
    read(alloc, version, bytes)
}

/// The tokens of a file. Each is the longest of its mode at its place, by the tables of the
/// version; white space, comments and opening tags go to the token behind them. The last token is
/// the end, with no text.
///
/// `TooLong` comes for more than 1,048,576 bytes. Otherwise the first fault from the left comes
/// where there are no tokens: `OpenText`, `OpenComment` or `OpenHeredoc` with the place at which a
/// text, a comment or a heredoc without end begins, or `BadByte` with a place at which no token
/// begins. A fault within a quoted text comes before that of the text. `Memory` is want of memory.
pub fn lex(alloc: Global, version: Version, bytes: &[u8]) -> Result<Vec<Token>, LexFault>
    ensures tokens { IfOk result (λ tokens. TokensOf version bytes.now tokens.items) }
    ensures within { OnOk result (length bytes.now ≤ byte_limit) }
    ensures fault { IfErr result (λ fault. IsFault version bytes.now fault) }
{
    let marks = lex_marks(alloc, version, bytes)?;
    Ok(tokens_of_marks(alloc, bytes, marks.as_slice())?)
}
