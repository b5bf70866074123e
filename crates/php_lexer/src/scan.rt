// Which token comes next in each mode.
ghost use Rattle.std.specs.Prelude.{cond, Some, None, ◌≡◌, ◌≤◌, ◌+◌, ◌<◌, ◌∷◌, [], length, IfSome, IfNone, true};
ghost use Rattle.php_lexer.specs.RulesCode.{html_rows};
ghost use Rattle.php_lexer.specs.RulesQuoted.{end_rows, from_line, quoted_rows, offset_rows, property_rows};
ghost use Rattle.php_lexer.specs.Modes.{kind_of, IsLongest, HasNone};
ghost use Rattle.php_spellings.specs.declared.table.Follow.TheVariants.{Anything};
ghost use Rattle.php_spellings.specs.declared.table.Tail.TheVariants.{When};
ghost use Rattle.php_spellings.specs.Bytes.{lower};
ghost use Rattle.php_lexer.specs.Scan.{behind, tail_len, scan_by, scan};
ghost use Rattle.php_lexer.specs.Views.{mode_of, cut};

use crate::code::code_scan;
use crate::modes::Mode;
use crate::rows::{longer, word};
use php_spellings::table::{Follow, Kind, Mark, Run, Shape, Spot, State, Tail};
use php_tree::Version;

fn alone(text: &[u8], bytes: &[u8]) -> Option<usize>
    ensures { result ≡ behind lower text.now (tail_len [] (When Anything)) bytes.now }
{
    word(text, Tail::When(Follow::Anything), b"", bytes)
}

fn html_scan(bytes: &[u8]) -> Option<(Kind, usize)>
    ensures { result ≡ scan_by [] html_rows bytes.now }
{
    let run = word(b"", Tail::SomeOf(Run::Html, State::First), b"", bytes);
    let text = longer(Kind::InlineHtml, run, None);
    let end = word(b"<?php", Tail::When(Follow::Nothing), b"", bytes);
    let last = longer(Kind::Tag, end, text);
    let both = longer(Kind::Tag, alone(b"<?php\r\n", bytes), last);
    let carriage = longer(Kind::Tag, alone(b"<?php\r", bytes), both);
    let line = longer(Kind::Tag, alone(b"<?php\n", bytes), carriage);
    let tab = longer(Kind::Tag, alone(b"<?php\t", bytes), line);
    let space = longer(Kind::Tag, alone(b"<?php ", bytes), tab);
    longer(Kind::OpenEcho, alone(b"<?=", bytes), space)
}

fn end_scan(mark: Mark, label: &[u8], fresh: bool, bytes: &[u8]) -> Option<(Kind, usize)>
    ensures { result ≡ scan_by label.now (end_rows mark fresh) bytes.now }
{
    let always = Tail::When(Follow::Anything);
    match mark {
        Mark::Double => longer(Kind::QuotedEnd, word(b"\"", always, label, bytes), None),
        Mark::Back => longer(Kind::QuotedEnd, word(b"`", always, label, bytes), None),
        Mark::Here => {
            if fresh {
                longer(
                    Kind::QuotedEnd,
                    word(b"", Tail::EndLine, label, bytes),
                    None,
                )
            } else {
                None
            }
        }
    }
}

fn line_state(fresh: bool) -> State
    ensures { result ≡ from_line fresh }
{
    if fresh { State::First } else { State::Plain }
}

fn quoted_scan(mark: Mark, label: &[u8], fresh: bool, bytes: &[u8]) -> Option<(Kind, usize)>
    ensures { result ≡ scan_by label.now (quoted_rows mark fresh) bytes.now }
{
    let end = end_scan(mark, label, fresh, bytes);
    let run = Tail::SomeOf(Run::Body(mark), line_state(fresh));
    let piece = longer(Kind::Piece, word(b"", run, label, bytes), end);
    let braces = word(b"${", Tail::When(Follow::Anything), label, bytes);
    let dollar = longer(Kind::DollarBrace, braces, piece);
    let brace = word(b"{", Tail::When(Follow::Dollar), label, bytes);
    let curly = longer(Kind::CurlyOpen, brace, dollar);
    let name = word(b"$", Tail::SomeOf(Run::Labels, State::First), label, bytes);
    longer(Kind::Variable, name, curly)
}

fn offset_scan(bytes: &[u8]) -> Option<(Kind, usize)>
    ensures { result ≡ scan_by [] offset_rows bytes.now }
{
    let two = word(b"0b", Tail::Shaped(Shape::Binary, Spot::Begin), b"", bytes);
    let binary = longer(Kind::Digits, two, None);
    let sixteen = word(
        b"0x",
        Tail::Shaped(Shape::Hexadecimal, Spot::Begin),
        b"",
        bytes,
    );
    let hexadecimal = longer(Kind::Digits, sixteen, binary);
    let ten = word(b"", Tail::Shaped(Shape::Digits, Spot::Begin), b"", bytes);
    let digits = longer(Kind::Digits, ten, hexadecimal);
    let name = word(b"", Tail::SomeOf(Run::Labels, State::First), b"", bytes);
    let label = longer(Kind::Label, name, digits);
    let dollar = word(b"$", Tail::SomeOf(Run::Labels, State::First), b"", bytes);
    let variable = longer(Kind::Variable, dollar, label);
    let minus = longer(Kind::Op, alone(b"-", bytes), variable);
    let close = longer(Kind::Op, alone(b"]", bytes), minus);
    longer(Kind::Op, alone(b"[", bytes), close)
}

fn property_scan(version: Version, bytes: &[u8]) -> Option<(Kind, usize)>
    ensures { result ≡ scan_by [] (property_rows version) bytes.now }
{
    let name = word(b"", Tail::SomeOf(Run::Labels, State::First), b"", bytes);
    let label = longer(Kind::Label, name, None);
    match version {
        Version::V74 => longer(Kind::Op, alone(b"->", bytes), label),
        Version::V83 => {
            let careful = longer(Kind::Op, alone(b"?->", bytes), label);
            longer(Kind::Op, alone(b"->", bytes), careful)
        }
    }
}

// The label of a heredoc.
fn label_at(bytes: &[u8], from: usize, to: usize) -> &[u8]
    ensures { result.now ≡ cut bytes.now from to }
{
    if from <= to && to <= bytes.len() {
        &bytes[from..to]
    } else {
        &[]
    }
}

// The next token of the mode, where the bytes from its place on are `here`.
fn scanned(version: Version, bytes: &[u8], mode: Mode, here: &[u8]) -> Option<(Kind, usize)>
    ensures { result ≡ scan version (mode_of bytes.now mode) here.now }
{
    match mode {
        Mode::Html => html_scan(here),
        Mode::Code => code_scan(version, here),
        Mode::Named => longer(
            Kind::VarName,
            word(b"", Tail::BracedName, b"", here),
            code_scan(version, here),
        ),
        Mode::Quoted(mark, from, to, fresh) => {
            quoted_scan(mark, label_at(bytes, from, to), fresh, here)
        }
        Mode::Offset => offset_scan(here),
        Mode::Property => property_scan(version, here),
    }
}

/// The next token of the mode, which is the longest.
pub fn next(version: Version, bytes: &[u8], mode: Mode, here: &[u8]) -> Option<(Kind, usize)>
    ensures found { IfSome result (λ x. IsLongest version (mode_of bytes.now mode) here.now x.0 x.1) }
    ensures within { IfSome result (λ x. x.1 ≤ length here.now) }
    ensures some { IfSome result (λ x. 0 < x.1) }
    ensures none { IfNone result (HasNone version (mode_of bytes.now mode) here.now) }
{
    scanned(version, bytes, mode, here)
}
