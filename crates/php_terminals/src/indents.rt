// The indentation of heredocs and nowdocs.
ghost use Rattle.std.specs.Prelude.{◌≡◌, [], drop, true};
ghost use Rattle.php_terminals.specs.Indents.{blank_len, ends_line, fresh_by, is_blank_byte, is_blank_line, is_indented, is_line_end, is_nowdoc, is_uniform, last_line, leaf_fits_by, line_ends_at, line_fits, margin, node_fits, run_len, starts, text_fits};

use crate::terminal::Terminal;
use crate::words::{front, is_word};

// A space or a tab.
fn is_blank_byte(byte: u8) -> bool
    ensures { result ≡ is_blank_byte byte }
{
    byte == b' ' || byte == b'\t'
}

// A byte that ends a line.
fn is_line_end(byte: u8) -> bool
    ensures { result ≡ is_line_end byte }
{
    byte == b'\n' || byte == b'\r'
}

// The bytes behind so many.
fn behind_bytes(text: &[u8], count: usize) -> &[u8]
    ensures { result.now ≡ drop count text.now }
{
    if count <= text.len() {
        text.split_at(count).1
    } else {
        &[]
    }
}

// How many blanks the bytes begin with.
fn blank_len(text: &[u8]) -> usize
    ensures { result ≡ blank_len text.now }
{
    text.iter().take_while(|byte| is_blank_byte(**byte)).count()
}

// Whether a line end stands at the place.
fn line_ends_at(at: usize, text: &[u8]) -> bool
    ensures { result ≡ line_ends_at at text.now }
{
    if at < text.len() {
        is_line_end(text[at])
    } else {
        false
    }
}

// Whether the line that begins here has only blanks.
fn is_blank_line(text: &[u8]) -> bool
    ensures { result ≡ is_blank_line text.now }
{
    line_ends_at(blank_len(text), text)
}

// Whether the bytes begin with the indentation.
fn starts(indent: &[u8], text: &[u8]) -> bool
    ensures { result ≡ starts indent.now text.now }
{
    is_word(indent, front(text, indent.len()))
}

// Whether the line that begins here has the indentation, or only blanks.
#[tactic(auto, unfolding(crate::specs::Indents::line_fits))]
fn line_fits(indent: &[u8], text: &[u8]) -> bool
    ensures { result ≡ line_fits indent.now text.now }
{
    starts(indent, text) || is_blank_line(text)
}

/// Whether each line that begins in the bytes fits; `fresh` where one begins at their front.
pub fn is_indented(indent: &[u8], fresh: bool, text: &[u8]) -> bool
    ensures { result ≡ is_indented indent.now fresh text.now }
{
    let mut begins = fresh;
    for i in 0..text.len() {
        if begins && !line_fits(indent, behind_bytes(text, i)) {
            return false;
        }
        begins = is_line_end(text[i]);
    }
    true
}

/// Whether a line begins behind the bytes.
pub fn ends_line(fresh: bool, text: &[u8]) -> bool
    ensures { result ≡ ends_line fresh text.now }
{
    if text.is_empty() {
        fresh
    } else {
        is_line_end(text[text.len() - 1])
    }
}

/// The blanks that the bytes begin with.
pub fn margin(text: &[u8]) -> &[u8]
    ensures { result.now ≡ margin text.now }
{
    front(text, blank_len(text))
}

/// Whether the blanks are all spaces, or all tabs.
pub fn is_uniform(indent: &[u8]) -> bool
    ensures { result ≡ is_uniform indent.now }
{
    run_len(b' ', indent) == indent.len() || run_len(b'\t', indent) == indent.len()
}

// How many of one byte the bytes begin with.
fn run_len(byte: u8, text: &[u8]) -> usize
    ensures { result ≡ run_len byte text.now }
{
    text.iter().take_while(|other| **other == byte).count()
}

// The last line of a text.
fn last_line(text: &[u8]) -> &[u8]
    ensures { result.now ≡ last_line text.now text.now }
{
    let mut line = text;
    for i in 0..text.len() {
        if is_line_end(text[i]) {
            line = behind_bytes(text, i + 1);
        }
    }
    line
}

// Whether a text is a nowdoc.
fn is_nowdoc(text: &[u8]) -> bool
    ensures { result ≡ is_nowdoc text.now }
{
    is_word(b"<<<", front(text, 3)) || is_word(b"b<<<", front(text, 4))
}

/// Whether a text is no nowdoc, or one whose lines fit.
pub fn text_fits(text: &[u8]) -> bool
    ensures { result ≡ text_fits text.now }
{
    if !is_nowdoc(text) {
        return true;
    }
    let indent = margin(last_line(text));
    is_uniform(indent) && is_indented(indent, false, text)
}

/// Whether a token of a class between the opening and the closing of a heredoc fits.
pub fn leaf_fits_by(class: Terminal, indent: &[u8], fresh: bool, text: &[u8]) -> bool
    ensures { result ≡ leaf_fits_by class indent.now fresh text.now }
{
    match class {
        Terminal::Piece => is_indented(indent, fresh, text),
        Terminal::QuotedEnd => true,
        _ => node_fits(indent, fresh),
    }
}

/// Whether a part that is no text may stand here: where no line begins, or none is indented.
pub fn node_fits(indent: &[u8], fresh: bool) -> bool
    ensures { result ≡ node_fits indent.now fresh }
{
    !fresh || indent.is_empty()
}

/// Whether a line begins behind a token of a class.
pub fn fresh_by(class: Terminal, fresh: bool, text: &[u8]) -> bool
    ensures { result ≡ fresh_by class fresh text.now }
{
    match class {
        Terminal::Piece => ends_line(fresh, text),
        _ => false,
    }
}
