// A space behind the `#` of each comment that begins `#[`.
ghost use Rattle.std.specs.Prelude.{◌≡◌, ◌<◌, ◌+◌, ◌==◌, ◌++◌, false, length, map, take_while, OnOk, drop};
ghost use Rattle.rule_tables.specs.declared.rule.RuleId.TheVariants.{HashComment};
ghost use Rattle.std.specs.List.{list_any};
ghost use Rattle.syntax_rules.specs.HashComment.{begins_hash as begins, behind_outside as behind, moved as next, next_is as follows};
ghost use Rattle.syntax_rules.specs.HashComment.{lead_by, outside as front, spaced as spaced_pieces, untouched as untouched_pieces};
ghost use Rattle.syntax_upgrade.specs.Found.{found_of};
ghost use Rattle.syntax_upgrade.specs.OffPlaces.{comments, is_in_line as in_line, off_if};
ghost use Rattle.syntax_upgrade.specs.Standings.{standing_of};
ghost use Rattle.syntax_upgrade.specs.Writing.{pieces_next};

use crate::found::{Found, add_off};
use crate::past::past as past_count;
use crate::recorder::Recorder;
use rule_tables::RuleId;
use std::alloc::AllocError;

// Where a byte of a token's trivia stands.
#[derive(Clone, Copy)]
pub(crate) enum Standing {
    Outside,
    Opening,
    Block,
    Closing,
    Line,
}

// Whether the next byte is this one.
fn next_is(byte: u8, rest: &[u8]) -> bool
    ensures { result ≡ follows byte rest.now }
{
    match rest {
        [] => false,
        [next, ..] => *next == byte,
    }
}

// Where the next byte stands behind one outside comments.
fn behind_outside(byte: u8, rest: &[u8]) -> Standing
    ensures { standing_of result ≡ behind byte rest.now }
{
    if byte == b'#' || (byte == b'/' && next_is(b'/', rest)) {
        Standing::Line
    } else if byte == b'/' && next_is(b'*', rest) {
        Standing::Opening
    } else {
        Standing::Outside
    }
}

// Where the next byte stands.
fn moved(standing: Standing, byte: u8, rest: &[u8]) -> Standing
    ensures { standing_of result ≡ next (standing_of standing) byte rest.now }
{
    match standing {
        Standing::Outside => behind_outside(byte, rest),
        Standing::Opening => Standing::Block,
        Standing::Block => {
            if byte == b'*' && next_is(b'/', rest) {
                Standing::Closing
            } else {
                Standing::Block
            }
        }
        Standing::Closing => Standing::Outside,
        Standing::Line => {
            if byte == b'\n' || byte == b'\r' {
                Standing::Outside
            } else {
                Standing::Line
            }
        }
    }
}

// Whether a comment begins `#[` here.
fn begins_hash(standing: Standing, byte: u8, rest: &[u8]) -> bool
    ensures { result ≡ begins (standing_of standing) byte rest.now }
{
    match standing {
        Standing::Outside => byte == b'#' && next_is(b'[', rest),
        Standing::Opening | Standing::Block | Standing::Closing | Standing::Line => false,
    }
}

// Whether there is a `#`.
pub(crate) fn has_hash(lead: &[u8]) -> bool
    ensures { result ≡ list_any (λ b. b == 35) lead.now }
{
    lead.iter().any(|byte| *byte == b'#')
}

/// The trivia of a token, where the rule is on or off.
pub(crate) fn write_lead(
    recorder: &mut Recorder,
    is_on: bool,
    lead: &[u8],
) -> Result<(), AllocError>
    ensures { OnOk result (recorder.new ≡ pieces_next (lead_by is_on lead.now) recorder.old) }
{
    if is_on {
        return spaced(recorder, lead);
    }
    untouched(recorder, lead)
}

// Trivia in which nothing is put in.
fn untouched(recorder: &mut Recorder, lead: &[u8]) -> Result<(), AllocError>
    ensures { OnOk result (recorder.new ≡ pieces_next (untouched_pieces lead.now) recorder.old) }
{
    match lead {
        [] => Ok(()),
        [_, ..] => some_untouched(recorder, lead),
    }
}

// The same, where there are any.
fn some_untouched(recorder: &mut Recorder, lead: &[u8]) -> Result<(), AllocError>
    requires { 0 < length lead.now }
    ensures { OnOk result (recorder.new ≡ pieces_next (untouched_pieces lead.now) recorder.old) }
{
    recorder.kept(lead)
}

// Trivia, with a space behind the `#` of each comment that begins `#[`.
fn spaced(recorder: &mut Recorder, lead: &[u8]) -> Result<(), AllocError>
    ensures { OnOk result (recorder.new ≡ pieces_next (spaced_pieces front lead.now) recorder.old) }
{
    match lead {
        [] => Ok(()),
        [_, ..] => {
            if has_hash(lead) {
                return spaced_by_byte(recorder, lead);
            }
            plain(recorder, lead)
        }
    }
}

// Trivia without a `#`.
fn plain(recorder: &mut Recorder, lead: &[u8]) -> Result<(), AllocError>
    requires some { 0 < length lead.now }
    requires none { list_any (λ b. b == 35) lead.now ≡ false }
    ensures { OnOk result (recorder.new ≡ pieces_next (spaced_pieces front lead.now) recorder.old) }
{
    recorder.kept(lead)
}

// The same, byte by byte.
fn spaced_by_byte(recorder: &mut Recorder, lead: &[u8]) -> Result<(), AllocError>
    ensures { OnOk result (recorder.new ≡ pieces_next (spaced_pieces front lead.now) recorder.old) }
{
    let mut standing = Standing::Outside;
    let mut rest = lead;
    for byte in lead {
        rest = tail(rest);
        recorder.kept_one(*byte)?;
        if begins_hash(standing, *byte, rest) {
            recorder.changed(b" ")?;
        }
        standing = moved(standing, *byte, rest);
    }
    Ok(())
}

// Whether a byte ends no line.
fn is_in_line(byte: u8) -> bool
    ensures { result ≡ in_line byte }
{
    !(byte == b'\n' || byte == b'\r')
}

// How many bytes stand before the line's end.
fn line_length(bytes: &[u8]) -> usize
    ensures { result ≡ length (take_while in_line bytes.now) }
{
    bytes.iter().take_while(|byte| is_in_line(**byte)).count()
}

// Puts a comment that begins at a place, with these bytes behind its first one, behind other places, if it is one.
fn add_comment(is_one: bool, at: u32, rest: &[u8], out: &mut Vec<Found>) -> Result<(), AllocError>
    ensures { OnOk result (map found_of out.new.items ≡ map found_of out.old.items
        ++ off_if is_one HashComment at (at + 1 + length (take_while in_line rest.now))) }
{
    if !is_one {
        return Ok(());
    }
    let end = past_count(past_count(at, 1)?, line_length(rest))?;
    add_off(at, end, RuleId::HashComment, out)
}

/// Puts the comments that begin `#[`, in trivia that begin at a place, behind other places.
pub(crate) fn add_comments(lead: &[u8], at: u32, out: &mut Vec<Found>) -> Result<(), AllocError>
    ensures { OnOk result (map found_of out.new.items ≡ map found_of out.old.items ++ comments front at lead.now) }
{
    let mut standing = Standing::Outside;
    let mut rest = lead;
    let mut place = at;
    for byte in lead {
        rest = tail(rest);
        add_comment(begins_hash(standing, *byte, rest), place, rest, out)?;
        standing = moved(standing, *byte, rest);
        place = past_count(place, 1)?;
    }
    Ok(())
}

// The bytes behind the first one.
fn tail(bytes: &[u8]) -> &[u8]
    ensures { result.now ≡ drop 1 bytes.now }
{
    match bytes {
        [] => bytes,
        [_, behind @ ..] => behind,
    }
}
