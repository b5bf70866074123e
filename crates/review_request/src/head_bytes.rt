// The bytes of a head, up to and with the empty line that ends it.
ghost use Rattle.std.specs.Prelude.{◌≡◌, ◌≤◌, ℕ, List, [], ◌∷◌, ◌++◌, None, Some, false, IfOk, OnOk, OnErr, vec_len};
ghost use Rattle.std.specs.Bool.{OnFalse, OnTrue};
ghost use Rattle.std.specs.Option.{option_to_list};
ghost use Rattle.io_ports.specs.Causes.{HasCause};
ghost use Rattle.review_request.specs.HeadBytes.{rest_after, longer_line, IsHeadEnd};
ghost use Rattle.review_request.specs.Taken.{TookFrom, TookAll, EndsAt};

use conn_ports::{Conn, PortFault};

/// How many bytes a head has at most.
pub const MAX_HEAD: usize = 16384;

/// What came of the current line.
#[derive(Clone, Copy)]
pub enum Line {
    /// Nothing.
    Blank,
    /// A carriage return alone.
    Carriage,
    /// Something else.
    Filled,
}

/// How far a head was read: what came of the current line, and whether a line before it isn't
/// empty.
#[derive(Clone, Copy)]
pub struct Scan {
    pub line: Line,
    pub begun: bool,
}

/// What the bytes came to.
#[derive(Clone, Copy)]
pub enum HeadEnd {
    /// They are a head, with the empty line that ends it.
    Ended,
    /// They are 16,384, and the head hasn't ended in them.
    TooLong,
    /// The input ended before the head did.
    Cut,
}

impl Scan {
    /// Before the first byte.
    pub fn new() -> Scan
        ensures { result ≡ record { line = Line.Blank; begun = false } }
    {
        Scan {
            line: Line::Blank,
            begun: false,
        }
    }

    /// Takes the next byte, and answers whether the head ends with it.
    pub fn takes(&mut self, byte: u8) -> bool
        ensures ends { OnTrue result ((more : List ℕ) → rest_after self.old.line self.old.begun (byte ∷ more) ≡ Some more) }
        ensures goes_on { OnFalse result ((more : List ℕ) → rest_after self.old.line self.old.begun (byte ∷ more) ≡ rest_after self.new.line self.new.begun more) }
    {
        if byte != b'\n' {
            self.line = longer(self.line, byte);
            return false;
        }
        match self.line {
            Line::Filled => {
                self.line = Line::Blank;
                self.begun = true;
                false
            }
            Line::Blank | Line::Carriage => {
                self.line = Line::Blank;
                self.begun
            }
        }
    }
}

// The line with one byte more that doesn't end it.
fn longer(line: Line, byte: u8) -> Line
    ensures { result ≡ longer_line byte line }
{
    match line {
        Line::Blank => {
            if byte == b'\r' {
                Line::Carriage
            } else {
                Line::Filled
            }
        }
        Line::Carriage => Line::Filled,
        Line::Filled => Line::Filled,
    }
}

// Reads one byte more. None: the input has ended.
#[tactic(auto, using(crate::proofs::TakenLemmas::took_by_read, crate::proofs::TakenLemmas::ended_by_read))]
fn next_byte<C: Conn>(conn: &mut C, bytes: &mut Vec<u8>) -> Result<Option<u8>, PortFault>
    ensures came { IfOk result (λ next. bytes.new.items ≡ bytes.old.items ++ option_to_list next) }
    ensures took { OnOk result (TookFrom bytes.old.items bytes.new.items (C.link conn.old) (C.link conn.new)) }
    ensures ended { IfOk result (λ next. next ≡ None → EndsAt (C.link conn.old) (C.link conn.new)) }
    ensures same { OnErr result (C.link conn.new ≡ C.link conn.old) }
    ensures bytes { OnErr result (bytes.new.items ≡ bytes.old.items) }
    ensures cause { HasCause (C.faults conn.old) (C.faults conn.new) result }
{
    let count = conn.read(1, bytes)?;
    if count == 0 {
        return Ok(None);
    }
    Ok(bytes.last().copied())
}

/// Reads a head, one byte after another, so that nothing behind it is taken.
#[tactic(auto, using(crate::proofs::TakenLemmas::took_then, crate::proofs::TakenLemmas::took_nothing, crate::proofs::TakenLemmas::ended_then, crate::proofs::ScanLemmas::scan_ends, crate::proofs::ScanLemmas::scan_goes_on, crate::proofs::ScanLemmas::scan_open, crate::proofs::ScanLemmas::scan_cut))]
pub fn read_head<C: Conn>(conn: &mut C, bytes: &mut Vec<u8>) -> Result<HeadEnd, PortFault>
    requires { bytes.old.items ≡ [] }
    ensures end { IfOk result (λ end. IsHeadEnd bytes.new.items end) }
    ensures most { vec_len bytes.new ≤ 16384 }
    ensures took { TookAll bytes.new.items (C.link conn.old) (C.link conn.new) }
    ensures cut { IfOk result (λ end. end ≡ HeadEnd.Cut → EndsAt (C.link conn.old) (C.link conn.new)) }
    ensures cause { HasCause (C.faults conn.old) (C.faults conn.new) result }
{
    let mut scan = Scan::new();
    'scan: while bytes.len() < MAX_HEAD {
        let Some(byte) = next_byte(conn, bytes)? else {
            return Ok(HeadEnd::Cut);
        };
        if scan.takes(byte) {
            return Ok(HeadEnd::Ended);
        }
    }
    Ok(HeadEnd::TooLong)
}
