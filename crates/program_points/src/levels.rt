// Over how many loops a jump goes.
ghost use Rattle.std.specs.Prelude.{◌≡◌, ◌≤◌, ◌+◌, ◌*◌, ◌==◌, if◌then◌else◌};
ghost use Rattle.php_rows.specs.Reading.{forest_in};
ghost use Rattle.program_points.specs.Levels as spec;

use php_rows::{Parts, Step};
use php_terminals::marked::text_of;

// The value of a digit.
fn digit(byte: u8) -> u8
    ensures { result ≡ spec.digit byte }
{
    if byte <= 57 {
        return byte.saturating_sub(48);
    }
    if byte <= 70 {
        return byte.saturating_sub(55);
    }
    byte.saturating_sub(87)
}

// No more than 2^32 - 1 is counted.
fn capped(value: u64) -> u32
    ensures { result ≡ spec.capped value }
{
    if value <= 4294967295 {
        return value as u32;
    }
    4294967295
}

// A number to a base with a further digit.
fn with_digit(base: u32, value: u32, byte: u8) -> u32
    requires { base ≤ 16 }
    ensures { result ≡ (if byte == 95 then value else spec.capped (base * value + spec.digit byte)) }
{
    if byte == b'_' {
        return value;
    }
    capped(base as u64 * value as u64 + digit(byte) as u64)
}

// The value of digits to a base.
fn digits(base: u32, text: &[u8]) -> u32
    requires { base ≤ 16 }
    ensures { result ≡ spec.digits_from base 0 text.now }
{
    let mut value = 0;
    let mut left = text;
    while let [byte, behind @ ..] = left {
        value = with_digit(base, value, *byte);
        left = behind;
    }
    value
}

// The value of an int literal.
fn int_value(text: &[u8]) -> u32
    ensures { result ≡ spec.int_value text.now }
{
    match text {
        [] => 0,
        [byte] => digit(*byte) as u32,
        [first, behind @ ..] => {
            if *first != b'0' {
                return digits(10, text);
            }
            behind_zero(behind)
        }
    }
}

// The value of what stands behind a leading zero.
fn behind_zero(text: &[u8]) -> u32
    ensures { result ≡ spec.behind_zero text.now }
{
    match text {
        [] => 0,
        [sign, behind @ ..] => {
            if *sign == b'x' || *sign == b'X' {
                return digits(16, behind);
            }
            if *sign == b'b' || *sign == b'B' {
                return digits(2, behind);
            }
            digits(8, text)
        }
    }
}

fn begins_with_digit(text: &[u8]) -> bool
    ensures { result ≡ spec.begins_with_digit text.now }
{
    match text {
        [] => false,
        [byte, ..] => 48 <= *byte && *byte <= 57,
    }
}

// The level that a word says.
fn level_in(text: &[u8]) -> u32
    ensures { result ≡ spec.level_in text.now }
{
    if begins_with_digit(text) {
        int_value(text)
    } else {
        1
    }
}

/// Over how many loops a `break` or `continue` goes, by its parts: 1 where it says nothing.
pub(crate) fn level_of(parts: Parts) -> u32
    ensures { result ≡ spec.level (forest_in parts.entry) }
{
    let bytes = parts.bytes();
    let mut left = parts;
    match left.next() {
        None => 1,
        Some(Step::Child(_, _, _)) => 1,
        Some(Step::Leaf(_)) => match left.next() {
            None => 1,
            Some(Step::Child(_, _, _)) => 1,
            Some(Step::Leaf(mark)) => level_in(text_of(bytes, mark)),
        },
    }
}
