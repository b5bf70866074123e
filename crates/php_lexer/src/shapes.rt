// How long the longest text of a shape is.
ghost use Rattle.std.specs.Prelude.{◌≡◌, ◌≤◌, ◌+◌, length, IfSome, cond, Some, nat_eq};
ghost use Rattle.php_lexer.specs.Shapes.{is_octal_digit, is_binary_digit, is_hex_digit, is_exponent, is_sign, digits_step, decimal_step, float_step, name_step, line_end_step, heredoc_step, step, may_end, is_stuck};
ghost use Rattle.php_lexer.specs.Scan.{shape_len};
ghost use Rattle.php_spellings.specs.declared.table.Shape.TheVariants.{Decimal};

use php_spellings::classes::{blank_byte, digit, label_byte, letter, lower};
use php_spellings::table::{Shape, Spot};

fn octal_digit(byte: u8) -> bool
    ensures { result ≡ is_octal_digit byte }
{
    48 <= byte && byte <= 55
}

fn binary_digit(byte: u8) -> bool
    ensures { result ≡ is_binary_digit byte }
{
    48 <= byte && byte <= 49
}

fn hex_digit(byte: u8) -> bool
    ensures { result ≡ is_hex_digit byte }
{
    digit(byte) || 97 <= lower(byte) && lower(byte) <= 102
}

// One spot or the other.
fn either(test: bool, spot: Spot, other: Spot) -> Spot
    ensures { result ≡ cond test spot other }
{
    if test { spot } else { other }
}

fn digits_next(is_digit: bool, spot: Spot, byte: u8) -> Spot
    ensures { result ≡ digits_step is_digit spot byte }
{
    match spot {
        Spot::Begin => either(is_digit, Spot::Whole, Spot::Stuck),
        Spot::Whole => either(
            is_digit,
            Spot::Whole,
            either(byte == 95, Spot::WholeGap, Spot::Stuck),
        ),
        Spot::WholeGap => either(is_digit, Spot::Whole, Spot::Stuck),
        _ => Spot::Stuck,
    }
}

fn decimal_next(spot: Spot, byte: u8) -> Spot
    ensures { result ≡ decimal_step spot byte }
{
    match spot {
        Spot::Begin => either(digit(byte) && byte != 48, Spot::Whole, Spot::Stuck),
        Spot::Whole => digits_next(digit(byte), Spot::Whole, byte),
        Spot::WholeGap => digits_next(digit(byte), Spot::WholeGap, byte),
        _ => Spot::Stuck,
    }
}

fn exponent(byte: u8) -> bool
    ensures { result ≡ is_exponent byte }
{
    lower(byte) == 101
}

fn sign(byte: u8) -> bool
    ensures { result ≡ is_sign byte }
{
    byte == 43 || byte == 45
}

fn float_next(spot: Spot, byte: u8) -> Spot
    ensures { result ≡ float_step spot byte }
{
    match spot {
        Spot::Begin => either(
            digit(byte),
            Spot::Whole,
            either(byte == 46, Spot::LeadPoint, Spot::Stuck),
        ),
        Spot::Whole => {
            let marked = either(exponent(byte), Spot::Mark, Spot::Stuck);
            let pointed = either(byte == 46, Spot::Point, marked);
            either(
                digit(byte),
                Spot::Whole,
                either(byte == 95, Spot::WholeGap, pointed),
            )
        }
        Spot::WholeGap => either(digit(byte), Spot::Whole, Spot::Stuck),
        Spot::LeadPoint => either(digit(byte), Spot::Part, Spot::Stuck),
        Spot::Point => either(
            digit(byte),
            Spot::Part,
            either(exponent(byte), Spot::Mark, Spot::Stuck),
        ),
        Spot::Part => {
            let marked = either(exponent(byte), Spot::Mark, Spot::Stuck);
            either(
                digit(byte),
                Spot::Part,
                either(byte == 95, Spot::PartGap, marked),
            )
        }
        Spot::PartGap => either(digit(byte), Spot::Part, Spot::Stuck),
        Spot::Mark => either(
            digit(byte),
            Spot::Power,
            either(sign(byte), Spot::Sign, Spot::Stuck),
        ),
        Spot::Sign => either(digit(byte), Spot::Power, Spot::Stuck),
        Spot::Power => either(
            digit(byte),
            Spot::Power,
            either(byte == 95, Spot::PowerGap, Spot::Stuck),
        ),
        Spot::PowerGap => either(digit(byte), Spot::Power, Spot::Stuck),
        _ => Spot::Stuck,
    }
}

fn name_next(spot: Spot, byte: u8) -> Spot
    ensures { result ≡ name_step spot byte }
{
    let split = either(byte == 92, Spot::Backslash, Spot::Stuck);
    match spot {
        Spot::Begin => either(letter(byte), Spot::FirstLabel, split),
        Spot::FirstLabel => either(label_byte(byte), Spot::FirstLabel, split),
        Spot::Backslash => either(letter(byte), Spot::LaterLabel, Spot::Stuck),
        Spot::LaterLabel => either(label_byte(byte), Spot::LaterLabel, split),
        _ => Spot::Stuck,
    }
}

fn line_end_next(byte: u8) -> Spot
    ensures { result ≡ line_end_step byte }
{
    either(
        byte == 10,
        Spot::Line,
        either(byte == 13, Spot::Return, Spot::Stuck),
    )
}

fn heredoc_next(spot: Spot, byte: u8) -> Spot
    ensures { result ≡ heredoc_step spot byte }
{
    match spot {
        Spot::Begin => {
            let opened = either(byte == 34, Spot::OpenedLabel, Spot::Stuck);
            either(
                blank_byte(byte),
                Spot::Begin,
                either(letter(byte), Spot::FirstLabel, opened),
            )
        }
        Spot::FirstLabel => either(label_byte(byte), Spot::FirstLabel, line_end_next(byte)),
        Spot::OpenedLabel => either(letter(byte), Spot::QuotedLabel, Spot::Stuck),
        Spot::QuotedLabel => either(
            label_byte(byte),
            Spot::QuotedLabel,
            either(byte == 34, Spot::ClosedLabel, Spot::Stuck),
        ),
        Spot::ClosedLabel => line_end_next(byte),
        Spot::Return => either(byte == 10, Spot::Line, Spot::Stuck),
        _ => Spot::Stuck,
    }
}

// Where a byte leads.
fn next_spot(shape: Shape, spot: Spot, byte: u8) -> Spot
    ensures { result ≡ step shape spot byte }
{
    match shape {
        Shape::Decimal => decimal_next(spot, byte),
        Shape::Octal => digits_next(octal_digit(byte), spot, byte),
        Shape::Hexadecimal => digits_next(hex_digit(byte), spot, byte),
        Shape::Binary => digits_next(binary_digit(byte), spot, byte),
        Shape::Digits => digits_next(digit(byte), spot, byte),
        Shape::Float => float_next(spot, byte),
        Shape::Name => name_next(spot, byte),
        Shape::HeredocLine => heredoc_next(spot, byte),
    }
}

fn whole(spot: Spot) -> bool
    ensures { result ≡ may_end Decimal spot }
{
    match spot {
        Spot::Whole => true,
        _ => false,
    }
}

// Whether the text may end here.
fn ending(shape: Shape, spot: Spot) -> bool
    ensures { result ≡ may_end shape spot }
{
    match shape {
        Shape::Decimal => whole(spot),
        Shape::Octal => whole(spot),
        Shape::Hexadecimal => whole(spot),
        Shape::Binary => whole(spot),
        Shape::Digits => whole(spot),
        Shape::Float => match spot {
            Spot::Point => true,
            Spot::Part => true,
            Spot::Power => true,
            _ => false,
        },
        Shape::Name => match spot {
            Spot::LaterLabel => true,
            _ => false,
        },
        Shape::HeredocLine => match spot {
            Spot::Return => true,
            Spot::Line => true,
            _ => false,
        },
    }
}

fn stuck(spot: Spot) -> bool
    ensures { result ≡ is_stuck spot }
{
    match spot {
        Spot::Stuck => true,
        _ => false,
    }
}

// The longest length so far, where the text may end here or not.
fn longest(ends: bool, at: usize, best: Option<usize>) -> Option<usize>
    ensures { result ≡ cond ends (Some at) best }
{
    if ends { Some(at) } else { best }
}

// The length of the longest text of the shape.
#[tactic(auto, using(crate::proofs::Steps::shape_step, crate::proofs::Steps::shape_stuck, crate::proofs::Steps::shape_end, crate::proofs::Steps::shape_first))]
pub fn shape_length(shape: Shape, first: Spot, bytes: &[u8]) -> Option<usize>
    ensures count { result ≡ shape_len shape first bytes.now }
{
    let mut spot = first;
    let mut best = None;
    for (at, byte) in bytes.iter().enumerate() {
        best = longest(ending(shape, spot), at, best);
        spot = next_spot(shape, spot, *byte);
        if stuck(spot) {
            return best;
        }
    }
    longest(ending(shape, spot), bytes.len(), best)
}
