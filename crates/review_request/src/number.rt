// Numbers in decimal digits.
ghost use Rattle.std.specs.Prelude.{◌≡◌, ◌≤◌, length, true};
ghost use Rattle.std.specs.Char.{is_ascii_digit};
ghost use Rattle.std.specs.List.{list_all};
ghost use Rattle.std.specs.Str.Parse.{digits_value};
ghost use Rattle.review_request.specs.Numbers.{number_of, path_number};

// Whether each byte is a decimal digit.
fn are_digits(text: &[u8]) -> bool
    ensures { result ≡ list_all is_ascii_digit text.now }
{
    text.iter().all(|b| b.is_ascii_digit())
}

// The number that at most ten digits write.
#[tactic(auto, using(crate::proofs::NumberLemmas::value_more, crate::proofs::NumberLemmas::value_below, crate::proofs::NumberLemmas::digit_within))]
fn value_of(digits: &[u8]) -> u64
    requires digits { list_all is_ascii_digit digits.now ≡ true }
    requires few { length digits.now ≤ 10 }
    ensures { result ≡ digits_value 10 digits.now }
{
    let mut value = 0u64;
    for digit in digits {
        value = value * 10 + u64::from(*digit - b'0');
    }
    value
}

/// The number of 1 to 10 decimal digits. None: the text isn't that.
pub fn number(text: &[u8]) -> Option<u64>
    ensures { result ≡ number_of text.now }
{
    if text.is_empty() || text.len() > 10 || !are_digits(text) {
        return None;
    }
    Some(value_of(text))
}

/// The number of 1 to 9 decimal digits, of which the first isn't 0. None: the text isn't that.
#[tactic(auto, using(crate::proofs::NumberLemmas::short_number))]
pub fn path_number(text: &[u8]) -> Option<u32>
    ensures { result ≡ path_number text.now }
{
    if text.is_empty() || text.len() > 9 || !are_digits(text) || text[0] == b'0' {
        return None;
    }
    Some(value_of(text) as u32)
}
