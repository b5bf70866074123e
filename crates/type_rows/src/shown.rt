// Types as texts.
use scalar_types::PhpType;
use std::alloc::AllocError;

/// Adds a word.
pub fn put_word(out: &mut String, word: &str) -> Result<(), AllocError> {
    out.push(' ')?;
    out.push_str(word)
}

/// Adds a number.
pub fn put_number(out: &mut String, number: u64) -> Result<(), AllocError> {
    write!(out, " {number}")
}

// Adds numbers between two signs, where there are any.
fn put_numbers(
    out: &mut String,
    open: char,
    numbers: &[u32],
    close: char,
) -> Result<(), AllocError> {
    if numbers.is_empty() {
        return Ok(());
    }
    out.push(open)?;
    for number in numbers {
        write!(out, " {number}")?;
    }
    out.push_str(" ")?;
    out.push(close)
}

/// Adds a type: its bits as a number, the element in square brackets, labels in curly and classes in angle ones.
pub fn put_type(out: &mut String, a: &PhpType) -> Result<(), AllocError> {
    match a {
        PhpType::Any => put_word(out, "any"),
        PhpType::Known(parts) => {
            put_number(out, u64::from(parts.bits))?;
            if let Some(element) = &parts.element {
                out.push('[')?;
                put_type(out, element)?;
                out.push(']')?;
            }
            put_numbers(out, '{', parts.shared.as_slice(), '}')?;
            put_numbers(out, '<', parts.classes.as_slice(), '>')
        }
    }
}
