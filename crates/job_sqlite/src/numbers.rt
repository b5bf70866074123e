// How words and numbers stand in a row.
use crate::refusal::Refusal;
use io_ports::{Bytes, PathText, Span, Weight};
use job_core::Verdict;
use sqlite::Row;

/// 0 note, 1 stop, 2 compile.
pub fn weight_number(weight: Weight) -> i64 {
    match weight {
        Weight::Note => 0,
        Weight::Stop => 1,
        Weight::Compile => 2,
    }
}

/// The weight of a number.
pub fn weight_of(number: i64) -> Result<Weight, Refusal> {
    match number {
        0 => Ok(Weight::Note),
        1 => Ok(Weight::Stop),
        2 => Ok(Weight::Compile),
        _ => Err(Refusal::Failed),
    }
}

/// 0 open, 1 accept, 2 reject.
pub fn verdict_number(verdict: Verdict) -> i64 {
    match verdict {
        Verdict::Open => 0,
        Verdict::Accept => 1,
        Verdict::Reject => 2,
    }
}

/// The verdict of a number.
pub fn verdict_of(number: i64) -> Result<Verdict, Refusal> {
    match number {
        0 => Ok(Verdict::Open),
        1 => Ok(Verdict::Accept),
        2 => Ok(Verdict::Reject),
        _ => Err(Refusal::Failed),
    }
}

/// A number as a column holds it.
pub fn column_number(number: u64) -> Result<i64, Refusal> {
    match i64::try_from(number) {
        Ok(number) => Ok(number),
        Err(_) => Err(Refusal::Failed),
    }
}

/// A whole number.
pub fn number_at(row: &Row, at: usize) -> Result<i64, Refusal> {
    match row.get::<i64>(at) {
        Ok(number) => Ok(number),
        Err(error) => Err(Refusal::from(error)),
    }
}

/// A number of at most 64 bits, without a sign.
pub fn count_at(row: &Row, at: usize) -> Result<u64, Refusal> {
    match u64::try_from(number_at(row, at)?) {
        Ok(number) => Ok(number),
        Err(_) => Err(Refusal::Failed),
    }
}

/// A number of at most 32 bits.
pub fn word_at(row: &Row, at: usize) -> Result<u32, Refusal> {
    match u32::try_from(number_at(row, at)?) {
        Ok(number) => Ok(number),
        Err(_) => Err(Refusal::Failed),
    }
}

/// A number of at most 16 bits.
pub fn small_at(row: &Row, at: usize) -> Result<u16, Refusal> {
    match u16::try_from(number_at(row, at)?) {
        Ok(number) => Ok(number),
        Err(_) => Err(Refusal::Failed),
    }
}

/// A number of at most 8 bits.
pub fn byte_at(row: &Row, at: usize) -> Result<u8, Refusal> {
    match u8::try_from(number_at(row, at)?) {
        Ok(number) => Ok(number),
        Err(_) => Err(Refusal::Failed),
    }
}

/// A yes or no, 1 or 0.
pub fn flag_at(row: &Row, at: usize) -> Result<bool, Refusal> {
    match number_at(row, at)? {
        0 => Ok(false),
        1 => Ok(true),
        _ => Err(Refusal::Failed),
    }
}

/// A text of a TEXT column.
pub fn text_at(row: &Row, at: usize) -> Result<PathText, Refusal> {
    match row.get::<String>(at) {
        Ok(text) => Ok(PathText::new(text)),
        Err(error) => Err(Refusal::from(error)),
    }
}

// The bytes of a BLOB column.
fn blob_at(row: &Row, at: usize) -> Result<Vec<u8>, Refusal> {
    match row.get::<Vec<u8>>(at) {
        Ok(bytes) => Ok(bytes),
        Err(error) => Err(Refusal::from(error)),
    }
}

/// A text of a BLOB column.
pub fn blob_text_at(row: &Row, at: usize) -> Result<PathText, Refusal> {
    match String::from_utf8(blob_at(row, at)?) {
        Ok(text) => Ok(PathText::new(text)),
        Err(_) => Err(Refusal::Failed),
    }
}

/// The bytes of a BLOB column.
pub fn bytes_at(row: &Row, at: usize) -> Result<Bytes, Refusal> {
    Ok(Bytes::new(blob_at(row, at)?))
}

/// A span from two columns.
pub fn span_at(row: &Row, from: usize, to: usize) -> Result<Span, Refusal> {
    let start = word_at(row, from)?;
    let end = word_at(row, to)?;
    if end < start {
        return Err(Refusal::Failed);
    }
    Ok(Span { start, end })
}
