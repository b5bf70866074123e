// The eleven bits of a known type.

/// The value null.
pub const NULL: u16 = 1;
/// The values true and false.
pub const BOOL: u16 = 2;
/// An int.
pub const INT: u16 = 4;
/// A float: no value of the supported profile.
pub const FLOAT: u16 = 8;
/// A text that is an int and nothing else: white space, a sign and digits.
pub const WHOLE: u16 = 16;
/// A text that is an int with white space alone behind it.
pub const WHOLE_TAIL: u16 = 32;
/// A text that begins with an int before a dot or an exponent's letter, or with a dot and a digit.
pub const FRACTION: u16 = 64;
/// A text that begins with an int, with anything else behind it.
pub const LEAD: u16 = 128;
/// Any other text.
pub const WORD: u16 = 256;
/// An array.
pub const ARRAY: u16 = 512;
/// An object.
pub const OBJECT: u16 = 1024;
