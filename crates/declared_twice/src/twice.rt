// Declarations of one name.
use program_names::Declaration;

/// Two declarations of one name that one run would begin with, in the order of paths and places.
#[derive(Clone, Copy, Debug)]
pub struct Twice<'a> {
    pub first: &'a Declaration,
    pub second: &'a Declaration,
}
