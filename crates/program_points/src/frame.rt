// What stands around a node.
use crate::point::Point;

/// Where `continue` goes on in a loop: nowhere, at a point, or at one of two.
#[derive(Clone, Copy)]
pub enum Again {
    Nowhere,
    To(Point),
    Either(Point, Point),
}

/// What a jump may lead to: a loop or switch, with where `break` goes on and where `continue` does; or the last part of
/// a `try`, by its number, through which each jump goes.
#[derive(Clone, Copy)]
pub enum Frame {
    Loop(Point, Again),
    Finally(u32),
}

/// A later part of a `try`: the number of the statement, and that of the part.
#[derive(Clone, Copy)]
pub struct Handler {
    pub of: u32,
    pub start: u32,
}
