// Cases of a `switch`.
use crate::point::Point;

/// A case: its value, none for a default, and the first of its statements.
#[derive(Clone, Copy)]
pub struct Case {
    pub value: Option<u32>,
    pub first: Option<u32>,
}

/// A case by its value, and where evaluation goes on from its front.
#[derive(Clone, Copy)]
pub struct Entry {
    pub value: Option<u32>,
    pub start: Point,
}
