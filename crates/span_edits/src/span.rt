// A range of bytes.
ghost use Rattle.std.specs.Prelude.{◌≤◌};

/// A range of bytes of one file: `start` is the first byte's place, and `end` the place behind the
/// last one. Places count bytes from 0.
#[derive(Clone, Copy, Debug, PartialEq, Eq, Drop)]
pub struct Span {
    pub start: u32,
    pub end: u32,
    ghost ordered: { start ≤ end },
}
