// Why an edit is refused.
use crate::span::Span;
use thiserror::Error;

/// Why an edit was not added. The edits stand as before.
#[derive(Clone, Copy, Debug, PartialEq, Eq, Error)]
pub enum EditFault {
    /// The edit crosses a stored one. `stored` is the span of the first stored edit that it crosses.
    #[error("the edit crosses the one at {}..{}", .stored.start, .stored.end)]
    Overlap { stored: Span },
    /// The edit's span ends behind the source.
    #[error("the edit ends behind the source")]
    OutOfSource,
    /// No memory was at hand.
    #[error("no memory")]
    Memory,
}
