// Places in a list of edits.
ghost use Rattle.std.specs.Prelude.{◌≡◌, ◌≤◌, ℕ, MatchResult, filter, take, drop, nat_le, nat_lt, length};
ghost use Rattle.span_edits.specs.Crosses.{FirstCrossed};
ghost use Rattle.span_edits.specs.EditList.{AreApart};
ghost use Rattle.span_edits.specs.Places.{IsFirstAfter, IsPlaceFor};

use crate::edit::Edit;
use crate::span::Span;

/// The position of the first edit that ends behind a place, or the number of edits.
pub(crate) fn first_after(edits: &[Edit], place: u32) -> usize
    requires { (to : ℕ) × AreApart 0 edits.now to }
    ensures { IsFirstAfter place edits.now result }
{
    edits.partition_point(|edit| edit.span.end <= place)
}

/// The position at which an edit of a span is stored, or else the span of the first edit that it crosses.
pub(crate) fn place_for(edits: &[Edit], span: Span) -> Result<usize, Span>
    requires { (to : ℕ) × AreApart 0 edits.now to }
    ensures { MatchResult result (IsPlaceFor span edits.now) (FirstCrossed span edits.now) }
{
    let at = first_after(edits, span.start);
    match edits.get(at) {
        Some(edit) => {
            if edit.span.start < span.end {
                Err(edit.span)
            } else {
                Ok(at)
            }
        }
        None => Ok(at),
    }
}
