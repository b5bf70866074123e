// Comments that begin like an attribute get a space.
//
// Before: #[A]
// After:  # [A]
ghost use Rattle.syntax_rules.specs.HashComment.{HashCommentIsWritten};

/// A space behind the `#` of each comment that begins `#[` loses no byte of the source.
pub fn hash_comment_is_written()
    ensures { HashCommentIsWritten }
{}
