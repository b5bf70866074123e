// Casts to unset become null.
//
// Before: (unset)$a
// After:  (null)
ghost use Rattle.syntax_rules.specs.UnsetCast.{UnsetCastIsWritten};

/// `(null)` for a cast to unset loses no byte of the source, and is one edit.
pub fn unset_cast_is_written()
    ensures { UnsetCastIsWritten }
{}
