// Casts to real become casts to float.
//
// Before: (real)$a
// After:  (float)$a
ghost use Rattle.syntax_rules.specs.RealCast.{RealCastIsWritten};

/// `(float)` for `(real)` loses no byte of the source, and is one edit.
pub fn real_cast_is_written()
    ensures { RealCastIsWritten }
{}
