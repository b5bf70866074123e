// Offsets in braces get brackets.
//
// Before: $a{0}
// After:  $a[0]
ghost use Rattle.syntax_rules.specs.BraceOffset.{BraceOffsetIsWritten};

/// Brackets for the braces lose no byte of the source, and are two edits.
pub fn brace_offset_is_written()
    ensures { BraceOffsetIsWritten }
{}
