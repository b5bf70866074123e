// Names lose the trivia inside them, and are set apart from a keyword in front.
//
// Before: return\ A \B;
// After:  return \A\B;
ghost use Rattle.syntax_rules.specs.SplitName.{SplitNameIsWritten};

/// Whole names, apart from keywords, lose no byte of the source; each deleted trivia and each space is an edit.
pub fn split_name_is_written()
    ensures { SplitNameIsWritten }
{}
