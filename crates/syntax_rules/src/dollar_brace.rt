// Variables in quoted texts have their braces outside.
//
// Before: "${a}"
// After:  "{$a}"
ghost use Rattle.syntax_rules.specs.DollarBrace.{DollarBraceIsWritten};

/// `{$` for `${` loses no byte of the source, and the text of one edit reaches over several tokens.
pub fn dollar_brace_is_written()
    ensures { DollarBraceIsWritten }
{}
