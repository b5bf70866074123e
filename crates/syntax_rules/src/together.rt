// The rules on syntax together.
ghost use Rattle.syntax_rules.specs.Together.{SyntaxIsRewritten};

/// Whatever of the rules is on, and whatever is put in parentheses: the source with the edits made is the rewritten file,
/// printed, for every file.
pub fn syntax_is_rewritten()
    ensures { SyntaxIsRewritten }
{}
