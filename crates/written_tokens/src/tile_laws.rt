// Tokens and trivia of a source in a row, once it is edited.

ghost use Rattle.written_tokens.specs.tiles.IsRewrittenTo.{RewritingsJoin, IsRewrittenLoosely};
ghost use Rattle.written_tokens.specs.tiles.Going.{RowsGoOn, ContinuingIsAlike, FrontsStay, CodeContinues};
ghost use Rattle.written_tokens.specs.tiles.CodeTokens.{CodeTokensBecome, HtmlTokensBecome};
ghost use Rattle.written_tokens.specs.tiles.Edits.{HashCommentsBecome, BracesBecome, BracesAreSquared, RoundsBecome, RoundsComeIn, CastsBecomeFloat, CastsBecomeNull};

/// Each row goes on as itself, and behind a common front; what goes on where more is asked of it goes
/// on where less is.
pub fn rows_go_on()
    ensures { RowsGoOn }
{}

/// The bytes of what goes on so go on alike.
pub fn continuing_is_alike()
    ensures { ContinuingIsAlike }
{}

/// Where no byte of a class comes next in the source, and edits put in none of it, none comes next in
/// what goes on as the source.
pub fn fronts_stay()
    ensures { FrontsStay }
{}

/// In code, what goes on so leaves `yield` before no `from`, `(` before no cast, and the end of a line
/// comment.
pub fn code_continues()
    ensures { CodeContinues }
{}

/// Rows that become others join.
pub fn becomes_join()
    ensures { RewritingsJoin }
{}

/// Nothing becomes nothing, and rows stand where less is known of them.
pub fn becomes_loosely()
    ensures { IsRewrittenLoosely }
{}

/// A tile of code that is neither a brace nor a nowdoc nor opens a quoted text stays as it is.
pub fn code_tokens_become()
    ensures { CodeTokensBecome }
{}

/// Each tile of inline HTML stays as it is.
pub fn html_tokens_become()
    ensures { HtmlTokensBecome }
{}

/// A comment with `#` gets a space behind the `#`.
pub fn hash_comments_become()
    ensures { HashCommentsBecome }
{}

/// Between braces a row of code becomes another.
pub fn braces_become()
    ensures { BracesBecome }
{}

/// The braces become brackets.
pub fn braces_are_squared()
    ensures { BracesAreSquared }
{}

/// Between parentheses too.
pub fn rounds_become()
    ensures { RoundsBecome }
{}

/// Parentheses come in round a row of code that begins and ends with tokens, where they make no cast
/// of it.
pub fn rounds_come_in()
    ensures { RoundsComeIn }
{}

/// A cast becomes `(float)`.
pub fn casts_become_float()
    ensures { CastsBecomeFloat }
{}

/// A cast, trivia and a variable become `(null)`.
pub fn casts_become_null()
    ensures { CastsBecomeNull }
{}
