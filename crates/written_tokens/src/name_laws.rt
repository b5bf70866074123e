// Trivia and names of a source in a row, once it is edited.

ghost use Rattle.written_tokens.specs.names.Fronts.{FrontOfRow, EndOfRow, FrontsAreSpelled};
ghost use Rattle.written_tokens.specs.names.Leads.{SpacedAreWritten, TriviaBecome, SpacedAreTrivia, TagsLead};
ghost use Rattle.written_tokens.specs.names.Named.{NamedSteps, NamedKeeps, NoneComeIn};
ghost use Rattle.written_tokens.specs.names.NamesPut.{LeadsOfFilesStay, NamesArePut};
ghost use Rattle.written_tokens.specs.names.Apart.{RowsAreCommon};

/// A row of more tokens than the end begins with trivia and the first token's tile.
pub fn front_of_row()
    ensures { FrontOfRow }
{}

/// A row of the end alone is trivia.
pub fn end_of_row()
    ensures { EndOfRow }
{}

/// Trivia go to the lead of the token behind them, and a token's tile is the token.
pub fn fronts_are_spelled()
    ensures { FrontsAreSpelled }
{}

/// The bytes of trivia with a space behind the `#` of each comment that begins `#[` are those that the
/// rule on comments writes.
pub fn spaced_are_written()
    ensures { SpacedAreWritten }
{}

/// Trivia become trivia with these spaces.
pub fn trivia_become()
    ensures { TriviaBecome }
{}

/// They are trivia, and none is a comment that begins `#[`.
pub fn spaced_are_trivia()
    ensures { SpacedAreTrivia }
{}

/// In inline HTML trivia begin with a tag.
pub fn tags_lead()
    ensures { TagsLead }
{}

/// Rows whose names lose the trivia inside, and get a space before them, stay rows of 7.4.
pub fn named_steps()
    ensures { NamedSteps }
{}

/// What is true of each tile and of a space stays so.
pub fn named_keeps()
    ensures { NamedKeeps }
{}

/// No `${` and no comment that begins `#[` comes in.
pub fn none_come_in()
    ensures { NoneComeIn }
{}

/// In each file's draft a token has trivia exactly where it had some before.
pub fn leads_of_files_stay()
    ensures { LeadsOfFilesStay }
{}

/// A row of a draft's tokens has one with a space before each name that stands directly behind a
/// keyword, and no trivia inside names.
pub fn names_are_put()
    ensures { NamesArePut }
{}

/// The row of tokens whose names are apart from other words is taken by 8.3 as by 7.4.
pub fn rows_are_common()
    ensures { RowsAreCommon }
{}
