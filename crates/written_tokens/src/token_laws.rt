// The tokens of written files.

ghost use Rattle.written_tokens.specs.tokens.Tokens.{TokensAreTiles};
ghost use Rattle.written_tokens.specs.tokens.Names.{SameInNewer};
ghost use Rattle.written_tokens.specs.tokens.Whole.{TokensInNewer};
ghost use Rattle.written_tokens.specs.tokens.Written.{RewrittenHasTokens, RowsAreWritten};
ghost use Rattle.written_tokens.specs.tokens.Drafted.{NamesInOrder};
ghost use Rattle.written_tokens.specs.tokens.Parted.{WholeOfParts};
ghost use Rattle.written_tokens.specs.tokens.Spaced.{SpacesComeFirst, PartsAreWritten};
ghost use Rattle.written_tokens.specs.tokens.Texts.{PartsHaveTexts};
ghost use Rattle.written_tokens.specs.tokens.Levels.{LevelsPass};
ghost use Rattle.written_tokens.specs.tokens.Enclosed.{LevelsJoin, SquaresStandRound, RoundsStandRound};
ghost use Rattle.written_tokens.specs.tokens.Stays.{CodeStays};

/// The tokens of any bytes stand in a row with their trivia, each the longest of the mode that those
/// before leave.
pub fn tokens_are_tiles()
    ensures { TokensAreTiles }
{}

/// Bytes that 8.3 takes as 7.4 does have in 8.3 the tokens and trivia of 7.4, with each name one
/// token.
pub fn same_in_newer()
    ensures { SameInNewer }
{}

/// Such bytes with names apart from other words have in 8.3 the tokens of 7.4, with each name one
/// token.
pub fn tokens_in_newer()
    ensures { TokensInNewer }
{}

/// The tokens of the file that a draft rewrites are those of the draft.
pub fn rewritten_has_tokens()
    ensures { RewrittenHasTokens }
{}

/// A rewritten file has its tokens in 8.3, where 7.4 has a row of tokens and trivia with the same
/// ones but for names, and 8.3 takes this row as 7.4 does.
pub fn rows_are_written()
    ensures { RowsAreWritten }
{}

/// The rule on names makes of a draft's tokens whole names, apart from keywords, where each name
/// stands within one node.
pub fn names_in_order()
    ensures { NamesInOrder }
{}

/// Whole names are those of the tokens in parts, without the trivia inside.
pub fn whole_of_parts()
    ensures { WholeOfParts }
{}

/// Spaces may be put before names that are still in parts.
pub fn spaces_come_first()
    ensures { SpacesComeFirst }
{}

/// A file that 7.4 reads, rewritten, has its tokens in 8.3, where 7.4 has the row of these tokens and
/// trivia with names in parts, and 8.3 takes this row as 7.4 does.
pub fn parts_are_written()
    ensures { PartsAreWritten }
{}

/// In each file that 7.4 reads, once edited, parts of names have a text in the source.
pub fn parts_have_texts()
    ensures { PartsHaveTexts }
{}

/// Tokens and trivia that open and close in pairs pass over any modes, which they leave as they are.
pub fn levels_pass()
    ensures { LevelsPass }
{}

/// Such rows join.
pub fn levels_join()
    ensures { LevelsJoin }
{}

/// Tokens of code that are such a row before `]` are one between `[` and `]`.
pub fn squares_stand_round()
    ensures { SquaresStandRound }
{}

/// Those before `)` are one between `(` and `)`, where they don't make a cast of it.
pub fn rounds_stand_round()
    ensures { RoundsStandRound }
{}

/// Each token and trivia of code that may stand before other bytes stays so, where these go on alike.
pub fn code_stays()
    ensures { CodeStays }
{}
