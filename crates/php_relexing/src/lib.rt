//! What bytes that an edit changed are lexed as.
#![tactic(auto)]

ghost use Rattle.php_relexing.specs.Tiles.{BracketComesIn};
ghost use Rattle.php_relexing.specs.Spelled.{TilesAreTokens};
ghost use Rattle.php_relexing.specs.Alike.{NearTokensStay, AlikeJoins};
ghost use Rattle.php_relexing.specs.Comments.{SlashCommentsStay, HashCommentsStay, SpacedCommentsStay};
ghost use Rattle.php_relexing.specs.Newer.{SameInNewerCode, SameInNewerTexts, NamesAreTokens};
ghost use Rattle.php_relexing.specs.Closed.{QuotedTextsStay, BinaryTextsStay, BlockCommentsStay, CastsStay};
ghost use Rattle.php_relexing.specs.Labels.{LabelsJoin, WordsAreLabels, LabelsBeginNoName, WhiteSpaceStays};
ghost use Rattle.php_relexing.specs.Angles.{SlashesStay, AnglesStay, ClosingTagsStay};
ghost use Rattle.php_relexing.specs.Pieces.{PiecesStayBeforeParts, EscapedPiecesStay, PiecesStayBeforeEnds};
ghost use Rattle.php_relexing.specs.Parts.{TextVariablesStay, BracesOpen, SimplePartsStay, QuotesOpen, BinaryQuotesOpen};
ghost use Rattle.php_relexing.specs.Words.{WordsStay, YieldFromStays, OpeningsAreUncast};
ghost use Rattle.php_relexing.specs.Passes.{PassesJoin, ModeStepsAgree};
ghost use Rattle.php_relexing.specs.Written.{MarksAreTokens, NullIsWritten, VariablesAreTokens, NamedIsCode};
ghost use Rattle.php_relexing.specs.Inline.{TagsStay, HtmlStays};
ghost use Rattle.php_relexing.specs.HeredocEnds.{HeredocEndsStay, PiecesStayBeforeLabels, HeredocStartsStay};
ghost use Rattle.php_relexing.specs.Offsets.{OffsetsStay};

/// A token that begins with a bracket may come in behind any tokens that look no further than the
/// byte behind them: all others stay the longest of their places.
pub fn a_bracket_comes_in()
    ensures { BracketComesIn }
{}

/// Tokens and trivia in a row, each the longest of the mode that those before leave, are the tokens
/// of their joined bytes.
pub fn tiles_are_tokens()
    ensures { TilesAreTokens }
{}

/// A token of 7.4 that looks near stays where the bytes behind it go on alike.
pub fn near_tokens_stay()
    ensures { NearTokensStay }
{}

/// A token of code of 7.4 is the same in 8.3 where neither `#` nor a name with `\` begins.
pub fn same_in_newer_code()
    ensures { SameInNewerCode }
{}

/// A token of inline HTML, of a quoted text or of a simple offset is the same in 8.3.
pub fn same_in_newer_texts()
    ensures { SameInNewerTexts }
{}

/// Labels with `\` between them, maybe with one in front, are one token of 8.3, where no name goes
/// on behind them.
pub fn names_are_tokens()
    ensures { NamesAreTokens }
{}

/// A comment with `//` stays where the line ends behind it, in both versions.
pub fn slash_comments_stay()
    ensures { SlashCommentsStay }
{}

/// A comment with `#` of 7.4 is one of 8.3 where the line ends behind it and it begins no `#[`.
pub fn hash_comments_stay()
    ensures { HashCommentsStay }
{}

/// A comment with `#` of 7.4 is one of 8.3 with a space behind the `#`.
pub fn spaced_comments_stay()
    ensures { SpacedCommentsStay }
{}

/// A text in quotes stays whatever follows it, in both versions.
pub fn quoted_texts_stay()
    ensures { QuotedTextsStay }
{}

/// A text in quotes with `b` in front stays whatever follows it, in both versions.
pub fn binary_texts_stay()
    ensures { BinaryTextsStay }
{}

/// A comment between `/*` and `*/` stays whatever follows it, in both versions.
pub fn block_comments_stay()
    ensures { BlockCommentsStay }
{}

/// A cast stays whatever follows it, in both versions.
pub fn casts_stay()
    ensures { CastsStay }
{}

/// Labels with `\` between them, maybe with one in front, are a name.
pub fn labels_join()
    ensures { LabelsJoin }
{}

/// A word is a label.
pub fn words_are_labels()
    ensures { WordsAreLabels }
{}

/// A label begins no name with `\` where none goes on behind it.
pub fn labels_begin_no_name()
    ensures { LabelsBeginNoName }
{}

/// White space stays where none follows, in both versions.
pub fn white_space_stays()
    ensures { WhiteSpaceStays }
{}

/// `/` and `/=` stay where no comment and no `=` follows `/`, in both versions.
pub fn slashes_stay()
    ensures { SlashesStay }
{}

/// An operator with `<` in front stays where no longer one and no heredoc begins with it, in both
/// versions.
pub fn angles_stay()
    ensures { AnglesStay }
{}

/// `?>` with its line end stays where no further line end follows, in both versions.
pub fn closing_tags_stay()
    ensures { ClosingTagsStay }
{}

/// A piece of a quoted text stays before a part that begins as that in the source, and before `{$`
/// where it doesn't end in a bare `$`.
pub fn pieces_stay_before_parts()
    ensures { PiecesStayBeforeParts }
{}

/// A piece that ends in a bare `$` is one before a part with a backslash before the `$`.
pub fn escaped_pieces_stay()
    ensures { EscapedPiecesStay }
{}

/// A piece stays before the closing byte of its text.
pub fn pieces_stay_before_ends()
    ensures { PiecesStayBeforeEnds }
{}

/// A variable of a quoted text stays where its label doesn't go on.
pub fn text_variables_stay()
    ensures { TextVariablesStay }
{}

/// `{` before `$` opens code in a quoted text, and closing bytes close the text.
pub fn braces_open()
    ensures { BracesOpen }
{}

/// The tokens of simple offsets and simple properties stay.
pub fn simple_parts_stay()
    ensures { SimplePartsStay }
{}

/// `"` opens a quoted text before a part, and before a piece that the text goes on behind.
pub fn quotes_open()
    ensures { QuotesOpen }
{}

/// `(` is a token of its own exactly where no cast goes on behind it.
pub fn openings_are_uncast()
    ensures { OpeningsAreUncast }
{}

/// Tiles that lead from one stack of modes to another join to the steps of all bytes.
pub fn passes_join()
    ensures { PassesJoin }
{}

/// A token does the same to the stack in 8.3 where no `?->` and a label follow.
pub fn mode_steps_agree()
    ensures { ModeStepsAgree }
{}

/// A word that doesn't begin with `b` stays where neither its label nor `yield` goes on.
pub fn words_stay()
    ensures { WordsStay }
{}

/// Brackets, braces, `$` before `{` and `(float)` are tokens of code whatever follows them.
pub fn marks_are_tokens()
    ensures { MarksAreTokens }
{}

/// `(null)` is three tokens.
pub fn null_is_written()
    ensures { NullIsWritten }
{}

/// A label with `$` in front is a variable where the label doesn't go on.
pub fn variables_are_tokens()
    ensures { VariablesAreTokens }
{}

/// Directly behind `${` a name is a label, and any other token is one of code.
pub fn named_is_code()
    ensures { NamedIsCode }
{}

/// Inline HTML stays before an opening tag, and `<?=` stays.
pub fn html_stays()
    ensures { HtmlStays }
{}

/// An opening tag stays where no line end goes on behind it.
pub fn tags_stay()
    ensures { TagsStay }
{}

/// The closing label of a heredoc stays where no byte of a label follows.
pub fn heredoc_ends_stay()
    ensures { HeredocEndsStay }
{}

/// A piece up to a line end stays where the next line ends the heredoc.
pub fn pieces_stay_before_labels()
    ensures { PiecesStayBeforeLabels }
{}

/// The first line of a heredoc stays where its line end doesn't go on.
pub fn heredoc_starts_stay()
    ensures { HeredocStartsStay }
{}

/// What stands before `]` in a simple offset stays before `]`.
pub fn offsets_stay()
    ensures { OffsetsStay }
{}

/// Bytes go on alike behind a common front, and as themselves.
pub fn alike_joins()
    ensures { AlikeJoins }
{}

/// `b"` opens a quoted text before a part, and before a piece that the text goes on behind.
pub fn binary_quotes_open()
    ensures { BinaryQuotesOpen }
{}

/// The words `yield from` stay where no byte of a label follows.
pub fn yield_from_stays()
    ensures { YieldFromStays }
{}
