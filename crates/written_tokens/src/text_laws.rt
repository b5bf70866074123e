// Quoted texts of a source, once it is edited.

ghost use Rattle.written_tokens.specs.texts.TextRows.{TextsBecome, TextsAreBraced};
ghost use Rattle.written_tokens.specs.texts.Heredocs.{HeredocLinesStay, NowdocsStay, NowdocsBecome};

/// A quoted text becomes the one that the rule on `${` writes.
pub fn texts_become()
    ensures { TextsBecome }
{}

/// No `${` stands in a written text, where none stands in the code that is written inside it.
pub fn texts_are_braced()
    ensures { TextsAreBraced }
{}

/// The first line of a heredoc stays where a line feed follows as in the source.
pub fn heredoc_lines_stay()
    ensures { HeredocLinesStay }
{}

/// A nowdoc stays where no byte of a label follows.
pub fn nowdocs_stay()
    ensures { NowdocsStay }
{}

/// A nowdoc is kept as it is.
pub fn nowdocs_become()
    ensures { NowdocsBecome }
{}
