// Names with `\\` among the tokens of a 7.4 file, once it is edited but for the joining of names.

ghost use Rattle.written_reading.specs.drafts.Apart.{NamesAreApart, TextsAreSafe};
ghost use Rattle.written_reading.specs.drafts.Laws.{NamesAreWithin, NamesOfFilesStay};

/// In a file with the shape of the 7.4 grammar, once edited, each name stands within one node.
pub fn names_are_within()
    ensures { NamesAreWithin }
{}

/// The changes leave the names of such a file as they are, but for trivia.
pub fn names_of_files_stay()
    ensures { NamesOfFilesStay }
{}

/// Once such a file is edited, names in parts are apart from other words: a label stands behind each `\\`, and none stands
/// directly behind a keyword but `namespace`.
pub fn names_are_apart()
    ensures { NamesAreApart }
{}

/// Where no simple variable of a quoted text of such a file stands directly before `?->` and a letter, none does once it is
/// edited.
pub fn texts_are_safe()
    ensures { TextsAreSafe }
{}
