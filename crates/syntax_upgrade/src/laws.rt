// What is written token by token is what the rules say: laws of the definitions, carried by functions that do nothing.
ghost use Rattle.syntax_upgrade.specs.Laws.{EditsAreWritten, InsidesAreWritten, NamesAreWalked, NodesAreWritten};

/// The tokens of a file, one after another, write the rewritten file, by as many edits as the file has.
pub fn edits_are_written()
    ensures { EditsAreWritten }
{}

/// A node writes the parentheses round it, and its own tokens between them.
pub fn nodes_are_written()
    ensures { NodesAreWritten }
{}

/// Parts that are walked from the first write their names whole.
pub fn names_are_walked()
    ensures { NamesAreWalked }
{}

/// A node's parts, walked from the first by its rule, write its own draft, where `${` in a quoted text has its name or
/// expression behind it.
pub fn insides_are_written()
    ensures { InsidesAreWritten }
{}
