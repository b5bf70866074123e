//! What the rules on syntax keep of a file that 7.4 reads: its meaning.
#![tactic(auto)]

ghost use Rattle.rewriting_keeps.specs.Laws.{ShapedFilesAreFormed, ReadNamesAreDirect, ShapedFilesKeepMeaning};

/// In a file with the shape of the 7.4 grammar the parts of the nodes that a rule on syntax changes are as the rules take
/// them, where no trivia stand before the name in `${name`.
pub fn shaped_files_are_formed()
    ensures { ShapedFilesAreFormed }
{}

/// In a file that 7.4 reads no trivia stand before the name in `${name`.
pub fn read_names_are_direct()
    ensures { ReadNamesAreDirect }
{}

/// From every entry, on every input and for every bound, a run of files rewritten by the rules on syntax that are on has in
/// 8.3 the echo and the end of the 7.4 run of the files, wherever that one stays inside the profile and asks at no point where the
/// versions differ. The files have the shape of the 7.4 grammar, and no trivia before the name in `${name`, as each file
/// that 7.4 reads.
pub fn shaped_files_keep_meaning()
    ensures { ShapedFilesKeepMeaning }
{}
