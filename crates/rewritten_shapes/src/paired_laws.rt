// What the shape of the 7.4 grammar says of braces, quoted texts and first tokens, part by part.

ghost use Rattle.rewritten_shapes.specs.paired.Laws.{QuotedTextsAreWalked, ShapedFilesArePaired};

/// In a file with the shape of the 7.4 grammar each `${` of a quoted text stands before a name or an expression and its `}`.
pub fn quoted_texts_are_walked()
    ensures { QuotedTextsAreWalked }
{}

/// In a file with the shape of the 7.4 grammar brackets stand in pairs and quoted texts are whole, where its uses of traits
/// have neither between their own braces.
pub fn shaped_files_are_paired()
    ensures { ShapedFilesArePaired }
{}
