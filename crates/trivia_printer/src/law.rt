// Printing and tokens.
ghost use Rattle.std.specs.Prelude.{◌≡◌};
ghost use Rattle.php_tree.specs.Tree.{File, file_leaves, file_printed, tokens_bytes};

/// A law of the definitions: the bytes of a file, printed, are those of its tokens, joined in order. So a tree that is
/// read from the tokens of some bytes is printed as these bytes.
pub fn tokens_are_printed()
    ensures { (f : File) → file_printed f ≡ tokens_bytes (file_leaves f) }
{}
