// Laws of reading, of which each function's contract is one. None of them does anything.
ghost use Rattle.std.specs.Prelude.{◌≡◌, ℕ, List};
ghost use Rattle.php_tree.specs.declared.version.Version.{Version};
ghost use Rattle.php_tree.specs.Tree.{File, file_printed};
ghost use Rattle.php_reading.specs.Reading.{Reads};

/// Bytes have at most one tree.
pub fn bytes_have_one_tree()
    ensures { (v : Version) (bytes : List ℕ) (f g : File) → Reads v bytes f → Reads v bytes g → f ≡ g }
{}

/// A tree that is read from bytes is printed as these bytes.
pub fn a_tree_is_printed_as_its_bytes()
    ensures { (v : Version) (bytes : List ℕ) (f : File) → Reads v bytes f → file_printed f ≡ bytes }
{}
