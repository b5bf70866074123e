// Laws of the grammar.
ghost use Rattle.std.specs.Prelude.{◌≡◌, List};
ghost use Rattle.php_tree.specs.declared.token.Token.{Token};
ghost use Rattle.php_tree.specs.declared.version.Version.{Version};
ghost use Rattle.php_tree.specs.Tree.{File};
ghost use Rattle.php_parser.specs.Files.{ReadsFile};

/// A law of the definitions: the tokens of a file have at most one tree.
pub fn files_have_one_tree()
    ensures { (v : Version) (tokens : List Token) (f g : File) → ReadsFile v tokens f → ReadsFile v tokens g → f ≡ g }
{}
