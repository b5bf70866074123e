// Laws of the plain definition.
ghost use Rattle.std.specs.Prelude.{◌≡◌, ℕ, ◌<◌, ◌≤◌, List};
ghost use Rattle.php_tree.specs.declared.token.Token.{Token};
ghost use Rattle.php_tree.specs.declared.version.Version.{Version};
ghost use Rattle.php_tree.specs.Tree.{File, Tree, depth, file_leaves, leaves};
ghost use Rattle.php_exprs.specs.Expr.{IsExpression as IsRead};
ghost use Rattle.php_parser.specs.Files.{ReadsFile, bound};
ghost use Rattle.php_shapes.specs.Shapes.{IsExpression, Shape};

/// A law of the definitions: a file that is read has the shape of the grammar, and its leaves are the tokens.
pub fn read_files_have_the_shape()
    ensures { (v : Version) (tokens : List Token) (f : File) → ReadsFile v tokens f → Shape v f × (tokens ≡ file_leaves f) }
{}

/// A law of the definitions: an expression that is read has the shape of the grammar, and its leaves are the tokens.
pub fn read_expressions_have_the_shape()
    ensures { (v : Version) (d : ℕ) (tokens : List Token) (x : Tree) → IsRead v d tokens x → IsExpression v x × (tokens ≡ leaves x.1) }
{}

/// A law of the definitions: an expression that has the shape of the grammar is read from its leaves, at any depth that it fits.
pub fn expressions_with_the_shape_are_read()
    ensures { (v : Version) (d : ℕ) (x : Tree) → IsExpression v x → depth x.1 < d → IsRead v d (leaves x.1) x }
{}

/// A law of the definitions: a file that has the shape of the grammar, and is within the bound, is read from its leaves.
pub fn files_with_the_shape_are_read()
    ensures { (v : Version) (f : File) → Shape v f → depth f.statements ≤ bound v → ReadsFile v (file_leaves f) f }
{}

/// A law of the definitions: two expressions that have the shape of the grammar and the same leaves are one.
pub fn leaves_determine_expressions()
    ensures { (v : Version) (x y : Tree) → IsExpression v x → IsExpression v y → leaves x.1 ≡ leaves y.1 → x ≡ y }
{}

/// A law of the definitions: two files that have the shape of the grammar and the same leaves, within the bound, are one.
pub fn leaves_determine_files()
    ensures { (v : Version) (f g : File) → Shape v f → Shape v g → depth f.statements ≤ bound v → depth g.statements ≤ bound v → file_leaves f ≡ file_leaves g → f ≡ g }
{}
