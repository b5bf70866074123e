// The exact reading of a node.
ghost use Rattle.std.specs.Prelude.{◌≡◌, ◌≤◌, List, IfOk, length};
ghost use Rattle.php_tree.specs.declared.token.Token.{Token};
ghost use Rattle.php_tree.specs.Tree.{Tree};
ghost use Rattle.php_terminals.specs.Tokens.{tokens_in};
ghost use Rattle.php_exprs.specs.Built.{behind};
ghost use Rattle.php_exprs.specs.Reading.{Answers, Reads, ReadsNode};

use crate::build::Closed;
use crate::engine::node;
use crate::fault::ParseFault;
use php_grammar::Sort;
use php_rows::Row;
use php_terminals::tokens::Tokens;
use php_tree::Version;

/// The node of the sort at the front of the tokens that are still to be read, at most `limit` deep: it becomes the last
/// node of the row, and its tokens are then behind.
pub fn read_node(
    version: Version,
    sort: Sort,
    limit: u32,
    tokens: Tokens<'_>,
    row: &mut Row,
) -> Result<Closed, ParseFault>
    requires bound { limit ≤ 1500 }
    requires within { row.old.at ≤ length (tokens_in tokens) }
    // What is read is a node of the grammar.
    ensures found { IfOk result (λ closed. (tree : Tree) ×
        ReadsNode version sort limit (tokens_in tokens.entry) row.old row.new closed tree) }
    // A node of the grammar is what is read.
    ensures only { (tree : Tree) (rest : List Token) →
        Reads version sort limit (behind (tokens_in tokens.entry) row.old) tree rest →
        Answers result (tokens_in tokens.entry) row.old row.new tree rest }
{
    node(version, sort, limit, tokens, row)
}
