// Whole files.
ghost use Rattle.std.specs.Prelude.{◌≡◌, ◌<◌, ◌^◌, ◌++◌, ◌∷◌, [], IfOk, IsTrue, option_map};
ghost use Rattle.php_tree.specs.Tree.{count, depth, leaves, nodes_forest, tree};
ghost use Rattle.php_tree.specs.Places.{ArePlaced, are_placed};

use crate::clone::clone_node;
use crate::measure::{count_inside, deeper, depth_inside};
use crate::node::Node;
use crate::place::place_among;
use crate::search::found_inside;
use crate::token::Token;
use crate::version::Version;
use span_edits::Span;
use sqlite_items::Items;
use std::alloc::{AllocError, Global};

/// A file: the version in which it was read, its statements, and the token at its end. It has fewer than 2^32 nodes,
/// and each token's `start` is the number of bytes before its text.
#[derive(Drop)]
pub struct FileTree {
    version: Version,
    statements: Items<Node>,
    end: Token,
    ghost few: { count (nodes_forest statements) < 2 ^ 32 },
    ghost placed: { IsTrue (are_placed 0 (leaves (nodes_forest statements) ++ end ∷ [])) },
}

impl FileTree {
    ghost use Rattle.php_tree.specs.Ids.{bounds, node_at, span_at};
    ghost use Rattle.php_tree.specs.Whole.{file, version as version_of};

    /// A file of these statements.
    #[tactic(auto, using(crate::proofs::Placed::placed_test))]
    pub fn new(version: Version, statements: Items<Node>, end: Token) -> FileTree
        requires few { count (nodes_forest statements) < 2 ^ 32 }
        requires placed { ArePlaced 0 (leaves (nodes_forest statements) ++ end ∷ []) }
        ensures version { version_of result ≡ version }
        ensures statements { (file result).statements ≡ nodes_forest statements }
        ensures end { (file result).end ≡ end }
    {
        FileTree {
            version,
            statements,
            end,
        }
    }

    /// The version in which the file was read.
    pub fn version(&self) -> Version
        ensures { result ≡ version_of self.now }
    {
        self.version
    }

    /// The statements, in order.
    pub fn statements(&self) -> &[Node]
        ensures { nodes_forest result.now ≡ (file self.now).statements }
    {
        self.statements.as_slice()
    }

    /// The token at the end of the file: its text is empty, and its lead the trivia behind the last statement.
    pub fn end(&self) -> &Token
        ensures { result.now ≡ (file self.now).end }
    {
        &self.end
    }

    /// How many nodes the file has. It takes no memory.
    pub fn nodes(&self) -> u32
        ensures { result ≡ count (file self.now).statements }
    {
        let mut nodes = 0;
        for statement in self.statements.as_slice() {
            nodes += count_inside(statement) + 1;
        }
        nodes
    }

    /// How deep nodes stand in one another: 0 without statements, and 1 for a statement without child nodes. It
    /// takes no memory.
    pub fn depth(&self) -> u32
        ensures { result ≡ depth (file self.now).statements }
    {
        let mut deepest = 0;
        for statement in self.statements.as_slice() {
            deepest = deeper(deepest, depth_inside(statement));
        }
        deepest
    }

    /// The node with a number, in preorder from 0; none exactly where the number is `nodes()` or more. It takes no
    /// memory.
    pub fn node(&self, id: u32) -> Option<&Node>
        ensures { option_map (λ n. tree n.now) result ≡ node_at (file self.now) id }
    {
        let mut left = id;
        for statement in self.statements.as_slice() {
            if left == 0 {
                return Some(statement);
            }
            match found_inside(statement, left - 1) {
                Ok(found) => return Some(found),
                Err(rest) => left = rest,
            }
        }
        None
    }

    /// The place of the node with a number: from its first token's text to the end of its last one's, or the empty
    /// place before the next token; none exactly where the number is `nodes()` or more. It takes no memory.
    pub fn span(&self, id: u32) -> Option<Span>
        ensures { option_map bounds result ≡ span_at (file self.now) id }
    {
        place_among(self.statements.as_slice(), id, &self.end)
    }

    /// An equal tree. The only error is want of memory.
    pub fn clone_tree(&self, alloc: Global) -> Result<FileTree, AllocError>
        ensures version { IfOk result (λ f. version_of f ≡ version_of self.now) }
        ensures same { IfOk result (λ f. file f ≡ file self.now) }
    {
        let mut statements = Items::new(alloc);
        for statement in self.statements.as_slice() {
            statements.push(clone_node(alloc, statement)?)?;
        }
        let end = self.end.copy(alloc)?;
        Ok(FileTree {
            version: self.version,
            statements,
            end,
        })
    }
}
