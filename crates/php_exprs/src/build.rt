// What is known of the parts that were read so far, and of nodes that were read.
ghost use Rattle.std.specs.Prelude.{◌≡◌, ◌+◌, ◌<◌, ◌^◌, max, IfOk};
ghost use Rattle.php_tree.specs.Tree.{Forest, node as node_then, none};
ghost use Rattle.php_terminals.specs.Tokens.{tokens_in};
ghost use Rattle.php_rows.specs.declared.row.Row.{Row as TheRow};
ghost use Rattle.php_rows.specs.Rows.{Grew};
ghost use Rattle.php_exprs.specs.Built.{IsClosed, IsReady};

use php_grammar::{edge, is_misindented};
use php_rows::Row;
use php_terminals::tokens::Tokens;
use php_tree::{NodeKind, Version};
use std::alloc::AllocError;

/// How deep the parts so far are, and the edge of the last one.
#[derive(Clone, Copy, Debug, PartialEq, Eq)]
pub struct Reach {
    pub deep: u32,
    pub edge: u8,
}

/// What the grammar asks of a node: its kind, how deep it is, its edge, and whether it is a heredoc or a nowdoc with a
/// line that lacks the indentation of its closing line.
#[derive(Clone, Copy, Debug, PartialEq, Eq)]
pub struct Closed {
    pub kind: NodeKind,
    pub deep: u32,
    pub edge: u8,
    pub misindented: bool,
}

impl Reach {
    // No parts yet.
    pub fn new() -> Reach
        ensures deep { result.deep ≡ 0 }
        ensures edge { result.edge ≡ 0 }
    {
        Reach { deep: 0, edge: 0 }
    }

    // A token becomes the last part.
    pub fn leaf(&mut self)
        ensures deep { self.new.deep ≡ self.old.deep }
        ensures edge { self.new.edge ≡ 0 }
    {
        self.edge = 0;
    }

    // A node becomes the last part.
    pub fn child(&mut self, closed: Closed)
        ensures deep { self.new.deep ≡ max self.old.deep closed.deep }
        ensures edge { self.new.edge ≡ closed.edge }
    {
        self.deep = self.deep.max(closed.deep);
        self.edge = closed.edge;
    }
}

// The node with a number, which has all of its parts, is whole.
pub fn close(
    version: Version,
    kind: NodeKind,
    from: usize,
    reach: Reach,
    tokens: Tokens<'_>,
    row: &mut Row,
) -> Result<Closed, AllocError>
    requires ready { (before : TheRow) × ((f : Forest) × IsReady version (tokens_in tokens) before row.old from reach f) }
    requires low { reach.deep + 1 < 2 ^ 32 }
    ensures grew { (before : TheRow) (f : Forest) → IsReady version (tokens_in tokens.entry) before row.old from reach f →
        IfOk result (λ c. Grew before row.new (node_then kind f none)) }
    ensures closed { (before : TheRow) (f : Forest) → IsReady version (tokens_in tokens.entry) before row.old from reach f →
        IfOk result (λ c. IsClosed version c (kind, f)) }
    ensures deep { IfOk result (λ c. c.deep ≡ reach.deep + 1) }
    ensures at { row.new.at ≡ row.old.at }
{
    row.close(from, kind)?;
    let parts = row.inner(from, tokens);
    let own = edge(version, kind, parts, reach.edge);
    let misindented = is_misindented(kind, parts);
    Ok(Closed {
        kind,
        deep: reach.deep + 1,
        edge: own,
        misindented,
    })
}
