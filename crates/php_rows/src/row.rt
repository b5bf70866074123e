// Nodes as they are read, one behind another.
ghost use Rattle.std.specs.Prelude.{◌≡◌, ◌<◌, ◌≤◌, ◌++◌, ◌∷◌, [], List, length, IfOk, OnErr, OnOk, ◌+◌, insert as inserted};
ghost use Rattle.php_rows.specs.declared.row.Row.{Row as TheRow};
ghost use Rattle.php_tree.specs.declared.token.Token.{Token};
ghost use Rattle.php_tree.specs.declared.kind.NodeKind as kinds;
ghost use Rattle.php_tree.specs.Tree.{Forest, leaf as leaf_then, node as node_then, none};
ghost use Rattle.php_rows.specs.Flatten.{leafed};
ghost use Rattle.php_rows.specs.Rows.{Grew, IsOpen};

use crate::flat::Flat;
use php_tree::NodeKind;
use std::alloc::{AllocError, Global};

/// The nodes that were read, those that are not yet whole among them, and how many tokens were.
#[derive(Drop)]
pub struct Row {
    nodes: Vec<Flat>,
    at: u32,
}

fn push(nodes: &mut Vec<Flat>, node: Flat) -> Result<(), AllocError>
    ensures { OnOk result (nodes.new.items ≡ nodes.old.items ++ node ∷ []) }
{
    nodes.push(node)?;
    Ok(())
}

fn insert(nodes: &mut Vec<Flat>, at: usize, node: Flat) -> Result<(), AllocError>
    requires { at ≤ length nodes.old.items }
    ensures { OnOk result (nodes.new.items ≡ inserted nodes.old.items at node) }
{
    nodes.insert(at, node)?;
    Ok(())
}

// A node that is not yet whole.
fn hole(kind: NodeKind, first: u32) -> Flat
    ensures { result.first ≡ first }
{
    Flat {
        kind,
        first,
        end: first,
        size: 1,
    }
}

fn sized(size: usize) -> Result<u32, AllocError>
    ensures { IfOk result (λ n. n ≡ size) }
{
    u32::try_from(size).map_err(|_| AllocError)
}

fn added(at: u32, more: u32) -> Result<u32, AllocError>
    ensures { IfOk result (λ n. n ≡ at + more) }
{
    at.checked_add(more).ok_or(AllocError)
}

impl Row {
    /// Nothing yet.
    pub fn new(alloc: Global) -> Row
        ensures nodes { result.nodes.items ≡ [] }
        ensures at { result.at ≡ 0 }
    {
        Row {
            nodes: Vec::new(alloc),
            at: 0,
        }
    }

    /// The next token is a part of the innermost node that is not yet whole.
    pub fn leaf(&mut self) -> Result<(), AllocError>
        ensures grew { (t : Token) → OnOk result (Grew self.old self.new (leaf_then t none)) }
        ensures at { OnOk result (self.new.at ≡ self.old.at + 1) }
        ensures same { OnErr result (self.new.at ≡ self.old.at) }
    {
        self.at = self.at.checked_add(1).ok_or(AllocError)?;
        Ok(())
    }

    /// The next tokens, so many, are parts of the innermost node that is not yet whole.
    pub fn leaves(&mut self, count: usize) -> Result<(), AllocError>
        ensures grew { (us : List Token) → length us ≡ count → OnOk result (Grew self.old self.new (leafed us none)) }
        ensures at { OnOk result (self.new.at ≡ self.old.at + count) }
        ensures same { OnErr result (self.new.at ≡ self.old.at) }
    {
        let more = sized(count)?;
        let at = added(self.at, more)?;
        self.at = at;
        Ok(())
    }

    /// A node begins here. Answers its number.
    pub fn open(&mut self, kind: NodeKind) -> Result<usize, AllocError>
        ensures opened { IfOk result (λ from. IsOpen self.old self.new from none) }
        ensures at { self.new.at ≡ self.old.at }
    {
        let from = self.nodes.len();
        push(&mut self.nodes, hole(kind, self.at))?;
        Ok(from)
    }

    /// A node becomes the first part of one that begins where it does.
    pub fn wrap(&mut self, from: usize, kind: NodeKind) -> Result<(), AllocError>
        requires { from < length self.old.nodes.items }
        ensures wrapped { (before : TheRow) (k : kinds.NodeKind) (c : Forest) → length before.nodes.items ≡ from →
            Grew before self.old (node_then k c none) → OnOk result (IsOpen before self.new from (node_then k c none)) }
        ensures at { self.new.at ≡ self.old.at }
    {
        let first = self.nodes[from].first;
        insert(&mut self.nodes, from, hole(kind, first))?;
        Ok(())
    }

    /// A node is whole.
    pub fn close(&mut self, from: usize, kind: NodeKind) -> Result<(), AllocError>
        requires { from < length self.old.nodes.items }
        ensures grew { (before : TheRow) (f : Forest) → IsOpen before self.old from f →
            OnOk result (Grew before self.new (node_then kind f none)) }
        ensures at { self.new.at ≡ self.old.at }
    {
        let first = self.nodes[from].first;
        let size = sized(self.nodes.len() - from)?;
        self.nodes[from] = Flat {
            kind,
            first,
            end: self.at,
            size,
        };
        Ok(())
    }

    /// How many nodes there are.
    pub fn len(&self) -> usize
        ensures { result ≡ length self.now.nodes.items }
    {
        self.nodes.len()
    }

    /// How many tokens were read.
    pub fn at(&self) -> u32
        ensures { result ≡ self.now.at }
    {
        self.at
    }

    // The nodes.
    pub fn into_nodes(self) -> Vec<Flat>
        ensures { result ≡ self.nodes }
    {
        self.nodes
    }

    // The nodes, to look at.
    pub fn nodes(&self) -> &[Flat]
        ensures { result.now ≡ self.now.nodes.items }
    {
        self.nodes.as_slice()
    }
}
