// The parts of a node by its number.
ghost use Rattle.std.specs.Prelude.{◌≡◌, ◌≤◌, ◌+◌, ◌-◌, ◌^◌, IsTrue, List, length, take};
ghost use Rattle.php_tree.specs.declared.kind.NodeKind as kinds;
ghost use Rattle.php_tree.specs.declared.token.Token.{Token};
ghost use Rattle.php_tree.specs.Tree.{Forest};
ghost use Rattle.php_terminals.specs.Tokens.{tokens_in};
ghost use Rattle.php_rows.specs.declared.row.Row.{Row as TheRow};
ghost use Rattle.php_rows.specs.Flatten.{fits, read};
ghost use Rattle.php_rows.specs.Reading.{IsAt, forest_in};
ghost use Rattle.php_rows.specs.Rows.{IsInner};

use crate::flat::Flat;
use crate::next::inside;
use crate::parts::Parts;
use crate::row::Row;
use php_terminals::tokens::Tokens;

// The parts of a node before these nodes.
pub fn parts_at<'a>(tokens: Tokens<'a>, node: Flat, behind: &'a [Flat], number: u32) -> Parts<'a>
    requires few { node.size - 1 ≤ length behind.now }
    requires nested { IsTrue (fits (node.size - 1) node.first node.end (take (node.size - 1) behind.now)) }
    requires within { node.end ≤ length tokens.marks.now }
    requires numbers { number + (node.size - 1) + 1 ≤ 2 ^ 32 }
    ensures parts { forest_in result ≡ read (node.size - 1) node.first node.end (take (node.size - 1) behind.now) (tokens_in tokens.entry) }
    ensures number { result.number ≡ number }
    ensures tokens { result.tokens ≡ tokens.entry }
{
    let (inner, _) = inside(node.size, behind);
    Parts {
        tokens,
        nodes: inner,
        number,
        at: node.first,
        end: node.end,
    }
}

// The node with a number, and those behind it.
pub fn at(nodes: &[Flat], id: usize) -> (Flat, &[Flat])
    requires { id + 1 ≤ length nodes.now }
    ensures { IsAt result nodes.now id }
{
    let (_, behind) = nodes.split_at(id);
    match behind {
        [] => unreachable!(),
        [node, rest @ ..] => (*node, rest),
    }
}

impl Row {
    /// The parts of the last node, which has a number, among the tokens of the file.
    pub fn inner<'a>(&'a self, from: usize, tokens: Tokens<'a>) -> Parts<'a>
        requires { (before : TheRow) × ((k : kinds.NodeKind) × ((f : Forest) × ((rest : List Token) × IsInner before from self.now tokens k f rest))) }
        ensures { (before : TheRow) (k : kinds.NodeKind) (f : Forest) (rest : List Token) → IsInner before from self.now tokens.entry k f rest → forest_in result ≡ f }
    {
        let (node, behind) = at(self.nodes(), from);
        parts_at(tokens, node, behind, 0)
    }
}
