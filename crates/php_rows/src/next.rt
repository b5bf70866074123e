// The next part of a node in a row.
ghost use Rattle.std.specs.Prelude.{◌≡◌, ◌<◌, ◌+◌, ◌-◌, ◌^◌, ◌≤◌, IsTrue, Some, take, drop, length};
ghost use Rattle.php_rows.specs.Reading.{IsBefore, IsLeaf, IsNext, IsSplit, forest_in};

use crate::flat::Flat;
use crate::parts::{Parts, Step};
use php_terminals::mark::Mark;

// The first node, and those behind it.
pub fn split(nodes: &[Flat]) -> Option<(Flat, &[Flat])>
    ensures { IsSplit result nodes.now }
{
    match nodes {
        [] => None,
        [node, behind @ ..] => Some((*node, behind)),
    }
}

// The nodes inside one of so many, and those behind it.
pub fn inside(size: u32, behind: &[Flat]) -> (&[Flat], &[Flat])
    ensures inner { result.0.now ≡ take (size - 1) behind.now }
    ensures rest { result.1.now ≡ drop (size - 1) behind.now }
{
    let count = (size as usize).saturating_sub(1);
    if count <= behind.len() {
        behind.split_at(count)
    } else {
        (behind, &[])
    }
}

impl<'a> Parts<'a> {
    // The next token, which is then behind.
    fn leaf(&mut self) -> Mark
        requires { IsBefore self.old.at self.old.end self.old.nodes.now }
        ensures { IsLeaf result self.old self.new }
    {
        let at = self.at;
        let mark = self.tokens.marks[at as usize];
        self.at = at + 1;
        mark
    }

    /// The next part, which is then behind.
    pub fn next(&mut self) -> Option<Step<'a>>
        ensures { IsNext result self.old self.new }
    {
        match split(self.nodes) {
            None => {
                if self.at >= self.end {
                    return None;
                }
                Some(Step::Leaf(self.leaf()))
            }
            Some((node, behind)) => {
                if self.at < node.first {
                    return Some(Step::Leaf(self.leaf()));
                }
                let (inner, rest) = inside(node.size, behind);
                let number = self.number;
                let child = Parts {
                    tokens: self.tokens,
                    nodes: inner,
                    number: number + 1,
                    at: node.first,
                    end: node.end,
                };
                self.nodes = rest;
                self.number = number + node.size;
                self.at = node.end;
                Some(Step::Child(node.kind, number, child))
            }
        }
    }
}
