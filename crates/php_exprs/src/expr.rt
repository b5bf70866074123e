// The longest expression from a place on.
ghost use Rattle.std.specs.Prelude.{◌≡◌, ◌≤◌, length, IfOk, Err};
ghost use Rattle.php_tree.specs.Tree.{tree};
ghost use Rattle.php_terminals.specs.Marked.{all_placeless};
ghost use Rattle.php_terminals.specs.Tokens.{tokens_in};
ghost use Rattle.php_exprs.specs.Expr.{HasNoExpression, IsExpression, IsLongest, IsNone};

use crate::fault::ParseFault;
use crate::read::read_node;
use php_grammar::{ANY, Sort};
use php_rows::{Row, node_with};
use php_terminals::marking::marks_of;
use php_terminals::tokens::Tokens;
use php_tree::{Node, Token, Version};
use std::alloc::{AllocError, Global};

/// Why no expression was read.
#[derive(Clone, Copy, Debug, PartialEq, Eq)]
pub enum ExprFault {
    /// No expression within the depth starts there.
    NotAnExpression,
    /// There wasn't enough memory.
    Memory,
}

impl From<AllocError> for ExprFault {
    ghost use Rattle.std.specs.Prelude.{◌≡◌};
    ghost use Rattle.php_exprs.specs.declared.expr.ExprFault.TheVariants.{Memory};

    ghost from_gives = { λ _ e. e ≡ Memory };

    fn from(_error: AllocError) -> ExprFault {
        ExprFault::Memory
    }
}

// The expression that all of the tokens are; they are those of a row, other than by their places.
fn whole_expr(
    alloc: Global,
    version: Version,
    depth: u32,
    tokens: &[Token],
    placed: Tokens<'_>,
) -> Result<Node, ExprFault>
    requires depth { depth ≤ 1500 }
    requires same { all_placeless tokens.now ≡ all_placeless (tokens_in placed) }
    ensures found { IfOk result (λ node. IsExpression version depth tokens.now (tree node)) }
    ensures none { result ≡ Err ExprFault.NotAnExpression → IsNone version depth tokens.now }
{
    let mut row = Row::new(alloc);
    match read_node(version, Sort::Operand(ANY), depth, placed, &mut row) {
        Ok(closed) => {
            if placed.len() > row.at() as usize {
                return Err(ExprFault::NotAnExpression);
            }
            Ok(node_with(alloc, closed.kind, row.inner(0, placed), tokens)?)
        }
        Err(ParseFault::NotInGrammar) => Err(ExprFault::NotAnExpression),
        Err(ParseFault::Memory) => Err(ExprFault::Memory),
    }
}

/// The longest expression that starts at the place `at`, at most `depth` nodes deep, and the place of the token behind
/// it. What stands behind it doesn't matter: of `1 + ;` it is `1`. NotAnExpression comes exactly where none within the
/// depth starts there. It tries each end from the last token on, so its time is quadratic in the tokens.
pub fn parse_expr(
    alloc: Global,
    version: Version,
    tokens: &[Token],
    at: usize,
    depth: u32,
) -> Result<(Node, usize), ExprFault>
    requires at { at ≤ length tokens.now }
    requires depth { depth ≤ 1500 }
    ensures found { IfOk result (λ x. IsLongest version depth tokens.now at (tree x.0) x.1) }
    ensures none { result ≡ Err ExprFault.NotAnExpression → HasNoExpression version depth tokens.now at }
{
    let (bytes, marks) = marks_of(alloc, tokens)?;
    let placed = Tokens::new(bytes.as_slice(), marks.as_slice());
    let mut end = tokens.len();
    'ends: loop {
        let front = placed.front(end).behind(at);
        match whole_expr(alloc, version, depth, &tokens[at..end], front) {
            Ok(node) => return Ok((node, end)),
            Err(ExprFault::Memory) => return Err(ExprFault::Memory),
            Err(ExprFault::NotAnExpression) => {}
        }
        if end == at {
            return Err(ExprFault::NotAnExpression);
        }
        end -= 1;
    }
}
