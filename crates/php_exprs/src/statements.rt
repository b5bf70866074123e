// The statements at the front of some tokens.
ghost use Rattle.std.specs.Prelude.{◌≡◌, ◌≤◌, List, IfOk, length};
ghost use Rattle.php_tree.specs.declared.token.Token.{Token};
ghost use Rattle.php_tree.specs.Tree.{Forest};
ghost use Rattle.php_terminals.specs.Tokens.{tokens_in};
ghost use Rattle.php_forms.specs.declared.item.Group.TheVariants.{Statements};
ghost use Rattle.php_grammar.specs.Tables.{php};
ghost use Rattle.php_exprs.specs.Built.{behind};
ghost use Rattle.php_exprs.specs.Parsed.{Extends, repeated_at};
ghost use Rattle.php_exprs.specs.Reading.{AnswersStatements, IsListed, ReadsStatements};

use crate::build::Reach;
use crate::engine::{node, rest};
use crate::fault::ParseFault;
use php_grammar::{Group, Sort, parts_of};
use php_rows::Row;
use php_terminals::tokens::Tokens;
use php_tree::Version;
use std::alloc::Global;

// The statements at the front of the tokens that are still to be read.
fn statements(
    version: Version,
    limit: u32,
    tokens: Tokens<'_>,
    row: &mut Row,
    reach: &mut Reach,
) -> Result<(), ParseFault>
    requires bound { limit ≤ 1500 }
    requires within { row.old.at ≤ length (tokens_in tokens) }
    ensures { Extends result version (tokens_in tokens.entry) (row.old, reach.old) (row.new, reach.new) limit
        (repeated_at (php version) limit 7 (length (behind (tokens_in tokens.entry) row.old)) Statements
        (behind (tokens_in tokens.entry) row.old)) }
{
    'repeats: loop {
        if parts_of(version, Group::Statements, rest(tokens, row)).is_empty() {
            return Ok(());
        }
        let before = row.at();
        let closed = node(version, Sort::Statement, limit, tokens, row)?;
        reach.child(closed);
        if row.at() <= before {
            return Err(ParseFault::NotInGrammar);
        }
    }
}

/// The statements at the front of the tokens, at most `limit` deep, as a row, and how deep they are. Those behind them,
/// from the row's number of tokens on, begin no statement. 2^32 nodes and more count as want of memory.
pub fn read_statements(
    alloc: Global,
    version: Version,
    limit: u32,
    tokens: Tokens<'_>,
) -> Result<(Row, u32), ParseFault>
    requires { limit ≤ 1500 }
    // What is read are statements of the grammar.
    ensures found { IfOk result (λ x. (f : Forest) × ((rest : List Token) ×
        ReadsStatements version limit (tokens_in tokens.entry) f rest × IsListed (tokens_in tokens.entry) x.0 x.1 f rest)) }
    // Statements of the grammar are what is read.
    ensures only { (f : Forest) (rest : List Token) → ReadsStatements version limit (tokens_in tokens.entry) f rest →
        AnswersStatements result (tokens_in tokens.entry) f rest }
{
    let mut row = Row::new(alloc);
    let mut reach = Reach::new();
    statements(version, limit, tokens, &mut row, &mut reach)?;
    Ok((row, reach.deep))
}
