// Reading by the tables.
ghost use Rattle.std.specs.Prelude.{◌≡◌, ◌≤◌, ◌<◌, ◌+◌, ℕ, length};
ghost use Rattle.php_tree.specs.declared.version.Version.{Version as TheVersion};
ghost use Rattle.php_tree.specs.Tree.{Tree, depth};
ghost use Rattle.php_terminals.specs.Tokens.{tokens_in};
ghost use Rattle.php_rows.specs.declared.row.Row.{Row as TheRow};
ghost use Rattle.php_exprs.specs.Built.{AddedNode, IsClosed, behind};
ghost use Rattle.php_grammar.specs.Tables.{php};
ghost use Rattle.php_exprs.specs.Parsed.{Extends, GivesTree, grown_at, inner_at, item_at, node_at, parts_at, run_read, repeated_at, word_at};

use crate::build::{Closed, Reach, close};
use crate::fault::ParseFault;
use php_grammar::{Group, Item, Sort, Terminal, accepts, form_of, parts_of, tail_of};
use php_rows::Row;
use php_terminals::tokens::Tokens;
use php_tree::Version;

// How deep groups stand in one another, at most.
pub const NESTING: u32 = 7;

// The tokens that are still to be read.
pub fn rest<'a>(tokens: Tokens<'a>, row: &Row) -> Tokens<'a>
    ensures rest { tokens_in result ≡ behind (tokens_in tokens.entry) row.now }
    ensures bytes { result.bytes.now ≡ tokens.entry.bytes.now }
{
    tokens.behind(row.at() as usize)
}

// A node of the sort, at most `limit` deep.
#[cycle(engine)]
pub fn node(
    version: Version,
    sort: Sort,
    limit: u32,
    tokens: Tokens<'_>,
    row: &mut Row,
) -> Result<Closed, ParseFault>
    requires bound { limit ≤ 1500 }
    requires within { row.old.at ≤ length (tokens_in tokens) }
    ensures { GivesTree result version (tokens_in tokens.entry) row.old row.new limit
        (node_at (php version) limit sort (behind (tokens_in tokens.entry) row.old)) }
{
    if limit == 0 {
        return Err(ParseFault::NotInGrammar);
    }
    match form_of(version, sort, rest(tokens, row)) {
        None => Err(ParseFault::NotInGrammar),
        Some((kind, form)) => {
            let from = row.open(kind)?;
            let mut reach = Reach::new();
            items(version, form, NESTING, limit - 1, tokens, row, &mut reach)?;
            let closed = close(version, kind, from, reach, tokens, row)?;
            grow(version, sort, limit - 1, from, closed, tokens, row)
        }
    }
}

// The last node, which has a number, and what it grows into. Its parts may be `limit` deep.
#[cycle(engine)]
fn grow(
    version: Version,
    sort: Sort,
    limit: u32,
    from: usize,
    closed: Closed,
    tokens: Tokens<'_>,
    row: &mut Row,
) -> Result<Closed, ParseFault>
    requires bound { limit < 1500 }
    requires low { closed.deep ≤ limit + 1 }
    requires node { (before : TheRow) × ((x : Tree) × (length before.nodes.items ≡ from) ×
        AddedNode (tokens_in tokens) before row.old x × IsClosed version closed x) }
    ensures { (before : TheRow) (x : Tree) (fuel : ℕ) → length before.nodes.items ≡ from →
        AddedNode (tokens_in tokens.entry) before row.old x → IsClosed version closed x →
        limit + 1 ≤ fuel + depth x.1 →
        GivesTree result version (tokens_in tokens.entry) before row.new (limit + 1)
        (grown_at (php version) limit fuel sort x (behind (tokens_in tokens.entry) row.old)) }
{
    let tail = tail_of(
        version,
        sort,
        closed.kind,
        closed.edge,
        closed.misindented,
        rest(tokens, row),
    );
    match tail {
        None => Ok(closed),
        Some((kind, form)) => {
            if closed.deep > limit {
                return Err(ParseFault::NotInGrammar);
            }
            row.wrap(from, kind)?;
            let mut reach = Reach::new();
            reach.child(closed);
            items(version, form, NESTING, limit, tokens, row, &mut reach)?;
            let grown = close(version, kind, from, reach, tokens, row)?;
            grow(version, sort, limit, from, grown, tokens, row)
        }
    }
}

// The items, one after another, behind the parts so far.
#[cycle(engine)]
pub fn items(
    version: Version,
    form: &[Item],
    nesting: u32,
    limit: u32,
    tokens: Tokens<'_>,
    row: &mut Row,
    reach: &mut Reach,
) -> Result<(), ParseFault>
    requires bound { limit ≤ 1500 }
    requires nesting { nesting ≤ 7 }
    requires within { row.old.at ≤ length (tokens_in tokens) }
    ensures { Extends result version (tokens_in tokens.entry) (row.old, reach.old) (row.new, reach.new) limit
        (parts_at (php version) limit nesting form.now (behind (tokens_in tokens.entry) row.old)) }
{
    for item in form {
        one_item(version, *item, nesting, limit, tokens, row, reach)?;
    }
    Ok(())
}

// One item, behind the parts so far.
#[cycle(engine)]
fn one_item(
    version: Version,
    item: Item,
    nesting: u32,
    limit: u32,
    tokens: Tokens<'_>,
    row: &mut Row,
    reach: &mut Reach,
) -> Result<(), ParseFault>
    requires bound { limit ≤ 1500 }
    requires nesting { nesting ≤ 7 }
    requires within { row.old.at ≤ length (tokens_in tokens) }
    ensures { Extends result version (tokens_in tokens.entry) (row.old, reach.old) (row.new, reach.new) limit
        (item_at (php version) limit nesting item (behind (tokens_in tokens.entry) row.old)) }
{
    match item {
        Item::Word(terminal) => word(version, terminal, tokens, row, reach),
        Item::Node(sort) => {
            let closed = node(version, sort, limit, tokens, row)?;
            reach.child(closed);
            Ok(())
        }
        Item::Part(group) => {
            let form = parts_of(version, group, rest(tokens, row));
            inner(version, form, nesting, limit, tokens, row, reach)
        }
        Item::Repeats(group) => repeats(version, group, nesting, limit, tokens, row, reach),
        Item::Span => run(rest(tokens, row).spanned(), tokens, row, reach),
    }
}

// One token of the class.
fn word(
    version: Version,
    terminal: Terminal,
    tokens: Tokens<'_>,
    row: &mut Row,
    reach: &mut Reach,
) -> Result<(), ParseFault>
    requires { row.old.at ≤ length (tokens_in tokens) }
    ensures { (limit : ℕ) → Extends result version (tokens_in tokens.entry) (row.old, reach.old) (row.new, reach.new) limit
        (word_at (php version) terminal (behind (tokens_in tokens.entry) row.old)) }
{
    let left = rest(tokens, row);
    if left.is_empty() {
        return Err(ParseFault::NotInGrammar);
    }
    if !accepts(version, terminal, left.bytes, left.mark(0)) {
        return Err(ParseFault::NotInGrammar);
    }
    row.leaf()?;
    reach.leaf();
    Ok(())
}

// The first `count` tokens.
fn run(count: usize, tokens: Tokens<'_>, row: &mut Row, reach: &mut Reach) -> Result<(), ParseFault>
    requires { row.old.at ≤ length (tokens_in tokens) }
    ensures { (version : TheVersion) (limit : ℕ) →
        Extends result version (tokens_in tokens.entry) (row.old, reach.old) (row.new, reach.new) limit
        (run_read count (behind (tokens_in tokens.entry) row.old)) }
{
    if count > rest(tokens, row).len() {
        return Err(ParseFault::NotInGrammar);
    }
    row.leaves(count)?;
    if count > 0 {
        reach.leaf();
    }
    Ok(())
}

// The items of a group.
#[cycle(engine)]
fn inner(
    version: Version,
    form: &[Item],
    nesting: u32,
    limit: u32,
    tokens: Tokens<'_>,
    row: &mut Row,
    reach: &mut Reach,
) -> Result<(), ParseFault>
    requires bound { limit ≤ 1500 }
    requires nesting { nesting ≤ 7 }
    requires within { row.old.at ≤ length (tokens_in tokens) }
    ensures { Extends result version (tokens_in tokens.entry) (row.old, reach.old) (row.new, reach.new) limit
        (inner_at (php version) limit nesting form.now (behind (tokens_in tokens.entry) row.old)) }
{
    if nesting == 0 {
        return Err(ParseFault::NotInGrammar);
    }
    items(version, form, nesting - 1, limit, tokens, row, reach)
}

// A group again and again.
#[cycle(engine)]
fn repeats(
    version: Version,
    group: Group,
    nesting: u32,
    limit: u32,
    tokens: Tokens<'_>,
    row: &mut Row,
    reach: &mut Reach,
) -> Result<(), ParseFault>
    requires bound { limit ≤ 1500 }
    requires nesting { nesting ≤ 7 }
    requires within { row.old.at ≤ length (tokens_in tokens) }
    ensures { Extends result version (tokens_in tokens.entry) (row.old, reach.old) (row.new, reach.new) limit
        (repeated_at (php version) limit nesting (length (behind (tokens_in tokens.entry) row.old)) group
        (behind (tokens_in tokens.entry) row.old)) }
{
    loop {
        let form = parts_of(version, group, rest(tokens, row));
        if form.is_empty() {
            return Ok(());
        }
        let before = row.at();
        inner(version, form, nesting, limit, tokens, row, reach)?;
        if row.at() <= before {
            return Err(ParseFault::NotInGrammar);
        }
    }
}
