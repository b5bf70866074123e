// The form of a node in a row.
ghost use Rattle.std.specs.Prelude.{◌≡◌, [], List, IfOk, OnOk};
ghost use Rattle.php_terminals.specs.Marked.{IsMark, token_at};
ghost use Rattle.php_rows.specs.Reading.{forest_in};
ghost use Rattle.scope_names.specs.Form.{Part, form as form_of_forest, part_before, parts as parts_of};
ghost use Rattle.node_names.specs.Drafts.{stacked};
ghost use Rattle.node_names.specs.Seen.{form_of};
ghost use Rattle.file_declarations.specs.Loose.{loose_before, loose_part};

use crate::loose::Loose;
use node_names::{Draft, Piece, add_token, pieces_of};
use php_rows::{Parts, Step};
use php_terminals::mark::Mark;
use php_terminals::marked::text_of;
use php_tree::{Token, TokenKind};
use span_edits::Bytes;
use std::alloc::{AllocError, Global};

// A token behind others.
#[tactic(auto, using(crate::proofs::LooseLemmas::loose_push, crate::proofs::LooseLemmas::text_before))]
fn add_leaf<'a>(loose: &mut Vec<Loose<'a>>, bytes: &'a [u8], mark: Mark) -> Result<(), AllocError>
    requires { IsMark bytes.now mark }
    ensures { OnOk result ((ps : List Part) → loose_before loose.new.items ps ≡ loose_before loose.old.items (part_before (token_at bytes.entry.now mark) ps)) }
{
    loose.push(Loose::Token(mark.kind, text_of(bytes, mark)))?;
    Ok(())
}

// The parts of a node, in order.
#[tactic(auto, using(crate::proofs::LooseLemmas::loose_push))]
fn loose_parts<'a>(alloc: Global, parts: Parts<'a>) -> Result<Vec<Loose<'a>>, AllocError>
    ensures { IfOk result (λ ls. loose_before ls.items [] ≡ parts_of (forest_in parts.entry)) }
{
    let bytes = parts.bytes();
    let mut loose = Vec::new(alloc);
    let mut left = parts;
    'parts: loop {
        match left.next() {
            None => return Ok(loose),
            Some(Step::Leaf(mark)) => add_leaf(&mut loose, bytes, mark)?,
            Some(Step::Child(_, _, _)) => loose.push(Loose::Child)?,
        }
    }
}

// A token of this kind and text, before the parts that were read.
fn add_text(
    alloc: Global,
    drafts: &mut Vec<Draft>,
    kind: TokenKind,
    text: &[u8],
) -> Result<(), AllocError>
    ensures { OnOk result (stacked drafts.new.items ≡ loose_part (Loose.Token kind text.entry) (stacked drafts.old.items)) }
{
    let token = Token {
        kind,
        lead: Bytes::new(Vec::new(alloc)),
        text: Bytes::new(Vec::from_slice(alloc, text)?),
        start: 0,
    };
    add_token(alloc, drafts, &token)
}

// One part before those that were read.
fn add_loose(alloc: Global, drafts: &mut Vec<Draft>, loose: Loose) -> Result<(), AllocError>
    ensures { OnOk result (stacked drafts.new.items ≡ loose_part loose.entry (stacked drafts.old.items)) }
{
    match loose {
        Loose::Token(kind, text) => add_text(alloc, drafts, kind, text),
        Loose::Child => {
            drafts.push(Draft::Child)?;
            Ok(())
        }
    }
}

/// The form of a node by its parts in a row: its words, a name being one word, and where its child nodes stand. The only
/// error is want of memory.
#[tactic(auto, using(crate::proofs::LooseLemmas::loose_push))]
pub fn row_form(alloc: Global, parts: Parts) -> Result<Vec<Piece>, AllocError>
    ensures { IfOk result (λ ps. form_of ps.items ≡ form_of_forest (forest_in parts.entry)) }
{
    let mut loose = loose_parts(alloc, parts)?;
    let mut drafts = Vec::new(alloc);
    while let Some(part) = loose.pop() {
        add_loose(alloc, &mut drafts, part)?;
    }
    pieces_of(alloc, drafts)
}
