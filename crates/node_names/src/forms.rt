// The form of a node: its words and where its child nodes stand.
ghost use Rattle.std.specs.Prelude.{◌≡◌, IfOk, OnOk};
ghost use Rattle.php_tree.specs.Tree.{Forest, forest_of, part_before};
ghost use Rattle.scope_names.specs.Form.{bit, bits, form as form_of_forest, parts as parts_of_forest};
ghost use Rattle.node_names.specs.Drafts.{part_of, stacked};
ghost use Rattle.node_names.specs.Seen.{bit_of, form_of};

use crate::draft::{Draft, add_token};
use crate::piece::Piece;
use php_tree::Part;
use span_edits::Bytes;
use std::alloc::{AllocError, Global};

// One part before those that were read.
fn add_part(alloc: Global, drafts: &mut Vec<Draft>, part: &Part) -> Result<(), AllocError>
    ensures { OnOk result ((f : Forest) → stacked drafts.old.items ≡ parts_of_forest f →
        stacked drafts.new.items ≡ parts_of_forest (part_before part.now f)) }
{
    match part {
        Part::Leaf(token) => add_token(alloc, drafts, token),
        Part::Child(_) => {
            drafts.push(Draft::Child)?;
            Ok(())
        }
    }
}

// The parts, read from the last one on.
fn drafts_of(alloc: Global, parts: &[Part]) -> Result<Vec<Draft>, AllocError>
    ensures { IfOk result (λ ds. stacked ds.items ≡ parts_of_forest (forest_of parts.now)) }
{
    let mut drafts = Vec::new(alloc);
    let mut left = parts.len();
    while left > 0 {
        left -= 1;
        add_part(alloc, &mut drafts, &parts[left])?;
    }
    Ok(drafts)
}

fn piece_of(draft: Draft) -> Piece
    ensures { bit_of result ≡ bit (part_of draft) }
{
    match draft {
        Draft::Child => Piece::Child,
        Draft::Word(_, kind, mut text) => {
            text.reverse();
            Piece::Word(kind, Bytes::new(text))
        }
    }
}

/// The pieces that drafts become. The only error is want of memory.
pub fn pieces_of(alloc: Global, mut drafts: Vec<Draft>) -> Result<Vec<Piece>, AllocError>
    ensures { IfOk result (λ ps. form_of ps.items ≡ bits (stacked drafts.items)) }
{
    let mut pieces = Vec::new(alloc);
    while let Some(draft) = drafts.pop() {
        pieces.push(piece_of(draft))?;
    }
    Ok(pieces)
}

/// The form of a node by its parts: its words, a name being one word, and where its child nodes stand. The only error is
/// want of memory.
pub fn form(alloc: Global, parts: &[Part]) -> Result<Vec<Piece>, AllocError>
    ensures { IfOk result (λ ps. form_of ps.items ≡ form_of_forest (forest_of parts.now)) }
{
    let drafts = drafts_of(alloc, parts)?;
    pieces_of(alloc, drafts)
}
