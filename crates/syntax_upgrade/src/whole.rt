// Whole files.
ghost use Rattle.std.specs.Prelude.{◌≡◌, ◌++◌, IfOk, OnOk, length, map, zero};
ghost use Rattle.std.specs.List.Sorted.{IsNonDecreasingBy, IsPermutation};
ghost use Rattle.php_tree.specs.Tree.{file_leaves, file_printed};
ghost use Rattle.php_tree.specs.declared.kind.NodeKind.TheVariants.{Block};
ghost use Rattle.php_terminals.specs.declared.terminal.Terminal.TheVariants.{End};
ghost use Rattle.php_rows.specs.File.{file_in};
ghost use Rattle.tracked_changes.specs.Draft.{token_pieces};
ghost use Rattle.syntax_rules.specs.Together.{token_by};
ghost use Rattle.syntax_rules.specs.Rewritten.{edits_by, rewritten_by};
ghost use Rattle.syntax_upgrade.specs.Enums.{enums};
ghost use Rattle.syntax_upgrade.specs.Found.{found_of, order_of};
ghost use Rattle.syntax_upgrade.specs.Laws.{file_next};
ghost use Rattle.syntax_rules.specs.Quotable.{AreQuotable};
ghost use Rattle.syntax_upgrade.specs.OffPlaces.{off_reports};
ghost use Rattle.syntax_upgrade.specs.Reports.{reports_by, reports_in};
ghost use Rattle.syntax_upgrade.specs.ReservedName.{at_first};
ghost use Rattle.syntax_upgrade.specs.Steps.{recorded_next};
ghost use Rattle.syntax_upgrade.specs.Words.{seen};
ghost use Rattle.syntax_upgrade.specs.Writing.{pieces_next};

use crate::calm::Loud;
use crate::found::{Found, in_order};
use crate::labels::Labels;
use crate::off_places::OffPlaces;
use crate::progress::Progress;
use crate::walk::{Home, Walk, walk_parts};
use crate::word::Word;
use crate::words::word_at;
use crate::writer::Writer;
use php_rows::RowTree;
use std::alloc::{AllocError, Global};
use syntax_rules::Rules;

/// A file upgraded: its new bytes, how many edits made them, and what is reported, in order of start, then end, then the
/// rule's number.
#[derive(Drop)]
pub struct Upgrade {
    pub bytes: Vec<u8>,
    pub edits: usize,
    pub reports: Vec<Found>,
}

// The token at the end of a file.
fn end_token(writer: &mut Writer, rules: Rules, token: Word) -> Result<(), AllocError>
    ensures { OnOk result (writer.new ≡ recorded_next (pieces_next (token_pieces (token_by rules (seen token.entry)))) writer.old) }
{
    writer.trivia(rules, token.lead)?;
    writer.kept(token.text)
}

// One list, and then another.
fn join(mut first: Vec<Found>, second: Vec<Found>) -> Result<Vec<Found>, AllocError>
    ensures { IfOk result (λ v. v.items ≡ first.items ++ second.items) }
{
    first.extend_from_slice(second.as_slice())?;
    Ok(first)
}

/// Upgrades a file by the rules on syntax that are on, in one walk. A rule that is off is reported where it would edit, with
/// cause off and its weight. The only error is want of memory; a place past 32 bits and a count that doesn't fit count as such.
pub fn upgraded(alloc: Global, tree: &RowTree, rules: Rules) -> Result<Upgrade, AllocError>
    requires quotable { AreQuotable (file_in tree.now).statements }
    ensures bytes { IfOk result (λ u. u.bytes.items ≡ file_printed (rewritten_by rules (file_in tree.now))) }
    ensures edits { IfOk result (λ u. u.edits ≡ length (edits_by rules (file_in tree.now))) }
    ensures reports { IfOk result (λ u. IsPermutation (reports_by rules (file_in tree.now)) (map found_of u.reports.items)) }
    ensures ordered { IfOk result (λ u. IsNonDecreasingBy order_of u.reports.items) }
{
    let walk = walk_file(alloc, tree, rules)?;
    let (bytes, edits) = walk.writer.finish();
    let undecided = join(walk.found, walk.labels.finish())?;
    let reports = in_order(join(undecided, walk.off.finish())?)?;
    Ok(Upgrade {
        bytes,
        edits,
        reports,
    })
}

// The walk over the statements of a file, and the token at its end.
fn walk_file(alloc: Global, tree: &RowTree, rules: Rules) -> Result<Walk, AllocError>
    requires quotable { AreQuotable (file_in tree.now).statements }
    ensures written { IfOk result (λ w. w.writer.recorded ≡ file_next rules (file_in tree.now)) }
    ensures found { IfOk result (λ w. map found_of w.found.items
        ≡ reports_in Block at_first zero 0 (file_in tree.now).statements) }
    ensures labels { IfOk result (λ w. w.labels.found ≡ enums End 0 (file_leaves (file_in tree.now))) }
    ensures off { IfOk result (λ w. w.off.found ≡ off_reports rules (file_in tree.now)) }
{
    let mut walk = Walk {
        writer: Writer::new(alloc),
        found: Vec::new(alloc),
        labels: Labels::new(alloc),
        off: OffPlaces::new(alloc),
        loud: Loud::none(),
    };
    let top = Home {
        outer: None,
        operator: &[],
    };
    let progress = Progress::Names {
        braces: false,
        inner: 0,
    };
    let last = word_at(tree.bytes(), tree.end());
    let place = walk_parts(&mut walk, rules, top, progress, tree.statements(), 0)?;
    end_token(&mut walk.writer, rules, last)?;
    walk.labels.step(place, last)?;
    walk.off.trivia(rules, place, last)?;
    Ok(walk)
}
