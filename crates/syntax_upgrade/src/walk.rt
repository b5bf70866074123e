// One walk over the nodes of a file, from its front: what is written, and what is reported.
ghost use Rattle.std.specs.Prelude.{◌≡◌, ◌++◌, Some, None, true, zero, map, IfOk, OnOk};
ghost use Rattle.php_tree.specs.Tree.{alone};
ghost use Rattle.php_tree.specs.Places.{end_of};
ghost use Rattle.php_rows.specs.Reading.{bytes_of, forest_in};
ghost use Rattle.syntax_upgrade.specs.Found.{found_of};
ghost use Rattle.syntax_rules.specs.InContext.{around_of};
ghost use Rattle.syntax_upgrade.specs.CalmRuns.{Stays};
ghost use Rattle.syntax_upgrade.specs.Labels.{labels_in};
ghost use Rattle.syntax_upgrade.specs.Laws.{own_next};
ghost use Rattle.syntax_upgrade.specs.NamesWalked.{child_next};
ghost use Rattle.syntax_upgrade.specs.OffPlaces.{child_off, inside_off, off_in};
ghost use Rattle.syntax_upgrade.specs.Progress.{left_walked};
ghost use Rattle.syntax_rules.specs.Quotable.{AreQuotable};
ghost use Rattle.syntax_upgrade.specs.Reports.{at_node, reports_in};
ghost use Rattle.syntax_upgrade.specs.ReservedName.{at_first as standing_first};
ghost use Rattle.syntax_upgrade.specs.UnsetCast.{unset_in};
ghost use Rattle.syntax_upgrade.specs.Walk.{around_home, kind_of};
ghost use Rattle.syntax_upgrade.specs.Words.{both_seen, seen};

use crate::calm::{Calm, Loud, calm_in, text_in};
use crate::dot_precedence::operator_of;
use crate::found::Found;
use crate::labels::Labels;
use crate::next::{Part, next, others};
use crate::node_rules::add_at_node;
use crate::off_places::OffPlaces;
use crate::past::{past_bytes, past_token};
use crate::progress::{Progress, behind_node, leaf, start};
use crate::reserved_name::{WordSpot, at_front, behind_inner, word};
use crate::rounds::{Around, close_round, open_round};
use crate::unset_cast::{null, unset_tokens};
use crate::word::Word;
use crate::writer::Writer;
use php_rows::Parts;
use php_tree::NodeKind;
use std::alloc::AllocError;
use syntax_rules::Rules;

/// What a walk wrote and found, of rules that are off too, and what it met last that a rule may touch.
#[derive(Drop)]
pub(crate) struct Walk {
    pub(crate) writer: Writer,
    pub(crate) found: Vec<Found>,
    pub(crate) labels: Labels,
    pub(crate) off: OffPlaces,
    pub(crate) loud: Loud,
}

/// The node whose parts are walked, if any, and its operator.
#[derive(Clone, Copy)]
pub(crate) struct Home<'a> {
    pub(crate) outer: Option<NodeKind>,
    pub(crate) operator: &'a [u8],
}

// The kind of node by which words are refused: the statements of a file stand as in a block.
fn kind_in(outer: Option<NodeKind>) -> NodeKind
    ensures { result ≡ kind_of outer }
{
    match outer {
        Some(kind) => kind,
        None => NodeKind::Block,
    }
}

/// The parts of a node that begins at a place, by the node's rule. Answers where they end.
#[cycle(walk)]
pub(crate) fn walk_parts(
    walk: &mut Walk,
    rules: Rules,
    home: Home,
    progress: Progress,
    parts: Parts,
    at: u32,
) -> Result<u32, AllocError>
    requires quotable { AreQuotable (forest_in parts) }
    ensures written { OnOk result (walk.new.writer
        ≡ left_walked rules progress (around_home home.entry.outer home.entry.operator.now) true (forest_in parts.entry) walk.old.writer) }
    ensures found { OnOk result (map found_of walk.new.found.items ≡ map found_of walk.old.found.items
        ++ reports_in (kind_of home.entry.outer) standing_first zero at (forest_in parts.entry)) }
    ensures labels { OnOk result (walk.new.labels ≡ labels_in at (forest_in parts.entry) walk.old.labels) }
    ensures off { OnOk result (walk.new.off
        ≡ off_in rules (around_home home.entry.outer home.entry.operator.now) true zero at (forest_in parts.entry) walk.old.off) }
    ensures end { IfOk result (λ e. e ≡ end_of at (forest_in parts.entry)) }
{
    let kind = kind_in(home.outer);
    let mut left = parts;
    let mut written = progress;
    let mut spot = at_front(at);
    let mut inner_tokens = 0;
    let mut is_first = true;
    'parts: loop {
        let here = left;
        match next(&mut left) {
            None => return Ok(spot.place),
            Some(Part::Leaf(token)) => {
                written = leaf(&mut walk.writer, rules, written, token, here, left)?;
                walk.labels.step(spot.place, token)?;
                inner_tokens = walk
                    .off
                    .token(rules, inner_tokens, spot.place, token, here, left)?;
                spot = word(kind, spot, token, here, left, &mut walk.found)?;
                is_first = false;
            }
            Some(Part::Node(inner, inside)) => {
                let around = Around {
                    outer: home.outer,
                    operator: home.operator,
                    is_first,
                };
                let end = walk_child(walk, rules, around, inner, inside, spot.place)?;
                written = behind_node(written);
                spot = behind_inner(spot, end);
                inner_tokens = 0;
                is_first = false;
            }
        }
    }
}

// A node in the one around it, with what is put round it.
#[cycle(walk)]
fn walk_child(
    walk: &mut Walk,
    rules: Rules,
    around: Around,
    kind: NodeKind,
    parts: Parts,
    at: u32,
) -> Result<u32, AllocError>
    requires quotable { AreQuotable (alone (kind, forest_in parts)) }
    ensures written { OnOk result (walk.new.writer ≡ child_next rules
        (around_of around.entry.outer around.entry.operator.now around.entry.is_first) (kind, forest_in parts.entry) walk.old.writer) }
    ensures found { OnOk result (map found_of walk.new.found.items ≡ map found_of walk.old.found.items
        ++ (reports_in kind standing_first zero at (forest_in parts.entry) ++ at_node at (kind, forest_in parts.entry))) }
    ensures labels { OnOk result (walk.new.labels ≡ labels_in at (forest_in parts.entry) walk.old.labels) }
    ensures off { OnOk result (walk.new.off ≡ child_off rules
        (around_of around.entry.outer around.entry.operator.now around.entry.is_first) at (kind, forest_in parts.entry) walk.old.off) }
    ensures end { IfOk result (λ e. e ≡ end_of at (forest_in parts.entry)) }
{
    open_round(&mut walk.writer, rules, around, kind, parts)?;
    let end = walk_inside(walk, rules, kind, parts, at)?;
    close_round(&mut walk.writer, rules, around, kind, parts)?;
    walk.off.node(rules, around, kind, parts, at, end)?;
    add_at_node(kind, parts, at, end, &mut walk.found)?;
    Ok(end)
}

// A node without what is put round it. One that no rule touches is passed as a whole.
#[cycle(walk)]
fn walk_inside(
    walk: &mut Walk,
    rules: Rules,
    kind: NodeKind,
    parts: Parts,
    at: u32,
) -> Result<u32, AllocError>
    requires quotable { AreQuotable (alone (kind, forest_in parts)) }
    ensures written { OnOk result (walk.new.writer
        ≡ own_next rules (kind, forest_in parts.entry) walk.old.writer) }
    ensures found { OnOk result (map found_of walk.new.found.items ≡ map found_of walk.old.found.items
        ++ reports_in kind standing_first zero at (forest_in parts.entry)) }
    ensures labels { OnOk result (walk.new.labels ≡ labels_in at (forest_in parts.entry) walk.old.labels) }
    ensures off { OnOk result (walk.new.off ≡ inside_off rules at (kind, forest_in parts.entry) walk.old.off) }
    ensures end { IfOk result (λ e. e ≡ end_of at (forest_in parts.entry)) }
{
    if walk.writer.is_free() && walk.labels.is_free() {
        if let Some(calm) = calm_in(kind, parts, &mut walk.loud) {
            let end = pass(walk, rules, kind, parts, calm, at)?;
            return Ok(end);
        }
    }
    let end = walk_touched(walk, rules, kind, parts, at)?;
    Ok(end)
}

// A node that no rule touches.
fn pass(
    walk: &mut Walk,
    rules: Rules,
    kind: NodeKind,
    parts: Parts,
    calm: Calm,
    at: u32,
) -> Result<u32, AllocError>
    requires stays { Stays (bytes_of parts) (kind, forest_in parts) calm }
    requires closed { walk.old.writer.parens ≡ 0 }
    requires free { walk.old.labels.held ≡ None }
    ensures written { OnOk result (walk.new.writer
        ≡ own_next rules (kind, forest_in parts.entry) walk.old.writer) }
    ensures found { OnOk result (map found_of walk.new.found.items ≡ map found_of walk.old.found.items
        ++ reports_in kind standing_first zero at (forest_in parts.entry)) }
    ensures labels { OnOk result (walk.new.labels ≡ labels_in at (forest_in parts.entry) walk.old.labels) }
    ensures off { OnOk result (walk.new.off ≡ inside_off rules at (kind, forest_in parts.entry) walk.old.off) }
    ensures end { IfOk result (λ e. e ≡ end_of at (forest_in parts.entry)) }
{
    let text = text_in(kind, parts, calm);
    walk.writer.keep_all(text, calm.last.is_keyword)?;
    walk.labels.go_behind(calm.last.class);
    walk.off.behind_calm(rules, calm.last.is_keyword);
    let end = past_bytes(at, text)?;
    Ok(end)
}

// A node without what is put round it, part by part.
#[cycle(walk)]
fn walk_touched(
    walk: &mut Walk,
    rules: Rules,
    kind: NodeKind,
    parts: Parts,
    at: u32,
) -> Result<u32, AllocError>
    requires quotable { AreQuotable (alone (kind, forest_in parts)) }
    ensures written { OnOk result (walk.new.writer
        ≡ own_next rules (kind, forest_in parts.entry) walk.old.writer) }
    ensures found { OnOk result (map found_of walk.new.found.items ≡ map found_of walk.old.found.items
        ++ reports_in kind standing_first zero at (forest_in parts.entry)) }
    ensures labels { OnOk result (walk.new.labels ≡ labels_in at (forest_in parts.entry) walk.old.labels) }
    ensures off { OnOk result (walk.new.off ≡ inside_off rules at (kind, forest_in parts.entry) walk.old.off) }
    ensures end { IfOk result (λ e. e ≡ end_of at (forest_in parts.entry)) }
{
    if let Some((cast, variable)) = unset_tokens(rules, kind, parts) {
        let end = walk_unset(walk, rules, kind, parts, cast, variable, at)?;
        return Ok(end);
    }
    let home = Home {
        outer: Some(kind),
        operator: operator_of(parts),
    };
    let end = walk_parts(walk, rules, home, start(rules, kind, parts), parts, at)?;
    Ok(end)
}

// A cast `(unset)` of a plain variable, by its two tokens.
fn walk_unset(
    walk: &mut Walk,
    rules: Rules,
    kind: NodeKind,
    parts: Parts,
    cast: Word,
    variable: Word,
    at: u32,
) -> Result<u32, AllocError>
    requires unset { Some (both_seen (cast, variable)) ≡ unset_in rules (kind, forest_in parts) }
    requires quotable { AreQuotable (alone (kind, forest_in parts)) }
    ensures written { OnOk result (walk.new.writer
        ≡ own_next rules (kind, forest_in parts.entry) walk.old.writer) }
    ensures found { OnOk result (map found_of walk.new.found.items ≡ map found_of walk.old.found.items
        ++ reports_in kind standing_first zero at (forest_in parts.entry)) }
    ensures labels { OnOk result (walk.new.labels ≡ labels_in at (forest_in parts.entry) walk.old.labels) }
    ensures off { OnOk result (walk.new.off ≡ inside_off rules at (kind, forest_in parts.entry) walk.old.off) }
    ensures end { IfOk result (λ e. e ≡ end_of at (forest_in parts.entry)) }
{
    let _kind = kind;
    let _parts = parts;
    null(&mut walk.writer, rules, cast, variable)?;
    walk.labels.step(at, cast)?;
    walk.off.alone(rules, at, cast, others(parts))?;
    let behind = past_token(at, cast)?;
    walk.labels.step(behind, variable)?;
    let end = past_token(behind, variable)?;
    Ok(end)
}
