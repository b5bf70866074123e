// One walk over the nodes of a file.
ghost use Rattle.std.specs.Prelude.{◌≡◌, ◌≤◌, ◌++◌, ◌∷◌, [], length, IfOk, OnOk};
ghost use Rattle.php_tree.specs.Tree.{alone};
ghost use Rattle.php_rows.specs.Reading.{forest_in};
ghost use Rattle.scope_names.specs.Form.{form as form_of_forest};
ghost use Rattle.scope_names.specs.Sites.{names_within};
ghost use Rattle.node_names.specs.Seen.{form_of};
ghost use Rattle.node_names.specs.Slots.{stands_within};
ghost use Rattle.node_facts.specs.Flat.{facts_in, IsWhole};
ghost use Rattle.node_facts.specs.Named.{named, named_at};
ghost use Rattle.node_facts.specs.Past.{entered as entered_by, past};
ghost use Rattle.node_facts.specs.Standing.{site_at, standing_at};
ghost use Rattle.node_facts.specs.Opened.{names_in};

use crate::counts::Counts;
use crate::fact::add_fact;
use crate::facts::FileFacts;
use crate::form_at::form_at;
use crate::inner::inner;
use crate::kinds::entered;
use crate::opened::{Opened, opens};
use crate::scene::scene_at;
use crate::spot::Spot;
use file_declarations::{Import, Standing, pass, space_of};
use php_rows::{Parts, Step};
use php_tree::NodeKind;
use std::alloc::{AllocError, Global};

// What a node itself tells, and what it opens.
fn visit(
    alloc: Global,
    facts: &mut FileFacts,
    imports: &[Import],
    spot: Spot,
    counts: Counts,
    kind: NodeKind,
    parts: Parts,
) -> Result<Opened, AllocError>
    requires within { spot.from ≤ length imports.now }
    requires whole { IsWhole facts.old }
    ensures told { OnOk result (facts_in spot.entry.path.now facts.new ≡ facts_in spot.entry.path.now facts.old
        ++ named_at kind (forest_in parts.entry) (standing_at spot.entry imports.now counts) ∷ []) }
    ensures whole { OnOk result (IsWhole facts.new) }
    ensures opened { IfOk result (λ o. names_in o (site_at spot.entry imports.now counts.number)
        ≡ names_within kind (form_of_forest (forest_in parts.entry)) (site_at spot.entry imports.now counts.number)) }
{
    let form = form_at(alloc, kind, parts)?;
    let scene = scene_at(spot, imports, counts);
    add_fact(alloc, facts, kind, scene, form.as_slice(), parts)?;
    let opened = opens(alloc, kind, scene, form.as_slice())?;
    Ok(opened)
}

/// The parts of a node, each after the one before it. The only error is want of memory.
#[cycle(walk)]
pub(crate) fn walk_parts(
    alloc: Global,
    facts: &mut FileFacts,
    imports: &mut Vec<Import>,
    counts: &mut Counts,
    spot: Spot,
    parts: Parts,
) -> Result<(), AllocError>
    requires within { spot.from ≤ length imports.old.items }
    requires whole { IsWhole facts.old }
    ensures told { OnOk result (facts_in spot.entry.path.now facts.new ≡ facts_in spot.entry.path.now facts.old
        ++ named (standing_at spot.entry imports.old.items counts.old) (forest_in parts.entry)) }
    ensures whole { OnOk result (IsWhole facts.new) }
    ensures imports { OnOk result (imports.new.items ≡ imports.old.items) }
    ensures counts { OnOk result (counts.new ≡ past (forest_in parts.entry) counts.old) }
{
    let count = imports.len();
    let mut left = parts;
    let mut standing = Standing {
        own: None,
        from: spot.from,
    };
    'parts: loop {
        match left.next() {
            None => {
                imports.truncate(count);
                return Ok(());
            }
            Some(Step::Leaf(_)) => {}
            Some(Step::Child(kind, _, inside)) => {
                let here = Spot {
                    space: space_of(&standing.own, spot.space),
                    from: standing.from,
                    ..spot
                };
                walk_node(alloc, facts, imports, counts, here, kind, inside)?;
                standing = pass(alloc, imports, kind, inside, standing)?;
            }
        }
    }
}

// A node, and those inside it.
#[cycle(walk)]
fn walk_node(
    alloc: Global,
    facts: &mut FileFacts,
    imports: &mut Vec<Import>,
    counts: &mut Counts,
    spot: Spot,
    kind: NodeKind,
    parts: Parts,
) -> Result<(), AllocError>
    requires within { spot.from ≤ length imports.old.items }
    requires whole { IsWhole facts.old }
    ensures told { OnOk result (facts_in spot.entry.path.now facts.new ≡ facts_in spot.entry.path.now facts.old
        ++ named (standing_at spot.entry imports.old.items counts.old) (alone (kind, forest_in parts.entry))) }
    ensures whole { OnOk result (IsWhole facts.new) }
    ensures imports { OnOk result (imports.new.items ≡ imports.old.items) }
    ensures counts { OnOk result (counts.new ≡ past (alone (kind, forest_in parts.entry)) counts.old) }
{
    let before = *counts;
    let opened = visit(alloc, facts, imports.as_slice(), spot, before, kind, parts)?;
    let within = inner(&opened, kind, imports.as_slice(), spot, before);
    let inside = entered(kind, before)?;
    *counts = inside;
    walk_parts(alloc, facts, imports, counts, within, parts)?;
    Ok(())
}
