// What one node tells.
ghost use Rattle.std.specs.Prelude.{◌≡◌, ◌++◌, ◌∷◌, [], map, IfOk, OnOk};
ghost use Rattle.php_rows.specs.Reading.{forest_in};
ghost use Rattle.node_names.specs.Declares.{declares};
ghost use Rattle.node_names.specs.Seen.{form_of};
ghost use Rattle.node_facts.specs.Dispatch.{named_by};
ghost use Rattle.node_facts.specs.Flat.{facts_in, IsWhole, lengths_of};
ghost use Rattle.node_facts.specs.Standing.{site_of, standing_of};

use crate::ends::Ends;
use crate::facts::FileFacts;
use crate::listed::add_listed;
use crate::node_fact::NodeFact;
use crate::scene::Scene;
use crate::slots::add_slot;
use crate::uses::add_uses;
use node_names::{Name, Piece, declared_names};
use php_rows::Parts;
use php_tree::NodeKind;
use std::alloc::{AllocError, Global};

// The names that a node declares, behind those of other nodes.
fn add_declared(
    alloc: Global,
    names: &mut Vec<Name>,
    kind: NodeKind,
    scene: Scene,
    form: &[Piece],
) -> Result<(), AllocError>
    ensures { OnOk result (names.new.items ≡ names.old.items ++ declares kind (form_of form.now) (site_of scene.entry)) }
{
    let mut own = declared_names(alloc, kind, form, scene.spot.space)?;
    names.append(&mut own)?;
    Ok(())
}

// A length of a list, where it is less than 2^32.
fn end(length: usize) -> Result<u32, AllocError>
    ensures { IfOk result (λ n. n ≡ length) }
{
    u32::try_from(length).map_err(|_| AllocError)
}

// How far the lists go.
fn ends(facts: &FileFacts) -> Result<Ends, AllocError>
    ensures { IfOk result (λ e. e ≡ lengths_of facts.now) }
{
    let declares = end(facts.declares.len())?;
    let uses = end(facts.uses.len())?;
    let slots = end(facts.slots.len())?;
    let listed = end(facts.listed.len())?;
    Ok(Ends {
        declares,
        uses,
        slots,
        listed,
    })
}

/// What a node of a form and of some parts tells, behind what other nodes do. The only error is want of memory, of which 2^32
/// items of one list are one.
pub(crate) fn add_fact(
    alloc: Global,
    facts: &mut FileFacts,
    kind: NodeKind,
    scene: Scene,
    form: &[Piece],
    parts: Parts,
) -> Result<(), AllocError>
    requires { IsWhole facts.old }
    ensures told { OnOk result (facts_in scene.entry.spot.path.now facts.new
        ≡ facts_in scene.entry.spot.path.now facts.old ++ named_by kind (form_of form.now) (forest_in parts.entry) (standing_of scene.entry) ∷ []) }
    ensures whole { OnOk result (IsWhole facts.new) }
{
    add_declared(alloc, &mut facts.declares, kind, scene, form)?;
    add_uses(alloc, &mut facts.uses, kind, scene, form)?;
    add_slot(alloc, &mut facts.slots, kind, scene, form)?;
    add_listed(alloc, &mut facts.listed, kind, scene, form, parts)?;
    let ends = ends(facts)?;
    facts.nodes.push(NodeFact { kind, ends })?;
    Ok(())
}
