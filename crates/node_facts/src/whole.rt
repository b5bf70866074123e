// What the nodes of a whole file tell.
ghost use Rattle.std.specs.Prelude.{◌≡◌, map, IfOk};
ghost use Rattle.php_rows.specs.File.{file_in};
ghost use Rattle.node_names.specs.Slots.{in_file};
ghost use Rattle.node_facts.specs.Flat.{facts_in, slots_listed, slots_named};
ghost use Rattle.node_facts.specs.Named.{file_named, named};
ghost use Rattle.node_facts.specs.Seen.{slot_in, slots_in};

use crate::counts::Counts;
use crate::facts::FileFacts;
use crate::spot::Spot;
use crate::walk::walk_parts;
use php_rows::RowTree;
use span_edits::PathText;
use std::alloc::{AllocError, Global};

// What the nodes of a file tell, where its first statement stands.
fn walked(alloc: Global, path: &[u8], tree: &RowTree) -> Result<FileFacts, AllocError>
    ensures told { IfOk result (λ x. facts_in path.now x ≡ named (in_file path.now) (file_in tree.now).statements) }
    ensures slots { IfOk result (λ x. map (slot_in path.now) x.slots.items ≡ slots_named (facts_in path.now x)) }
    ensures listed { IfOk result (λ x. map (slots_in path.now) x.listed.items ≡ slots_listed (facts_in path.now x)) }
{
    let mut facts = FileFacts {
        nodes: Vec::new(alloc),
        declares: Vec::new(alloc),
        uses: Vec::new(alloc),
        slots: Vec::new(alloc),
        listed: Vec::new(alloc),
    };
    let mut imports = Vec::new(alloc);
    let mut counts = Counts { number: 0, next: 0 };
    let spot = Spot {
        path,
        space: &[],
        from: 0,
        body: None,
        class: None,
        parent: None,
        members: None,
        closure: None,
    };
    walk_parts(
        alloc,
        &mut facts,
        &mut imports,
        &mut counts,
        spot,
        tree.statements(),
    )?;
    Ok(facts)
}

/// What the nodes of the file with a path tell of names, in preorder. The lists of slots hold those of the nodes and no others.
/// The only error is want of memory, of which 2^32 items of one list are one.
#[tactic(auto, using(crate::proofs::FactLemmas::named_file))]
pub fn file_facts(alloc: Global, path: &PathText, tree: &RowTree) -> Result<FileFacts, AllocError>
    ensures told { IfOk result (λ x. facts_in path.now x ≡ file_named path.now (file_in tree.now).statements) }
    ensures slots { IfOk result (λ x. map (slot_in path.now) x.slots.items ≡ slots_named (facts_in path.now x)) }
    ensures listed { IfOk result (λ x. map (slots_in path.now) x.listed.items ≡ slots_listed (facts_in path.now x)) }
{
    walked(alloc, path.as_str().as_bytes(), tree)
}
