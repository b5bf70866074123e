// What the names of all files stand for.
ghost use Rattle.std.specs.Prelude.{◌<◌, ◌+◌, ◌^◌, length, IfOk, OnOk};
ghost use Rattle.php_rows.specs.File.{file_in};
ghost use Rattle.node_names.specs.Facts.{file_facts as facts_of};
ghost use Rattle.program_names.specs.Classes.{AreAscending};
ghost use Rattle.program_names.specs.Table.{table_of};
ghost use Rattle.program_names.specs.Whole.{files_of};
ghost use Rattle.slot_numbers.specs.Growing.{Keeps};
ghost use Rattle.slot_numbers.specs.Numbered.{keys_of};
ghost use Rattle.resolved_names.specs.Index.{IsIndex, declared_in};
ghost use Rattle.resolved_names.specs.NodeReads.{AreFiles, IsFile};
ghost use Rattle.resolved_names.specs.SlotReads.{AreSlotFiles, HasOnlyOf, IsSlotFile};

use crate::all_files::AllFiles;
use crate::file_names::FileNames;
use crate::node_uses::{class_numbers, uses_found};
use indexmap::IndexMap;
use node_facts::file_facts;
use php_rows::RowTree;
use program_names::{NodeRef, Program, Told};
use slot_numbers::{SlotNumbers, listed_numbers, slot_numbers};
use span_edits::{Bytes, PathText};
use std::alloc::{AllocError, Global};

// What the names of a file with a number stand for.
fn tree_names(
    alloc: Global,
    index: &IndexMap<Vec<u8>, Vec<NodeRef>>,
    told: &[Told],
    others: &[Bytes],
    numbers: &mut SlotNumbers,
    number: u32,
    file: &(PathText, RowTree),
) -> Result<FileNames, AllocError>
    requires index { IsIndex index.now.entries (declared_in told.now) }
    requires ascending { AreAscending others.now }
    requires few { length others.now + 11 < 2 ^ 32 }
    ensures names { IfOk result (λ v. IsFile index.now.entries (declared_in told.now) others.now v (facts_of file.now.0 (file_in file.now.1).statements)) }
    ensures slots { IfOk result (λ v. IsSlotFile (keys_of numbers.new) number file.now.0 v (facts_of file.now.0 (file_in file.now.1).statements)) }
    ensures keeps { OnOk result (Keeps (keys_of numbers.old) (keys_of numbers.new)) }
    ensures only { OnOk result (HasOnlyOf number file.now.0 (facts_of file.now.0 (file_in file.now.1).statements) (keys_of numbers.old) (keys_of numbers.new)) }
{
    let facts = file_facts(alloc, &file.0, &file.1)?;
    let uses = uses_found(alloc, index, told, facts.uses.as_slice())?;
    let classes = class_numbers(alloc, others, facts.declares.as_slice())?;
    let slots = slot_numbers(alloc, numbers, number, facts.slots)?;
    let listed = listed_numbers(alloc, numbers, number, facts.listed)?;
    Ok(FileNames {
        nodes: facts.nodes,
        uses,
        classes,
        slots,
        listed,
    })
}

/// What the names of each file stand for. The only error is want of memory, of which 2^32 slots are one.
pub(crate) fn all_names(
    alloc: Global,
    program: &Program,
    index: &IndexMap<Vec<u8>, Vec<NodeRef>>,
    told: &[Told],
    others: &[Bytes],
) -> Result<AllFiles, AllocError>
    requires index { IsIndex index.now.entries (declared_in told.now) }
    requires ascending { AreAscending others.now }
    requires few { length others.now + 11 < 2 ^ 32 }
    ensures names { IfOk result (λ all. AreFiles index.now.entries (declared_in told.now) others.now all.files.items (table_of (files_of program.now))) }
    ensures slots { IfOk result (λ all. AreSlotFiles (files_of program.now) all.files.items all.slots) }
{
    let mut files = Vec::new(alloc);
    let mut numbers = SlotNumbers::new(alloc);
    for (number, file) in program.files().iter().enumerate() {
        let names = tree_names(
            alloc,
            index,
            told,
            others,
            &mut numbers,
            number as u32,
            file,
        )?;
        files.push(names)?;
    }
    let slots = numbers.count()?;
    Ok(AllFiles { files, slots })
}
