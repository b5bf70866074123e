// The first cycle of classes.
ghost use Rattle.std.specs.Prelude.{◌≡◌, ◌<◌, [], map, length, slice_index_or, IfOk};
ghost use Rattle.std.specs.List.{All};
ghost use Rattle.program_names.specs.Files.{Files};
ghost use Rattle.program_names.specs.Table.{table_of};
ghost use Rattle.program_names.specs.Told.{all_told};
ghost use Rattle.class_cycles.specs.Cycles.{IsCycleAnswer};
ghost use Rattle.class_cycles.specs.Names.{AreOnce, linked};

use crate::circuit::first_circuit;
use crate::linked::{linked_names, linked_places};
use crate::once::once;
use file_declarations::Told;
use span_edits::Bytes;
use std::alloc::{AllocError, Global};

// How many names there are; want of memory stands for 2^32.
fn count_of(names: &[Bytes]) -> Result<u32, AllocError>
    ensures { IfOk result (λ n. n ≡ length names.now) }
{
    if names.len() > u32::MAX as usize {
        return Err(AllocError);
    }
    Ok(names.len() as u32)
}

// The names at some places.
fn named(alloc: Global, names: &[Bytes], places: &[u32]) -> Result<Vec<Bytes>, AllocError>
    requires { All (λ i. i < length names.now) places.now }
    ensures { IfOk result (λ v. v.items ≡ map (λ i. slice_index_or names.now i []) places.now) }
{
    let mut all = Vec::new(alloc);
    for place in places {
        all.push(names[*place as usize].copy(alloc)?)?;
    }
    Ok(all)
}

// The first cycle of classes, by the names that extend others or are extended.
fn first_among(
    alloc: Global,
    told: &[Told],
    names: &[Bytes],
) -> Result<Option<Vec<Bytes>>, AllocError>
    requires { AreOnce (linked told.now) names.now }
    ensures { (files : Files) → told.now ≡ all_told (table_of files)
        → IfOk result (λ o. IsCycleAnswer (table_of files) o) }
{
    let count = count_of(names)?;
    let pairs = linked_places(alloc, told, names)?;
    match first_circuit(alloc, count, pairs.as_slice())? {
        None => Ok(None),
        Some(circuit) => Ok(Some(named(alloc, names, circuit.as_slice())?)),
    }
}

/// The first cycle of classes that extend one another, in the order of dictionaries; none exactly where there is none
/// (PHP manual, "Object Inheritance"). A cycle has no name twice and is written from its least name on, names being
/// compared in the order of bytes. What the files tell is given in the order of files. The only error is want of memory,
/// and stands too for 2^32 names and 2^64 steps.
pub fn first_cycle(alloc: Global, told: &[Told]) -> Result<Option<Vec<Bytes>>, AllocError>
    ensures { (files : Files) → told.now ≡ all_told (table_of files)
        → IfOk result (λ o. IsCycleAnswer (table_of files) o) }
{
    let names = once(alloc, &mut linked_names(alloc, told)?)?;
    first_among(alloc, told, names.as_slice())
}
