// The classes that are declared, and their numbers.
ghost use Rattle.std.specs.Prelude.{◌≡◌, ◌<◌, ◌+◌, ◌^◌, ◌++◌, length, option_map, IfOk, OnOk};
ghost use Rattle.node_names.specs.Seen.{texts_of};
ghost use Rattle.program_names.specs.Classes.{AreAscending, AreOthers, number_of};
ghost use Rattle.program_names.specs.Table.{Table};
ghost use Rattle.program_names.specs.Told.{all_told};
ghost use Rattle.class_cycles.specs.Others as spec;

use crate::known::known_number;
use crate::once::once;
use crate::place::place;
use file_declarations::{Declaration, Told};
use node_names::{Name, NameSort};
use span_edits::Bytes;
use std::alloc::{AllocError, Global};

// How many classes every program knows.
const KNOWN: u32 = 11;

fn is_class(sort: NameSort) -> bool
    ensures { result ≡ spec.is_class sort }
{
    match sort {
        NameSort::Class => true,
        NameSort::Function
        | NameSort::Constant
        | NameSort::Method
        | NameSort::ClassConstant
        | NameSort::Property => false,
    }
}

// Whether a name is that of a class which not every program knows.
fn is_other(name: &Name) -> bool
    ensures { result ≡ spec.is_other name.now }
{
    is_class(name.sort) && known_number(name.text.as_slice()).is_none()
}

// The name of a declared class, unless every program knows it.
fn add_other<'a>(names: &mut Vec<&'a [u8]>, declaration: &'a Declaration) -> Result<(), AllocError>
    ensures { OnOk result (texts_of names.new.items ≡ texts_of names.old.items ++ spec.other_if declaration.now.name) }
{
    if is_other(&declaration.name) {
        names.push(declaration.name.text.as_slice())?;
    }
    Ok(())
}

// The names of the declared classes, but for those that every program knows.
fn other_names<'a>(alloc: Global, told: &'a [Told]) -> Result<Vec<&'a [u8]>, AllocError>
    ensures { IfOk result (λ v. texts_of v.items ≡ spec.others_in told.now) }
{
    let mut names = Vec::new(alloc);
    for one in told {
        if let Told::Declares(declaration) = one {
            add_other(&mut names, declaration)?;
        }
    }
    Ok(names)
}

/// The names of the classes and interfaces that are declared, but for those that every program knows, each once, in
/// the order of bytes. What the files tell is given in the order of files. The only error is want of memory, and stands
/// too for so many names that the number of one doesn't fit 32 bits.
pub fn other_classes(alloc: Global, told: &[Told]) -> Result<Vec<Bytes>, AllocError>
    ensures others { (t : Table) → told.now ≡ all_told t → IfOk result (λ v. AreOthers t v.items) }
    ensures few { IfOk result (λ v. length v.items + 11 < 2 ^ 32) }
{
    let others = once(alloc, &mut other_names(alloc, told)?)?;
    if others.len() > (u32::MAX - KNOWN) as usize {
        return Err(AllocError);
    }
    Ok(others)
}

/// The number of a class by its name, as names are compared: those that every program knows come first, and then the
/// others. None exactly where the class is neither.
pub fn class_number(others: &[Bytes], class: &[u8]) -> Option<u32>
    requires ascending { AreAscending others.now }
    requires few { length others.now + 11 < 2 ^ 32 }
    ensures { result ≡ number_of others.now class.now }
{
    match known_number(class) {
        Some(number) => Some(number),
        None => match place(others, class) {
            Some(place) => Some(KNOWN + place as u32),
            None => None,
        },
    }
}
