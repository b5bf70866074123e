// What the files of a program tell.
ghost use Rattle.std.specs.Prelude.{◌≡◌, ◌++◌, zero, IfOk, OnOk};
ghost use Rattle.php_rows.specs.File.{file_in};
ghost use Rattle.node_names.specs.Facts.{file_facts};
ghost use Rattle.file_declarations.specs.FactsTold.{facts_told};
ghost use Rattle.program_names.specs.Table.{table_of};
ghost use Rattle.program_names.specs.Told.{all_told};
ghost use Rattle.program_names.specs.Whole.{files_of};

use crate::program::Program;
use file_declarations::{Told, file_told};
use php_rows::RowTree;
use span_edits::PathText;
use std::alloc::{AllocError, Global};

// What the nodes of a file with a number tell, behind what is told already.
fn add_file(
    alloc: Global,
    told: &mut Vec<Told>,
    number: u32,
    file: &(PathText, RowTree),
) -> Result<(), AllocError>
    ensures { OnOk result (told.new.items
        ≡ told.old.items ++ facts_told number zero (file_facts file.now.0 (file_in file.now.1).statements)) }
{
    let mut own = file_told(alloc, &file.0, number, &file.1)?;
    told.append(&mut own)?;
    Ok(())
}

/// What the nodes of all files tell, in the order of paths and places. The only error is want of memory.
pub fn program_told(alloc: Global, program: &Program) -> Result<Vec<Told>, AllocError>
    ensures { IfOk result (λ ts. ts.items ≡ all_told (table_of (files_of program.now))) }
{
    let mut told = Vec::new(alloc);
    for (number, file) in program.files().iter().enumerate() {
        add_file(alloc, &mut told, number as u32, file)?;
    }
    Ok(told)
}
