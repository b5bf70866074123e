// Includes by the numbers of files.
ghost use Rattle.std.specs.Prelude.{◌≡◌, ◌↔◌, ℕ, Some, IfOk};
ghost use Rattle.graph_search.specs.Graph.{graph_of, pair};
ghost use Rattle.program_names.specs.Entries.{paths_of};
ghost use Rattle.program_names.specs.Table.{Includes, table_of};
ghost use Rattle.program_names.specs.Told.{all_told};
ghost use Rattle.program_names.specs.Whole.{files_of};
ghost use Rattle.declared_twice.specs.Includes.{ArePairs, IsAsked, IsIncludeGraph};

use graph_search::edges;
use program_names::{Program, Told};
use std::alloc::{AllocError, Global};

// The file that a node includes, behind the node's own.
fn include_of(program: &Program, told: &Told) -> Option<(u32, u32)>
    ensures { (a b : ℕ) → (result ≡ Some (pair a b)) ↔ (IsAsked (paths_of (files_of program.now)) told.now a b) }
{
    let Told::Includes(from, path) = told else {
        return None;
    };
    let to = program.number_of(path.as_slice())?;
    Some((*from, to))
}

// The pairs of files of which the first includes the second.
pub(crate) fn include_pairs(
    alloc: Global,
    program: &Program,
    told: &[Told],
) -> Result<Vec<(u32, u32)>, AllocError>
    requires { told.now ≡ all_told (table_of (files_of program.now)) }
    ensures { IfOk result (λ ps. ArePairs ps.items
        (Includes (paths_of (files_of program.now)) (table_of (files_of program.now)))) }
{
    let mut pairs = Vec::new(alloc);
    for one in told {
        let included = match include_of(program, one) {
            Some(included) => included,
            None => continue,
        };
        pairs.push(included)?;
    }
    Ok(pairs)
}

/// The graph of what each file includes.
pub(crate) fn include_graph(
    alloc: Global,
    program: &Program,
    told: &[Told],
) -> Result<Vec<Vec<u32>>, AllocError>
    requires { told.now ≡ all_told (table_of (files_of program.now)) }
    ensures { IfOk result (λ g. IsIncludeGraph
        (paths_of (files_of program.now)) (table_of (files_of program.now)) (graph_of g.items)) }
{
    let pairs = include_pairs(alloc, program, told)?;
    let next = edges(alloc, program.file_count(), pairs.as_slice())?;
    Ok(next)
}
