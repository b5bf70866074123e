// The points of a program.
ghost use Rattle.std.specs.Prelude.{◌≡◌, ◌++◌, ◌∷◌, [], IfOk, OnOk, option_map, option_to_list};

use crate::edge::Edge;
use crate::file_edges::edges_of;
use crate::numbers::{NodePoints, add_edges, numbers_of};
use php_rows::RowTree;
use program_names::{NodeRef, Program};
use std::alloc::{AllocError, Global};

/// The points of a program, before and behind each expression and statement of its files, and the edges between them.
/// Points are numbered over the whole program.
#[derive(Drop)]
pub struct Points {
    numbers: Vec<Vec<Option<NodePoints>>>,
    edges: Vec<Edge>,
    count: u32,
}

impl Points {
    ghost use Rattle.program_names.specs.Whole.{files_of};
    ghost use Rattle.program_points.specs.Numbers as spec;
    ghost use Rattle.program_points.specs.Seen.{ArePoints, lists_of, points_in, tree_at};

    /// The points and edges of a program. The only error is want of memory.
    #[tactic(auto, using(crate::proofs::NumberLemmas::done_first, crate::proofs::NumberLemmas::done_step, crate::proofs::NumberLemmas::done_last))]
    pub fn of(alloc: Global, program: &Program) -> Result<Points, AllocError>
        ensures { IfOk result (λ p. ArePoints p (files_of program.now)) }
    {
        let mut points = Points {
            numbers: Vec::new(alloc),
            edges: Vec::new(alloc),
            count: 0,
        };
        for file in 0..program.file_count() {
            points.add_at(alloc, file, program)?;
        }
        Ok(points)
    }

    // The points and edges of the file with a number, behind those of others.
    #[tactic(auto, using(crate::proofs::NumberLemmas::lists_push, crate::proofs::NumberLemmas::edges_one))]
    fn add_file(&mut self, alloc: Global, file: u32, tree: &RowTree) -> Result<(), AllocError>
        ensures count { OnOk result (self.new.count ≡ spec.behind_files self.old.count (tree.now ∷ [])) }
        ensures numbers { OnOk result (lists_of self.new.numbers.items ≡ lists_of self.old.numbers.items
            ++ spec.file_numbers self.old.count (tree.now ∷ [])) }
        ensures edges { OnOk result (self.new.edges.items ≡ self.old.edges.items
            ++ spec.edges_from file self.old.count (tree.now ∷ [])) }
    {
        let (numbers, behind) = numbers_of(alloc, tree, self.count)?;
        let own = edges_of(alloc, tree)?;
        add_edges(&mut self.edges, file, numbers.as_slice(), own.as_slice())?;
        self.numbers.push(numbers)?;
        self.count = behind;
        Ok(())
    }

    // The same of a program's file, if there is one with that number.
    fn add_at(&mut self, alloc: Global, file: u32, program: &Program) -> Result<(), AllocError>
        ensures count { OnOk result (self.new.count
            ≡ spec.behind_files self.old.count (option_to_list (tree_at program.now file))) }
        ensures numbers { OnOk result (lists_of self.new.numbers.items ≡ lists_of self.old.numbers.items
            ++ spec.file_numbers self.old.count (option_to_list (tree_at program.now file))) }
        ensures edges { OnOk result (self.new.edges.items ≡ self.old.edges.items
            ++ spec.edges_from file self.old.count (option_to_list (tree_at program.now file))) }
    {
        match program.tree(file) {
            None => Ok(()),
            Some(tree) => {
                self.add_file(alloc, file, tree)?;
                Ok(())
            }
        }
    }

    /// How many points there are: they are numbered from 0.
    pub fn count(&self) -> u32
        ensures { result ≡ self.now.count }
    {
        self.count
    }

    /// The edges of the program, file by file, in each in the order of evaluation.
    pub fn edges(&self) -> &[Edge]
        ensures { result.now ≡ self.now.edges.items }
    {
        self.edges.as_slice()
    }

    // The points of a node.
    fn points(&self, at: NodeRef) -> Option<NodePoints>
        ensures { result ≡ points_in self.now at }
    {
        match self.numbers.get(at.file as usize) {
            None => None,
            Some(numbers) => match numbers.get(at.node as usize) {
                None => None,
                Some(points) => *points,
            },
        }
    }

    /// The point before a node; none exactly where the node is no expression and no statement.
    pub fn before(&self, at: NodeRef) -> Option<u32>
        ensures { result ≡ option_map (λ p. p.before) (points_in self.now at) }
    {
        match self.points(at) {
            None => None,
            Some(points) => Some(points.before),
        }
    }

    /// The point behind a node; none exactly where the node is no expression and no statement.
    pub fn after(&self, at: NodeRef) -> Option<u32>
        ensures { result ≡ option_map (λ p. p.after) (points_in self.now at) }
    {
        match self.points(at) {
            None => None,
            Some(points) => Some(points.after),
        }
    }
}
