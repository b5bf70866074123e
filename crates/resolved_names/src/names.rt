// The names of a program, resolved.
use crate::class_kinds::is_class_like;
use crate::file_names::FileNames;
use crate::found_nodes::nodes_of;
use crate::names_fault::NamesFault;
use crate::ranges::{item, node_at};
use crate::resolve::{checked, resolved};
use indexmap::IndexMap;
use program_names::{NodeRef, Program, SlotId};
use span_edits::PathText;
use std::alloc::Global;

/// What the names of a program stand for. No read walks, and none takes memory.
#[derive(Drop)]
pub struct Names {
    pub(crate) index: IndexMap<Vec<u8>, Vec<NodeRef>>,
    pub(crate) files: Vec<FileNames>,
    pub(crate) slots: u32,
    pub(crate) entries: Vec<u32>,
    pub(crate) prepend: Option<u32>,
}

impl Names {
    ghost use Rattle.std.specs.Prelude.{◌≡◌, length, option_copied, IfOk, IfErr};
    ghost use Rattle.program_names.specs.Classes.{class_number as class_number_of};
    ghost use Rattle.program_names.specs.Entries.{paths_of};
    ghost use Rattle.program_names.specs.Table.{Table, table_of, declarations as declarations_of};
    ghost use Rattle.program_names.specs.Whole.{files_of};
    ghost use Rattle.resolved_names.specs.Reads.{AreNames, class_in, entries_of, listed_in, prepend_of, read_in, slot_in};
    ghost use Rattle.resolved_names.specs.Resolved.{IsNamesFault, IsResolved, IsUnrefused};
    ghost use Rattle.resolved_names.specs.SlotNumbers.{AreNumbers, IsNumber, listed_at as listed_there, slot_at as slot_there};

    /// What the names of a program stand for: the entries are all files, or those that are listed and then each file that
    /// none so far reaches by includes; `prepend` is the path of the file that runs before each entry.
    ///
    /// `NoFile` comes exactly where a listed entry or the prepended path is no path of the program: the first in the order
    /// of the list, the prepended one last. Then `Twice` comes exactly where one run begins with two declarations of one
    /// function, class or constant, the first pair in the order of paths and places; then `Cycle` exactly where classes
    /// extend one another in a cycle, the first one in the order of dictionaries. `Memory` is want of memory.
    pub fn resolve(
        alloc: Global,
        program: &Program,
        entries: Option<&[PathText]>,
        prepend: Option<&PathText>,
    ) -> Result<Names, NamesFault>
        ensures resolved { IfOk result (λ ns. IsResolved (paths_of (files_of program.now)) (table_of (files_of program.now)) (option_copied entries.entry) (option_copied prepend.entry) ns) }
        ensures refused { IfErr result (λ e. IsNamesFault (paths_of (files_of program.now)) (table_of (files_of program.now)) (option_copied entries.entry) (option_copied prepend.entry) e) }
    {
        resolved(alloc, program, entries, prepend)
    }

    /// The refusals of `resolve` alone, for those who need no names: it looks at no uses, and keeps nothing.
    pub fn check(
        alloc: Global,
        program: &Program,
        entries: Option<&[PathText]>,
        prepend: Option<&PathText>,
    ) -> Result<(), NamesFault>
        ensures unrefused { IfOk result (λ _. IsUnrefused (paths_of (files_of program.now)) (table_of (files_of program.now)) (option_copied entries.entry) (option_copied prepend.entry)) }
        ensures refused { IfErr result (λ e. IsNamesFault (paths_of (files_of program.now)) (table_of (files_of program.now)) (option_copied entries.entry) (option_copied prepend.entry) e) }
    {
        checked(alloc, program, entries, prepend)
    }

    // What the name of a node with a number was found to stand for.
    fn read(&self, use_at: NodeRef, n: u32) -> &[NodeRef]
        ensures { result.now ≡ read_in self.now.index.entries self.now.files.items use_at n }
    {
        let Some(file) = self.files.get(use_at.file as usize) else {
            return &[];
        };
        let Some((from, node)) = node_at(file.nodes.as_slice(), use_at.node as usize) else {
            return &[];
        };
        let Some(found) = item(file.uses.as_slice(), from.uses, node.ends.uses, n) else {
            return &[];
        };
        nodes_of(&self.index, found)
    }

    /// The nodes that declare name n, from 0 in the order of the source, that a node uses as the name of a function, class,
    /// interface, constant, method, class constant or property; a member's name stands for all members of that kind and
    /// name. None where the node uses no such name.
    pub fn declarations(&self, use_at: NodeRef, n: u32) -> &[NodeRef]
        ensures { (t : Table) → AreNames self.now t → result.now ≡ declarations_of t use_at n }
    {
        self.read(use_at, n)
    }

    // The number of the class that a node declares.
    fn class_at(&self, at: NodeRef) -> Option<u32>
        ensures { result ≡ class_in self.now.files.items at }
    {
        let Some(file) = self.files.get(at.file as usize) else {
            return None;
        };
        let Some((from, node)) = node_at(file.nodes.as_slice(), at.node as usize) else {
            return None;
        };
        if !is_class_like(node.kind) {
            return None;
        }
        match item(
            file.classes.as_slice(),
            from.declares,
            node.ends.declares,
            0,
        ) {
            None => None,
            Some(number) => *number,
        }
    }

    /// The number of the class or interface that a node declares: 0 for `stdClass`, 1 to 10 for the exception classes, and
    /// from 11 on for the others that are declared, in the order of the bytes of their names. None exactly where the node
    /// declares neither.
    pub fn class_number(&self, at: NodeRef) -> Option<u32>
        ensures { (t : Table) → (a : AreNames self.now t) → result ≡ class_number_of t a.others at }
    {
        self.class_at(at)
    }

    // The number of the slot that a node names.
    fn slot_at(&self, at: NodeRef) -> Option<SlotId>
        ensures { result ≡ slot_in self.now.files.items at }
    {
        let Some(file) = self.files.get(at.file as usize) else {
            return None;
        };
        let Some((from, node)) = node_at(file.nodes.as_slice(), at.node as usize) else {
            return None;
        };
        match item(file.slots.as_slice(), from.slots, node.ends.slots, 0) {
            None => None,
            Some(slot) => Some(*slot),
        }
    }

    /// The number of the slot that a node names. None exactly where the node is no variable, property, static property or
    /// parameter with a literal name.
    pub fn slot(&self, at: NodeRef) -> Option<SlotId>
        ensures { (t : Table) → (a : AreNames self.now t) → IsNumber a.slots (slot_there t at) result }
    {
        self.slot_at(at)
    }

    // The numbers of the slots that a node lists at a place.
    fn listed_pair(&self, at: NodeRef, n: u32) -> Option<(SlotId, SlotId)>
        ensures { result ≡ listed_in self.now.files.items at n }
    {
        let Some(file) = self.files.get(at.file as usize) else {
            return None;
        };
        let Some((from, node)) = node_at(file.nodes.as_slice(), at.node as usize) else {
            return None;
        };
        match item(file.listed.as_slice(), from.listed, node.ends.listed, n) {
            None => None,
            Some(pair) => Some(*pair),
        }
    }

    /// The numbers of variable n, from 0 in the order of the source, that a `global`, a `static`, a property declaration or
    /// the catch parts of a `try` list by a literal name: of a `global` or `static` the variable of the body, and the one to
    /// which it is linked there; of the others the same twice. None exactly where there is no such variable.
    pub fn listed(&self, at: NodeRef, n: u32) -> Option<(SlotId, SlotId)>
        ensures { (t : Table) → (a : AreNames self.now t) → AreNumbers a.slots (listed_there t at n) result }
    {
        self.listed_pair(at, n)
    }

    /// How many slots the nodes of the program name or list; their numbers are those below.
    pub fn slots(&self) -> u32
        ensures { (t : Table) → (a : AreNames self.now t) → result ≡ length a.slots }
    {
        self.slots
    }

    /// The entries by number, in their order.
    pub fn entries(&self) -> &[u32]
        ensures { result.now ≡ entries_of self.now }
    {
        self.entries.as_slice()
    }

    /// The number of the file that runs before each entry; none exactly where none was given.
    pub fn prepend(&self) -> Option<u32>
        ensures { result ≡ prepend_of self.now }
    {
        self.prepend
    }
}
