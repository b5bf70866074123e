// Programs.
ghost use Rattle.std.specs.Prelude.{◌<◌, ◌^◌, IsTrue, length};
ghost use Rattle.program_names.specs.Files.{are_ascending, nodes_in, tokens_in};

use crate::places::place;
use php_rows::RowTree;
use span_edits::PathText;

/// A program: its files by their paths, in the order of the paths' bytes, as they were handed in.
#[derive(Drop)]
pub struct Program {
    files: Vec<(PathText, RowTree)>,
    ghost ascending: { IsTrue (are_ascending files.items) },
    ghost few_files: { length files.items < 2 ^ 32 },
    ghost few_nodes: { nodes_in files.items < 2 ^ 31 },
    ghost few_tokens: { tokens_in files.items < 2 ^ 30 },
}

impl Program {
    ghost use Rattle.std.specs.Prelude.{◌≡◌, ◌↔◌, ℕ, Some, option_map, option_copied, slice_get};
    ghost use Rattle.program_names.specs.Entries.{paths_of};
    ghost use Rattle.program_names.specs.Whole.{files_of};

    /// A program of these files: their paths ascend strictly, byte by byte, and there are fewer than 2^32 files, 2^31
    /// nodes and 2^30 tokens in all.
    pub fn new(files: Vec<(PathText, RowTree)>) -> Program
        requires ascending { IsTrue (are_ascending files.items) }
        requires few_files { length files.items < 2 ^ 32 }
        requires few_nodes { nodes_in files.items < 2 ^ 31 }
        requires few_tokens { tokens_in files.items < 2 ^ 30 }
        ensures { files_of result ≡ files.items }
    {
        Program { files }
    }

    /// How many files there are.
    pub fn file_count(&self) -> u32
        ensures { result ≡ length (files_of self.now) }
    {
        self.files.len() as u32
    }

    /// The path of the file with a number, from 0; none exactly where there are no more files than that.
    pub fn path(&self, file: u32) -> Option<&PathText>
        ensures { option_copied result ≡ option_map (λ f. f.0) (slice_get (files_of self.now) file) }
    {
        self.files.get(file as usize).map(|f| &f.0)
    }

    /// The tree of the file with a number, from 0; none exactly where there are no more files than that.
    pub fn tree(&self, file: u32) -> Option<&RowTree>
        ensures { option_copied result ≡ option_map (λ f. f.1) (slice_get (files_of self.now) file) }
    {
        self.files.get(file as usize).map(|f| &f.1)
    }

    /// The number of the file with a path, from 0; none exactly where no file has it.
    pub fn number_of(&self, path: &[u8]) -> Option<u32>
        ensures { (f : ℕ) → (slice_get (paths_of (files_of self.now)) f ≡ Some path.now) ↔ (result ≡ Some f) }
    {
        place(self.files.as_slice(), path)
    }

    /// The files by their paths.
    pub fn files(&self) -> &[(PathText, RowTree)]
        ensures { result.now ≡ files_of self.now }
    {
        self.files.as_slice()
    }
}
