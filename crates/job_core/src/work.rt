// Work that jobs are made of.
ghost use Rattle.std.specs.Prelude.{List, ℕ, Result};
ghost use Rattle.io_ports.specs.Files.{IsTree};
ghost use Rattle.job_core.specs.Work.{SourceText, MadeWork, IfAnswered};

use crate::fault::WorkFault;
use crate::job::Made;
use io_ports::PathText;
use std::alloc::Global;

/// Work that turns files and settings into what a job stores.
pub trait Work {
    /// Which outcomes the work may have for files and settings: what is made, or the text of a refusal.
    ghost gives: { List SourceText → List ℕ → Result MadeWork (List ℕ) → Type 0 };

    /// Works on files, each a path with its text, whose paths are in strictly ascending byte order. `Refused` holds
    /// the refusal's text, and `Memory` is want of memory.
    fn make(
        &mut self,
        alloc: Global,
        files: &[(PathText, PathText)],
        settings: &[u8],
    ) -> Result<Made, WorkFault>
        requires { IsTree files.now }
        ensures { IfAnswered result (gives files.now settings.now) };
}
