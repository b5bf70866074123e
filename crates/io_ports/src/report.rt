// Reports.
ghost use Rattle.std.specs.Prelude.{◌≡◌, [], ◌∷◌, ◌++◌, IfOk, OnOk, OnErr};
ghost use Rattle.io_ports.specs.Names.{weight_name};

use span_edits::{PathText, Span};
use std::alloc::{AllocError, Global};

/// How much a report weighs.
#[derive(Clone, Copy, Debug, PartialEq, Eq)]
pub enum Weight {
    /// About a diagnostic alone.
    Note,
    /// A run that reaches the place leaves the claim.
    Stop,
    /// A run that starts the file leaves the claim.
    Compile,
}

impl Weight {
    /// `note`, `stop` or `compile`.
    pub fn name(self) -> &'static str
        ensures { result.now ≡ weight_name self }
    {
        match self {
            Weight::Note => "note",
            Weight::Stop => "stop",
            Weight::Compile => "compile",
        }
    }
}

/// One place of a file with what was met there: `code` numbers the rule or form, `cause` why it stands open.
#[derive(Drop)]
pub struct Report {
    pub path: PathText,
    pub span: Span,
    pub code: u16,
    pub cause: u16,
    pub weight: Weight,
}

impl Report {
    /// An equal report. The only error is want of memory.
    pub fn copy(&self, alloc: Global) -> Result<Report, AllocError>
        ensures { IfOk result (λ r. r ≡ self.now) }
    {
        let path = self.path.copy(alloc)?;
        Ok(Report {
            path,
            span: self.span,
            code: self.code,
            cause: self.cause,
            weight: self.weight,
        })
    }
}

/// Adds a copy of a report to a list.
pub fn keep_copy(
    alloc: Global,
    reports: &mut Vec<Report>,
    report: &Report,
) -> Result<(), AllocError>
    ensures ok { OnOk result (reports.new.items ≡ reports.old.items ++ report.now ∷ []) }
    ensures err { OnErr result (reports.new.items ≡ reports.old.items) }
{
    reports.push(report.copy(alloc)?)?;
    Ok(())
}
