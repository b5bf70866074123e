// What a job is.
ghost use Rattle.std.specs.Prelude.{◌≡◌, IfOk};
ghost use Rattle.job_core.specs.Job.{stored};

use io_ports::{Bytes, PathText, Report};
use std::alloc::{AllocError, Global};

/// What a reviewer says of a report.
#[derive(Clone, Copy, Debug, PartialEq, Eq)]
pub enum Verdict {
    /// Nothing was said yet.
    Open,
    /// The place is fine as it is.
    Accept,
    /// The place has to change.
    Reject,
}

/// One file of an upgrade: its path, its text before and its text after.
#[derive(Drop)]
pub struct JobFile {
    pub path: PathText,
    pub source: PathText,
    pub written: PathText,
}

/// A report of an upgrade with the verdict on it and the reviewer's note.
#[derive(Drop)]
pub struct Judged {
    pub report: Report,
    pub verdict: Verdict,
    pub note: PathText,
}

/// The short form of a job: its number among its owner's jobs, from 1, the exit status of the
/// upgrade, how many edits and reports it has, whether it is closed, and the bytes of the request
/// that it came with.
#[derive(Drop)]
pub struct JobHead {
    pub job: u32,
    pub status: u8,
    pub edits: u64,
    pub reports: u64,
    pub closed: bool,
    pub request: Bytes,
}

/// A stored upgrade: whose it is, the key that its owner gave it, and what the upgrade came to.
#[derive(Drop)]
pub struct Job {
    pub owner: PathText,
    pub key: PathText,
    pub head: JobHead,
    pub files: Vec<JobFile>,
    pub reports: Vec<Judged>,
}

/// What an upgrade came to: its exit status, how many edits it has, its files and its reports.
#[derive(Drop)]
pub struct Made {
    pub status: u8,
    pub edits: u64,
    pub files: Vec<JobFile>,
    pub reports: Vec<Judged>,
}

impl JobFile {
    /// An equal file. The only error is want of memory.
    pub fn copy(&self, alloc: Global) -> Result<JobFile, AllocError>
        ensures { IfOk result (λ file. file ≡ self.now) }
    {
        let path = self.path.copy(alloc)?;
        let source = self.source.copy(alloc)?;
        let written = self.written.copy(alloc)?;
        Ok(JobFile {
            path,
            source,
            written,
        })
    }
}

impl Judged {
    /// An equal report with an equal verdict and note. The only error is want of memory.
    pub fn copy(&self, alloc: Global) -> Result<Judged, AllocError>
        ensures { IfOk result (λ judged. judged ≡ self.now) }
    {
        let report = copy_report(alloc, &self.report)?;
        let note = self.note.copy(alloc)?;
        Ok(Judged {
            report,
            verdict: self.verdict,
            note,
        })
    }
}

impl JobHead {
    /// An equal head. The only error is want of memory.
    pub fn copy(&self, alloc: Global) -> Result<JobHead, AllocError>
        ensures { IfOk result (λ head. head ≡ self.now) }
    {
        let request = self.request.copy(alloc)?;
        Ok(JobHead {
            job: self.job,
            status: self.status,
            edits: self.edits,
            reports: self.reports,
            closed: self.closed,
            request,
        })
    }
}

impl Job {
    /// A job that holds the same. The only error is want of memory.
    pub fn copy(&self, alloc: Global) -> Result<Job, AllocError>
        ensures { IfOk result (λ job. stored job ≡ stored self.now) }
    {
        let owner = self.owner.copy(alloc)?;
        let key = self.key.copy(alloc)?;
        let head = self.head.copy(alloc)?;
        let files = copy_files(alloc, self.files.as_slice())?;
        let reports = copy_reports(alloc, self.reports.as_slice())?;
        Ok(Job {
            owner,
            key,
            head,
            files,
            reports,
        })
    }
}

// An equal report.
fn copy_report(alloc: Global, report: &Report) -> Result<Report, AllocError>
    ensures { IfOk result (λ copy. copy ≡ report.now) }
{
    let path = report.path.copy(alloc)?;
    Ok(Report {
        path,
        span: report.span,
        code: report.code,
        cause: report.cause,
        weight: report.weight,
    })
}

// Equal files, in order.
fn copy_files(alloc: Global, files: &[JobFile]) -> Result<Vec<JobFile>, AllocError>
    ensures { IfOk result (λ copies. copies.items ≡ files.now) }
{
    let mut copies = Vec::new(alloc);
    for file in files {
        copies.push(file.copy(alloc)?)?;
    }
    Ok(copies)
}

/// Equal judged reports, in order. The only error is want of memory.
pub(crate) fn copy_reports(alloc: Global, reports: &[Judged]) -> Result<Vec<Judged>, AllocError>
    ensures { IfOk result (λ copies. copies.items ≡ reports.now) }
{
    let mut copies = Vec::new(alloc);
    for report in reports {
        copies.push(report.copy(alloc)?)?;
    }
    Ok(copies)
}
