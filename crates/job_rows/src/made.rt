// What the jobs of the rows hold: one file and one report.
ghost use Rattle.std.specs.Prelude.{◌≡◌, IfOk, vec_len};

use job_core::{Bytes, Job, JobFile, JobHead, Judged, PathText, Report, Span, Verdict, Weight};
use std::alloc::{AllocError, Global};

/// A text.
pub fn text(alloc: Global, text: &str) -> Result<PathText, AllocError> {
    Ok(PathText::new(String::from_str(alloc, text)?))
}

/// A decimal number, or 0.
pub fn number(text: Option<&str>) -> u32 {
    text.unwrap_or("").parse::<u32>().unwrap_or(0)
}

/// One file.
pub fn files(alloc: Global) -> Result<Vec<JobFile>, AllocError> {
    let mut files = Vec::new(alloc);
    files.push(JobFile {
        path: text(alloc, "a.php")?,
        source: text(alloc, "<?php echo 1;")?,
        written: text(alloc, "<?php echo 2;")?,
    })?;
    Ok(files)
}

fn report(alloc: Global) -> Result<Report, AllocError> {
    Ok(Report {
        path: text(alloc, "a.php")?,
        span: Span { start: 11, end: 26 },
        code: 10,
        cause: 1,
        weight: Weight::Stop,
    })
}

/// One report, of which nothing was said yet.
pub fn reports(alloc: Global) -> Result<Vec<Judged>, AllocError>
    ensures { IfOk result (λ reports. vec_len reports ≡ 1) }
{
    let mut reports = Vec::new(alloc);
    reports.push(Judged {
        report: report(alloc)?,
        verdict: Verdict::Open,
        note: text(alloc, "")?,
    })?;
    Ok(reports)
}

fn first_head(alloc: Global) -> Result<JobHead, AllocError>
    ensures number { IfOk result (λ head. head.job ≡ 1) }
    ensures reports { IfOk result (λ head. head.reports ≡ 1) }
{
    let request = Bytes::new(Vec::from_slice(alloc, b"one")?);
    Ok(JobHead {
        job: 1,
        status: 2,
        edits: 3,
        reports: 1,
        closed: false,
        request,
    })
}

/// The first job of `ann`, under the key `k1`.
pub fn first_job(alloc: Global) -> Result<Job, AllocError>
    ensures number { IfOk result (λ job. job.head.job ≡ 1) }
    ensures reports { IfOk result (λ job. job.head.reports ≡ vec_len job.reports) }
{
    let owner = text(alloc, "ann")?;
    let key = text(alloc, "k1")?;
    let head = first_head(alloc)?;
    let files = files(alloc)?;
    let reports = reports(alloc)?;
    Ok(Job {
        owner,
        key,
        head,
        files,
        reports,
    })
}
