// The calls on a database of jobs.
use crate::jobs;
use crate::numbers::verdict_number;
use crate::refusal::Refusal;
use crate::reports::reports_of;
use crate::store::Store;
use crate::tables::Wanted;
use job_core::{Job, JobFile, JobHead, Judged, Verdict};
use sqlite::{Alter, params};
use std::alloc::Global;

/// The head of the owner's job under this key.
pub fn by_key<S: Alter + Drop>(
    store: &mut Store<S>,
    owner: &str,
    key: &str,
) -> Result<Option<JobHead>, Refusal> {
    let rows = store.rows(Wanted::ByKey, params![owner, key])?;
    jobs::first_head(rows.as_slice())
}

/// The head of the owner's job with this number.
pub fn head<S: Alter + Drop>(
    store: &mut Store<S>,
    owner: &str,
    job: u32,
) -> Result<Option<JobHead>, Refusal> {
    let rows = store.rows(Wanted::ByNumber, params![owner, i64::from(job)])?;
    jobs::first_head(rows.as_slice())
}

/// How many jobs the owner has.
pub fn count<S: Alter + Drop>(store: &mut Store<S>, owner: &str) -> Result<u32, Refusal> {
    let rows = store.rows(Wanted::Count, params![owner])?;
    jobs::first_number(rows.as_slice())
}

/// Adds a job with its files and reports.
pub fn add<S: Alter + Drop>(store: &mut Store<S>, job: &Job) -> Result<(), Refusal> {
    jobs::add(store, job)
}

/// File `n`, from 1, of the owner's job.
pub fn file<S: Alter + Drop>(
    store: &mut Store<S>,
    owner: &str,
    job: u32,
    n: u32,
) -> Result<Option<JobFile>, Refusal> {
    let params = params![owner, i64::from(job), i64::from(n)];
    let rows = store.rows(Wanted::File, params)?;
    jobs::first_file(rows.as_slice())
}

/// The reports of the owner's job, in order.
pub fn reports<S: Alter + Drop>(
    alloc: Global,
    store: &mut Store<S>,
    owner: &str,
    job: u32,
) -> Result<Option<Vec<Judged>>, Refusal> {
    if head(store, owner, job)?.is_none() {
        return Ok(None);
    }
    let rows = store.rows(Wanted::Reports, params![owner, i64::from(job)])?;
    Ok(Some(reports_of(alloc, rows.as_slice())?))
}

/// Sets the verdict and the note on report `n`. Answers false where there is none.
pub fn judge<S: Alter + Drop>(
    store: &mut Store<S>,
    owner: &str,
    job: u32,
    n: u32,
    verdict: Verdict,
    note: &str,
) -> Result<bool, Refusal> {
    let params = params![
        owner,
        i64::from(job),
        i64::from(n),
        verdict_number(verdict),
        note,
    ];
    Ok(store.change(Wanted::Judge, params)? > 0)
}

/// Closes a job. Answers false where there is none.
pub fn close<S: Alter + Drop>(
    store: &mut Store<S>,
    owner: &str,
    job: u32,
) -> Result<bool, Refusal> {
    let params = params![owner, i64::from(job)];
    Ok(store.change(Wanted::Close, params)? > 0)
}
