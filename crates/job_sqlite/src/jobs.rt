// Jobs and their files as rows.
use crate::numbers::{
    blob_text_at, byte_at, bytes_at, column_number, count_at, flag_at, text_at, word_at,
};
use crate::refusal::Refusal;
use crate::reports::add_reports;
use crate::store::Store;
use crate::tables::Wanted;
use job_core::{Job, JobFile, JobHead};
use sqlite::{Alter, Row, params};

// The head of a job in the order of the columns of its query.
fn head_of(row: &Row) -> Result<JobHead, Refusal> {
    let job = word_at(row, 0)?;
    let status = byte_at(row, 1)?;
    let edits = count_at(row, 2)?;
    let closed = flag_at(row, 3)?;
    let reports = count_at(row, 5)?;
    let request = bytes_at(row, 4)?;
    Ok(JobHead {
        job,
        status,
        edits,
        reports,
        closed,
        request,
    })
}

/// The first of these rows as the head of a job, if there is one.
pub fn first_head(rows: &[Row]) -> Result<Option<JobHead>, Refusal> {
    match rows {
        [] => Ok(None),
        [row, ..] => Ok(Some(head_of(row)?)),
    }
}

// A file in the order of the columns of its query.
fn file_of(row: &Row) -> Result<JobFile, Refusal> {
    let path = text_at(row, 0)?;
    let source = blob_text_at(row, 1)?;
    let written = blob_text_at(row, 2)?;
    Ok(JobFile {
        path,
        source,
        written,
    })
}

/// The first of these rows as a file, if there is one.
pub fn first_file(rows: &[Row]) -> Result<Option<JobFile>, Refusal> {
    match rows {
        [] => Ok(None),
        [row, ..] => Ok(Some(file_of(row)?)),
    }
}

/// The number in the first of these rows.
pub fn first_number(rows: &[Row]) -> Result<u32, Refusal> {
    match rows {
        [] => Err(Refusal::Failed),
        [row, ..] => word_at(row, 0),
    }
}

// Inserts one row.
fn add_job<S: Alter + Drop>(store: &mut Store<S>, job: &Job) -> Result<(), Refusal> {
    let head = &job.head;
    let edits = column_number(head.edits)?;
    let params = params![
        job.owner.as_str(),
        i64::from(head.job),
        job.key.as_str(),
        head.request.as_slice(),
        i64::from(head.status),
        edits,
        i64::from(head.closed),
    ];
    store.change(Wanted::AddJob, params)?;
    Ok(())
}

// Inserts one row.
fn add_file<S: Alter + Drop>(
    store: &mut Store<S>,
    job: &Job,
    n: i64,
    file: &JobFile,
) -> Result<(), Refusal> {
    let params = params![
        job.owner.as_str(),
        i64::from(job.head.job),
        n,
        file.path.as_str(),
        file.source.as_str().as_bytes(),
        file.written.as_str().as_bytes(),
    ];
    store.change(Wanted::AddFile, params)?;
    Ok(())
}

// Inserts a row for each file.
fn add_files<S: Alter + Drop>(store: &mut Store<S>, job: &Job) -> Result<(), Refusal> {
    let mut n = 0i64;
    for file in &job.files {
        n = n.saturating_add(1);
        add_file(store, job, n, file)?;
    }
    Ok(())
}

// Inserts all rows of a job.
fn add_rows<S: Alter + Drop>(store: &mut Store<S>, job: &Job) -> Result<(), Refusal> {
    add_job(store, job)?;
    add_files(store, job)?;
    add_reports(store, job)
}

/// Adds a job with its files and reports, all in one transaction.
pub fn add<S: Alter + Drop>(store: &mut Store<S>, job: &Job) -> Result<(), Refusal> {
    store.begin()?;
    let done = add_rows(store, job);
    store.end(done)
}
