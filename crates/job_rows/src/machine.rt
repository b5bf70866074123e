// Rows of the machine.
use crate::made::{files, number, reports, text};
use job_core::{Bytes, Command, JobHead, Jobs, Made, Reply, Verdict};
use std::alloc::{AllocError, Global};

// Adds a word.
fn put(out: &mut String, word: &str) -> Result<(), AllocError> {
    out.push(' ')?;
    out.push_str(word)
}

// Adds the number of a job, and a sign where it is closed.
fn put_head(out: &mut String, head: &JobHead) -> Result<(), AllocError> {
    let number = head.job;
    write!(out, " {number}")?;
    if head.closed {
        put(out, "closed")
    } else {
        Ok(())
    }
}

// Adds what the machine answers.
fn put_reply(out: &mut String, reply: &Reply) -> Result<(), AllocError> {
    match reply {
        Reply::Head(head) => put_head(out, head),
        Reply::KeyTaken => put(out, "KeyTaken"),
        Reply::Closed => put(out, "Closed"),
        Reply::Full => put(out, "Full"),
        Reply::NoSuch => put(out, "NoSuch"),
    }
}

/// The word of a verdict.
pub fn verdict_word(verdict: Verdict) -> &'static str {
    match verdict {
        Verdict::Open => "Open",
        Verdict::Accept => "Accept",
        Verdict::Reject => "Reject",
    }
}

// The verdict on the first report of a job, if there is one.
fn first_verdict(jobs: &Jobs, owner: &str, job: u32) -> Option<Verdict> {
    Some(jobs.job(owner, job)?.reports.first()?.verdict)
}

/// Adds the verdict on the first report of an owner's job.
pub fn put_job(out: &mut String, jobs: &Jobs, owner: &str, job: u32) -> Result<(), AllocError> {
    match first_verdict(jobs, owner, job) {
        Some(verdict) => put(out, verdict_word(verdict)),
        None => put(out, "none"),
    }
}

fn step(
    alloc: Global,
    jobs: &mut Jobs,
    command: Command,
    out: &mut String,
) -> Result<(), AllocError> {
    let reply = jobs.step(alloc, command)?;
    put_reply(out, &reply)
}

fn made(alloc: Global) -> Result<Made, AllocError> {
    let files = files(alloc)?;
    let reports = reports(alloc)?;
    Ok(Made {
        status: 2,
        edits: 3,
        files,
        reports,
    })
}

// An upgrade's job.
fn add(alloc: Global, owner: &str, key: &str, request: &str) -> Result<Command, AllocError> {
    let owner = text(alloc, owner)?;
    let key = text(alloc, key)?;
    let request = Bytes::new(Vec::from_slice(alloc, request.as_bytes())?);
    let made = made(alloc)?;
    Ok(Command::Add {
        owner,
        key,
        request,
        made,
    })
}

// A verdict on a report.
fn accept(alloc: Global, owner: &str, job: u32, n: u32) -> Result<Command, AllocError> {
    let owner = text(alloc, owner)?;
    let note = text(alloc, "fine")?;
    Ok(Command::Judge {
        owner,
        job,
        n,
        verdict: Verdict::Accept,
        note,
    })
}

// The end of a job.
fn close(alloc: Global, owner: &str, job: u32) -> Result<Command, AllocError> {
    let owner = text(alloc, owner)?;
    Ok(Command::Close { owner, job })
}

// Adds so many jobs of an owner, under the keys `k0`, `k1` and on.
fn fill(alloc: Global, jobs: &mut Jobs, owner: &str, count: u32) -> Result<(), AllocError> {
    for at in 0..count {
        let key = format!(in alloc; "k{at}")?;
        let command = add(alloc, owner, key.as_str(), "one")?;
        let mut out = String::new(alloc);
        step(alloc, jobs, command, &mut out)?;
    }
    Ok(())
}

// One call: `add:OWNER:KEY:REQUEST`, `accept:OWNER:JOB:N`, `close:OWNER:JOB`, `fill:OWNER:COUNT` or `job:OWNER:JOB`.
fn call(alloc: Global, jobs: &mut Jobs, word: &str, out: &mut String) -> Result<(), AllocError> {
    let mut parts = word.split(':');
    let name = parts.next().unwrap_or("");
    let owner = parts.next().unwrap_or("");
    let first = parts.next();
    let second = parts.next();
    match name {
        "add" => {
            let command = add(alloc, owner, first.unwrap_or(""), second.unwrap_or(""))?;
            step(alloc, jobs, command, out)
        }
        "accept" => {
            let command = accept(alloc, owner, number(first), number(second))?;
            step(alloc, jobs, command, out)
        }
        "close" => {
            let command = close(alloc, owner, number(first))?;
            step(alloc, jobs, command, out)
        }
        "fill" => fill(alloc, jobs, owner, number(first)),
        _ => put_job(out, jobs, owner, number(first)),
    }
}

/// The calls on a machine without jobs.
pub fn machine(alloc: Global, words: &str, out: &mut String) -> Result<(), AllocError> {
    let mut jobs = Jobs::new(alloc)?;
    for word in words.split(' ') {
        call(alloc, &mut jobs, word, out)?;
    }
    Ok(())
}
