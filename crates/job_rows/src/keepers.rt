// Rows of keepers.
ghost use Rattle.std.specs.Prelude.{◌≡◌, [], IfSome};

use crate::machine::put_job;
use crate::made::{first_job, number};
use job_core::{CalmKeeper, Jobs, KeepFault, Keeper, MemoryKeeper, Verdict};
use std::alloc::{AllocError, Global};

// Adds a job to a keeper without jobs.
fn add_first<K: Keeper>(alloc: Global, keeper: &mut K) -> Result<(), KeepFault>
    requires { IfSome (K.jobs keeper.old) (λ jobs. jobs ≡ []) }
{
    let job = first_job(alloc)?;
    keeper.add(alloc, &job)
}

fn edits<K: Keeper>(alloc: Global, keeper: &mut K) -> Result<u64, KeepFault> {
    let head = keeper.by_key(alloc, "ann", "k1")?;
    Ok(head.map_or(0, |head| head.edits))
}

fn is_closed<K: Keeper>(alloc: Global, keeper: &mut K) -> Result<u64, KeepFault> {
    let head = keeper.head(alloc, "ann", 1)?;
    Ok(head.map_or(0, |head| u64::from(head.closed)))
}

fn has_file<K: Keeper>(alloc: Global, keeper: &mut K, n: u32) -> Result<u64, KeepFault> {
    let file = keeper.file(alloc, "ann", 1, n)?;
    Ok(u64::from(file.is_some()))
}

fn report_count<K: Keeper>(alloc: Global, keeper: &mut K) -> Result<u64, KeepFault> {
    let reports = keeper.reports(alloc, "ann", 1)?;
    Ok(reports.map_or(0, |reports| reports.len() as u64))
}

fn count<K: Keeper>(keeper: &mut K) -> Result<u64, KeepFault> {
    Ok(u64::from(keeper.count("ann")?))
}

fn reject<K: Keeper>(alloc: Global, keeper: &mut K, n: u32) -> Result<u64, KeepFault> {
    Ok(u64::from(keeper.judge(alloc, "ann", 1, n, Verdict::Reject, "no")?))
}

fn close<K: Keeper>(keeper: &mut K, job: u32) -> Result<u64, KeepFault> {
    Ok(u64::from(keeper.close("ann", job)?))
}

// One call, which answers a number, or 1 for true and 0 for false.
fn call<K: Keeper>(alloc: Global, keeper: &mut K, word: &str) -> Result<u64, KeepFault> {
    let mut parts = word.split(':');
    let name = parts.next().unwrap_or("");
    let n = number(parts.next());
    match name {
        "count" => count(keeper),
        "edits" => edits(alloc, keeper),
        "reject" => reject(alloc, keeper, n),
        "close" => close(keeper, n),
        "is-closed" => is_closed(alloc, keeper),
        "file" => has_file(alloc, keeper, n),
        _ => report_count(alloc, keeper),
    }
}

// Adds what a call came to.
fn put_answer(out: &mut String, came: Result<u64, KeepFault>) -> Result<(), AllocError> {
    match came {
        Ok(number) => write!(out, " {number}"),
        Err(KeepFault::Failed) => out.push_str(" Failed"),
        Err(KeepFault::Memory) => out.push_str(" Memory"),
    }
}

// A first job, and then the calls.
fn calls<K: Keeper>(
    alloc: Global,
    keeper: &mut K,
    words: &str,
    out: &mut String,
) -> Result<(), AllocError>
    requires { IfSome (K.jobs keeper.old) (λ jobs. jobs ≡ []) }
{
    let added = add_first(alloc, keeper);
    put_answer(out, added.map(|_| 1))?;
    for word in words.split(' ') {
        let came = call(alloc, keeper, word);
        put_answer(out, came)?;
    }
    Ok(())
}

/// A keeper that never fails.
pub fn calm(alloc: Global, words: &str, out: &mut String) -> Result<(), AllocError> {
    let mut keeper = CalmKeeper::new(Jobs::new(alloc)?);
    calls(alloc, &mut keeper, words, out)?;
    put_job(out, keeper.jobs(), "ann", 1)
}

/// A keeper that fails at some calls.
pub fn memory(
    alloc: Global,
    failing: Vec<u64>,
    words: &str,
    out: &mut String,
) -> Result<(), AllocError> {
    let mut keeper = MemoryKeeper::new(Jobs::new(alloc)?, failing);
    calls(alloc, &mut keeper, words, out)?;
    put_job(out, keeper.jobs(), "ann", 1)
}
