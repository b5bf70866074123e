// The keeper.
ghost use Rattle.job_core.specs.Keeper.{HasCause};

use crate::kept_jobs::KeptJobs;
use crate::place::{FilePlace, Place};
use crate::refusal::{Refusal, counted};
use job_core::{Job, JobFile, JobHead, Judged, KeepFault, Keeper, Verdict};
use std::alloc::{AllocError, Global};

/// Jobs in a database. It is opened at the first call; where that is refused, nothing stays open, and the
/// next call opens again.
#[derive(Drop)]
pub struct KeeperAt<P: Place + Drop> {
    kept: KeptJobs<P>,
    faults: u64,
}

/// Jobs in a file that SQLite reads.
pub type SqliteKeeper = KeeperAt<FilePlace>;

impl<P: Place + Drop> KeeperAt<P> {
    /// The jobs in the database of this place, which isn't opened yet.
    pub fn new(alloc: Global, place: P) -> KeeperAt<P> {
        KeeperAt {
            kept: KeptJobs::new(alloc, place),
            faults: 0,
        }
    }
}

impl KeeperAt<FilePlace> {
    /// The jobs in the file of this path, which isn't opened yet. The only error is want of memory.
    pub fn lazy(rt: HostRuntime, alloc: Global, path: &str) -> Result<SqliteKeeper, AllocError> {
        let place = FilePlace::new(rt, alloc, path)?;
        Ok(KeeperAt::new(alloc, place))
    }
}

// The answer of a call, whose refusal is counted.
fn answered<T: Drop>(faults: &mut u64, done: Result<T, Refusal>) -> Result<T, KeepFault>
    ensures { HasCause faults.old faults.new result }
{
    match done {
        Ok(answer) => Ok(answer),
        Err(refusal) => Err(counted(faults, refusal)),
    }
}

impl<P: Place + Drop> Keeper for KeeperAt<P> {
    ghost use Rattle.std.specs.Prelude.{None};

    ghost jobs = { λ _. None };

    ghost faults = { λ k. k.faults };

    fn by_key(
        &mut self,
        _alloc: Global,
        owner: &str,
        key: &str,
    ) -> Result<Option<JobHead>, KeepFault> {
        answered(&mut self.faults, self.kept.by_key(owner, key))
    }

    fn head(
        &mut self,
        _alloc: Global,
        owner: &str,
        job: u32,
    ) -> Result<Option<JobHead>, KeepFault> {
        answered(&mut self.faults, self.kept.head(owner, job))
    }

    fn count(&mut self, owner: &str) -> Result<u32, KeepFault> {
        answered(&mut self.faults, self.kept.count(owner))
    }

    fn add(&mut self, _alloc: Global, job: &Job) -> Result<(), KeepFault> {
        answered(&mut self.faults, self.kept.add(job))
    }

    fn file(
        &mut self,
        _alloc: Global,
        owner: &str,
        job: u32,
        n: u32,
    ) -> Result<Option<JobFile>, KeepFault> {
        answered(&mut self.faults, self.kept.file(owner, job, n))
    }

    fn reports(
        &mut self,
        alloc: Global,
        owner: &str,
        job: u32,
    ) -> Result<Option<Vec<Judged>>, KeepFault> {
        let done = self.kept.reports(alloc, owner, job);
        answered(&mut self.faults, done)
    }

    fn judge(
        &mut self,
        _alloc: Global,
        owner: &str,
        job: u32,
        n: u32,
        verdict: Verdict,
        note: &str,
    ) -> Result<bool, KeepFault> {
        let done = self.kept.judge(owner, job, n, verdict, note);
        answered(&mut self.faults, done)
    }

    fn close(&mut self, owner: &str, job: u32) -> Result<bool, KeepFault> {
        answered(&mut self.faults, self.kept.close(owner, job))
    }
}
