// A keeper in memory that never fails.
ghost use Rattle.std.specs.Prelude.{◌≡◌};
ghost use Rattle.job_core.specs.Memory.{calm_keeper_jobs};

use crate::fault::KeepFault;
use crate::job::{Job, JobFile, JobHead, Judged, Verdict};
use crate::jobs::Jobs;
use crate::keeper::Keeper;
use std::alloc::Global;

/// Jobs in memory. No call fails, but for want of memory. Contracts see `calm_keeper_jobs`.
#[derive(Drop)]
pub struct CalmKeeper {
    jobs: Jobs,
}

impl CalmKeeper {
    /// These jobs.
    pub fn new(jobs: Jobs) -> CalmKeeper
        ensures { calm_keeper_jobs result ≡ jobs }
    {
        CalmKeeper { jobs }
    }

    /// The jobs.
    pub fn jobs(&self) -> &Jobs
        ensures { result.now ≡ calm_keeper_jobs self.now }
    {
        &self.jobs
    }
}

impl Keeper for CalmKeeper {
    ghost use Rattle.std.specs.Prelude.{Some};
    ghost use Rattle.job_core.specs.Memory.{calm_keeper_jobs};

    ghost jobs = { λ k. Some (calm_keeper_jobs k) };

    ghost faults = { λ _. 0 };

    fn by_key(
        &mut self,
        alloc: Global,
        owner: &str,
        key: &str,
    ) -> Result<Option<JobHead>, KeepFault> {
        Ok(self.jobs.keyed_head(alloc, owner, key)?)
    }

    fn head(&mut self, alloc: Global, owner: &str, job: u32) -> Result<Option<JobHead>, KeepFault> {
        Ok(self.jobs.head(alloc, owner, job)?)
    }

    fn count(&mut self, owner: &str) -> Result<u32, KeepFault> {
        Ok(self.jobs.count(owner))
    }

    fn add(&mut self, alloc: Global, job: &Job) -> Result<(), KeepFault> {
        Ok(self.jobs.store_copy(alloc, job)?)
    }

    fn file(
        &mut self,
        alloc: Global,
        owner: &str,
        job: u32,
        n: u32,
    ) -> Result<Option<JobFile>, KeepFault> {
        Ok(self.jobs.file(alloc, owner, job, n)?)
    }

    fn reports(
        &mut self,
        alloc: Global,
        owner: &str,
        job: u32,
    ) -> Result<Option<Vec<Judged>>, KeepFault> {
        Ok(self.jobs.reports(alloc, owner, job)?)
    }

    fn judge(
        &mut self,
        alloc: Global,
        owner: &str,
        job: u32,
        n: u32,
        verdict: Verdict,
        note: &str,
    ) -> Result<bool, KeepFault> {
        Ok(self.jobs.judge_copy(alloc, owner, job, n, verdict, note)?)
    }

    fn close(&mut self, owner: &str, job: u32) -> Result<bool, KeepFault> {
        Ok(self.jobs.close(owner, job))
    }
}
