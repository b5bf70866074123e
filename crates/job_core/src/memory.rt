// A keeper in memory, some of whose calls fail.
ghost use Rattle.std.specs.Prelude.{◌≡◌};
ghost use Rattle.job_core.specs.Fails.{IsFresh};
ghost use Rattle.job_core.specs.Memory.{memory_keeper_jobs, memory_keeper_tally};

mod tally;

use crate::fault::KeepFault;
use crate::job::{Job, JobFile, JobHead, Judged, Verdict};
use crate::jobs::Jobs;
use crate::keeper::Keeper;
use std::alloc::Global;
use tally::Tally;

/// Jobs in memory, for tests: the calls with the given numbers fail. Contracts see `memory_keeper_jobs` and
/// `memory_keeper_tally`.
#[derive(Drop)]
pub struct MemoryKeeper {
    jobs: Jobs,
    tally: Tally,
}

impl MemoryKeeper {
    /// These jobs. `failing` has the numbers, from 1, of the calls of `Keeper` that fail.
    pub fn new(jobs: Jobs, failing: Vec<u64>) -> MemoryKeeper
        ensures jobs { memory_keeper_jobs result ≡ jobs }
        ensures tally { IsFresh failing.items (memory_keeper_tally result) }
    {
        MemoryKeeper {
            jobs,
            tally: Tally::new(failing),
        }
    }

    /// The jobs.
    pub fn jobs(&self) -> &Jobs
        ensures { result.now ≡ memory_keeper_jobs self.now }
    {
        &self.jobs
    }
}

impl Keeper for MemoryKeeper {
    ghost use Rattle.std.specs.Prelude.{[], ◌∷◌, ◌++◌, Some, IfOk, OnOk, OnErr, is_some, vec_len};
    ghost use Rattle.std.specs.Option.{option_map};
    ghost use Rattle.job_core.specs.Fails.{Fails};
    ghost use Rattle.job_core.specs.Job.{stored, listed};
    ghost use Rattle.job_core.specs.Jobs.{IsKept, IsNext, SameJobs, keyed_job, job_of, count_of, file_of, report_of, judged, closed};
    ghost use Rattle.job_core.specs.Keeper.{HasCause};
    ghost use Rattle.job_core.specs.Memory.{memory_keeper_jobs, memory_keeper_faults, memory_keeper_tally};

    ghost jobs = { λ k. Some (memory_keeper_jobs k) };

    ghost faults = { memory_keeper_faults };

    fn by_key(
        &mut self,
        alloc: Global,
        owner: &str,
        key: &str,
    ) -> Result<Option<JobHead>, KeepFault>
        ensures told { IfOk result (λ head. head ≡ option_map (λ j. j.head) (keyed_job owner.now key.now (memory_keeper_jobs self.old))) }
        ensures kept { OnOk result (IsKept (memory_keeper_jobs self.old)) }
        ensures same { memory_keeper_jobs self.new ≡ memory_keeper_jobs self.old }
        ensures cause { HasCause (memory_keeper_faults self.old) (memory_keeper_faults self.new) result }
        ensures fails { Fails (memory_keeper_tally self.old) (memory_keeper_tally self.new) result }
    {
        if self.tally.fails() {
            return Err(KeepFault::Failed);
        }
        Ok(self.jobs.keyed_head(alloc, owner, key)?)
    }

    fn head(&mut self, alloc: Global, owner: &str, job: u32) -> Result<Option<JobHead>, KeepFault>
        ensures told { IfOk result (λ head. head ≡ option_map (λ j. j.head) (job_of owner.now job (memory_keeper_jobs self.old))) }
        ensures kept { OnOk result (IsKept (memory_keeper_jobs self.old)) }
        ensures same { memory_keeper_jobs self.new ≡ memory_keeper_jobs self.old }
        ensures cause { HasCause (memory_keeper_faults self.old) (memory_keeper_faults self.new) result }
        ensures fails { Fails (memory_keeper_tally self.old) (memory_keeper_tally self.new) result }
    {
        if self.tally.fails() {
            return Err(KeepFault::Failed);
        }
        Ok(self.jobs.head(alloc, owner, job)?)
    }

    fn count(&mut self, owner: &str) -> Result<u32, KeepFault>
        ensures told { IfOk result (λ n. n ≡ count_of owner.now (memory_keeper_jobs self.old)) }
        ensures kept { OnOk result (IsKept (memory_keeper_jobs self.old)) }
        ensures same { memory_keeper_jobs self.new ≡ memory_keeper_jobs self.old }
        ensures cause { HasCause (memory_keeper_faults self.old) (memory_keeper_faults self.new) result }
        ensures fails { Fails (memory_keeper_tally self.old) (memory_keeper_tally self.new) result }
    {
        if self.tally.fails() {
            return Err(KeepFault::Failed);
        }
        Ok(self.jobs.count(owner))
    }

    fn add(&mut self, alloc: Global, job: &Job) -> Result<(), KeepFault>
        requires next { IsNext (stored job.now) (memory_keeper_jobs self.old) }
        requires reports { job.now.head.reports ≡ vec_len job.now.reports }
        ensures added { OnOk result (SameJobs (memory_keeper_jobs self.new) (memory_keeper_jobs self.old ++ stored job.now ∷ [])) }
        ensures kept { OnOk result (IsKept (memory_keeper_jobs self.new)) }
        ensures err { OnErr result (memory_keeper_jobs self.new ≡ memory_keeper_jobs self.old) }
        ensures cause { HasCause (memory_keeper_faults self.old) (memory_keeper_faults self.new) result }
        ensures fails { Fails (memory_keeper_tally self.old) (memory_keeper_tally self.new) result }
    {
        if self.tally.fails() {
            return Err(KeepFault::Failed);
        }
        Ok(self.jobs.store_copy(alloc, job)?)
    }

    fn file(
        &mut self,
        alloc: Global,
        owner: &str,
        job: u32,
        n: u32,
    ) -> Result<Option<JobFile>, KeepFault>
        ensures told { IfOk result (λ file. file ≡ file_of owner.now job n (memory_keeper_jobs self.old)) }
        ensures kept { OnOk result (IsKept (memory_keeper_jobs self.old)) }
        ensures same { memory_keeper_jobs self.new ≡ memory_keeper_jobs self.old }
        ensures cause { HasCause (memory_keeper_faults self.old) (memory_keeper_faults self.new) result }
        ensures fails { Fails (memory_keeper_tally self.old) (memory_keeper_tally self.new) result }
    {
        if self.tally.fails() {
            return Err(KeepFault::Failed);
        }
        Ok(self.jobs.file(alloc, owner, job, n)?)
    }

    fn reports(
        &mut self,
        alloc: Global,
        owner: &str,
        job: u32,
    ) -> Result<Option<Vec<Judged>>, KeepFault>
        ensures told { IfOk result (λ reports. listed reports ≡ option_map (λ j. j.reports) (job_of owner.now job (memory_keeper_jobs self.old))) }
        ensures kept { OnOk result (IsKept (memory_keeper_jobs self.old)) }
        ensures same { memory_keeper_jobs self.new ≡ memory_keeper_jobs self.old }
        ensures cause { HasCause (memory_keeper_faults self.old) (memory_keeper_faults self.new) result }
        ensures fails { Fails (memory_keeper_tally self.old) (memory_keeper_tally self.new) result }
    {
        if self.tally.fails() {
            return Err(KeepFault::Failed);
        }
        Ok(self.jobs.reports(alloc, owner, job)?)
    }

    fn judge(
        &mut self,
        alloc: Global,
        owner: &str,
        job: u32,
        n: u32,
        verdict: Verdict,
        note: &str,
    ) -> Result<bool, KeepFault>
        ensures told { IfOk result (λ done. done ≡ is_some (report_of owner.now job n (memory_keeper_jobs self.old))) }
        ensures judged { OnOk result (SameJobs (memory_keeper_jobs self.new) (judged owner.now job n verdict note.now (memory_keeper_jobs self.old))) }
        ensures kept { OnOk result (IsKept (memory_keeper_jobs self.new)) }
        ensures err { OnErr result (memory_keeper_jobs self.new ≡ memory_keeper_jobs self.old) }
        ensures cause { HasCause (memory_keeper_faults self.old) (memory_keeper_faults self.new) result }
        ensures fails { Fails (memory_keeper_tally self.old) (memory_keeper_tally self.new) result }
    {
        if self.tally.fails() {
            return Err(KeepFault::Failed);
        }
        Ok(self.jobs.judge_copy(alloc, owner, job, n, verdict, note)?)
    }

    fn close(&mut self, owner: &str, job: u32) -> Result<bool, KeepFault>
        ensures told { IfOk result (λ done. done ≡ is_some (job_of owner.now job (memory_keeper_jobs self.old))) }
        ensures closed { OnOk result (SameJobs (memory_keeper_jobs self.new) (closed owner.now job (memory_keeper_jobs self.old))) }
        ensures kept { OnOk result (IsKept (memory_keeper_jobs self.new)) }
        ensures err { OnErr result (memory_keeper_jobs self.new ≡ memory_keeper_jobs self.old) }
        ensures cause { HasCause (memory_keeper_faults self.old) (memory_keeper_faults self.new) result }
        ensures fails { Fails (memory_keeper_tally self.old) (memory_keeper_tally self.new) result }
    {
        if self.tally.fails() {
            return Err(KeepFault::Failed);
        }
        Ok(self.jobs.close(owner, job))
    }
}
