// The machine of jobs.
ghost use Rattle.std.specs.Prelude.{◌≡◌, [], ◌∷◌, ◌++◌, IfOk, OnOk, OnErr, is_some, vec_len};
ghost use Rattle.std.specs.Option.{option_map};
ghost use Rattle.job_core.specs.Job.{stored};
ghost use Rattle.job_core.specs.Jobs.{IsKept, IsNext, SameJobs, keyed_job, job_of, count_of, report_of, judged, closed};

use crate::job::{Job, Verdict};
use crate::owner_jobs::OwnerJobs;
use indexmap::IndexMap;
use io_ports::PathText;
use std::alloc::{AllocError, Global};
use std::marker::Model;

/// The jobs of many owners. Contracts see them as one list, in which each owner's jobs have their order.
#[derive(Drop)]
pub struct Jobs {
    owners: IndexMap<String, OwnerJobs>,
}

impl Model for Jobs {
    ghost use Rattle.std.specs.Prelude.{List};
    ghost use Rattle.job_core.specs.Job.{StoredJob};
    ghost use Rattle.job_core.specs.JobsMap.{all_jobs, IsJobsMap};

    ghost Value = { List StoredJob };

    ghost view = { λ a. all_jobs a.owners.entries };

    ghost invariant = { λ a. IsJobsMap a.owners.entries };
}

impl Jobs {
    /// No jobs. The only error is want of memory.
    pub fn new(alloc: Global) -> Result<Jobs, AllocError>
        ensures { IfOk result (λ jobs. jobs ≡ []) }
    {
        Ok(Jobs {
            owners: IndexMap::new(alloc),
        })
    }

    /// The owner's job with this number, if there is one.
    pub fn job(&self, owner: &str, job: u32) -> Option<&Job>
        ensures job { option_map (λ j. stored j.now) result ≡ job_of owner.now job self.now }
        ensures kept { IsKept self.now }
    {
        self.owners.get(owner)?.job(job)
    }

    /// The owner's job under this key.
    pub(crate) fn by_key(&self, owner: &str, key: &str) -> Option<&Job>
        ensures job { option_map (λ j. stored j.now) result ≡ keyed_job owner.now key.now self.now }
        ensures kept { IsKept self.now }
    {
        self.owners.get(owner)?.by_key(key)
    }

    /// How many jobs the owner has.
    pub(crate) fn count(&self, owner: &str) -> u32
        ensures count { result ≡ count_of owner.now self.now }
        ensures kept { IsKept self.now }
    {
        let Some(jobs) = self.owners.get(owner) else {
            return 0;
        };
        jobs.count()
    }

    /// Adds a job behind the owner's others.
    pub(crate) fn store(&mut self, alloc: Global, job: Job) -> Result<(), AllocError>
        requires next { IsNext (stored job) self.old }
        requires reports { job.head.reports ≡ vec_len job.reports }
        ensures ok { OnOk result (SameJobs self.new (self.old ++ stored job ∷ [])) }
        ensures kept { OnOk result (IsKept self.new) }
        ensures err { OnErr result (self.new ≡ self.old) }
    {
        if let Some(jobs) = self.owners.get_mut(job.owner.as_str()) {
            return jobs.add(alloc, job);
        }
        let owner = String::from_str(alloc, job.owner.as_str())?;
        let mut jobs = OwnerJobs::new(alloc);
        jobs.add(alloc, job)?;
        self.owners.insert(owner, jobs)?;
        Ok(())
    }

    /// Sets the verdict and the note on report `n` of a job. Answers false where there is none.
    pub(crate) fn judge(
        &mut self,
        owner: &str,
        job: u32,
        n: u32,
        verdict: Verdict,
        note: PathText,
    ) -> bool
        ensures done { result ≡ is_some (report_of owner.now job n self.old) }
        ensures jobs { SameJobs self.new (judged owner.now job n verdict note self.old) }
        ensures kept { IsKept self.new }
    {
        let Some(jobs) = self.owners.get_mut(owner) else {
            return false;
        };
        jobs.judge(job, n, verdict, note)
    }

    /// Closes a job. Answers false where there is none.
    pub(crate) fn close(&mut self, owner: &str, job: u32) -> bool
        ensures done { result ≡ is_some (job_of owner.now job self.old) }
        ensures jobs { SameJobs self.new (closed owner.now job self.old) }
        ensures kept { IsKept self.new }
    {
        let Some(jobs) = self.owners.get_mut(owner) else {
            return false;
        };
        jobs.close(job)
    }
}
