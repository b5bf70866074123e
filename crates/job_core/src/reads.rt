// What is read of the jobs, and the changes that copy what they are given.
ghost use Rattle.std.specs.Prelude.{◌≡◌, [], ◌∷◌, ◌++◌, IfOk, OnOk, OnErr, is_some, vec_len};
ghost use Rattle.std.specs.Option.{option_map};
ghost use Rattle.job_core.specs.Job.{stored, listed};
ghost use Rattle.job_core.specs.Jobs.{IsKept, IsNext, SameJobs, keyed_job, job_of, file_of, numbered, report_of, judged};

use crate::job::{Job, JobFile, JobHead, Judged, Verdict, copy_reports};
use crate::jobs::Jobs;
use io_ports::PathText;
use std::alloc::{AllocError, Global};

impl Jobs {
    /// The head of the owner's job under this key.
    pub(crate) fn keyed_head(
        &self,
        alloc: Global,
        owner: &str,
        key: &str,
    ) -> Result<Option<JobHead>, AllocError>
        ensures head { IfOk result (λ head. head ≡ option_map (λ j. j.head) (keyed_job owner.now key.now self.now)) }
        ensures kept { IsKept self.now }
    {
        let Some(job) = self.by_key(owner, key) else {
            return Ok(None);
        };
        Ok(Some(job.head.copy(alloc)?))
    }

    /// The head of the owner's job with this number.
    pub(crate) fn head(
        &self,
        alloc: Global,
        owner: &str,
        job: u32,
    ) -> Result<Option<JobHead>, AllocError>
        ensures head { IfOk result (λ head. head ≡ option_map (λ j. j.head) (job_of owner.now job self.now)) }
        ensures kept { IsKept self.now }
    {
        let Some(job) = self.job(owner, job) else {
            return Ok(None);
        };
        Ok(Some(job.head.copy(alloc)?))
    }

    /// File `n`, from 1, of the owner's job.
    pub(crate) fn file(
        &self,
        alloc: Global,
        owner: &str,
        job: u32,
        n: u32,
    ) -> Result<Option<JobFile>, AllocError>
        ensures file { IfOk result (λ file. file ≡ file_of owner.now job n self.now) }
        ensures kept { IsKept self.now }
    {
        let Some(job) = self.job(owner, job) else {
            return Ok(None);
        };
        numbered_file(alloc, n, job.files.as_slice())
    }

    /// The reports of the owner's job.
    pub(crate) fn reports(
        &self,
        alloc: Global,
        owner: &str,
        job: u32,
    ) -> Result<Option<Vec<Judged>>, AllocError>
        ensures reports { IfOk result (λ reports. listed reports ≡ option_map (λ j. j.reports) (job_of owner.now job self.now)) }
        ensures kept { IsKept self.now }
    {
        let Some(job) = self.job(owner, job) else {
            return Ok(None);
        };
        Ok(Some(copy_reports(alloc, job.reports.as_slice())?))
    }

    /// Adds a copy of a job behind its owner's others.
    pub(crate) fn store_copy(&mut self, alloc: Global, job: &Job) -> Result<(), AllocError>
        requires next { IsNext (stored job.now) self.old }
        requires reports { job.now.head.reports ≡ vec_len job.now.reports }
        ensures ok { OnOk result (SameJobs self.new (self.old ++ stored job.now ∷ [])) }
        ensures kept { OnOk result (IsKept self.new) }
        ensures err { OnErr result (self.new ≡ self.old) }
    {
        let job = job.copy(alloc)?;
        self.store(alloc, job)
    }

    /// Sets the verdict and a copy of the note on report `n` of a job. Answers false where there is none.
    pub(crate) fn judge_copy(
        &mut self,
        alloc: Global,
        owner: &str,
        job: u32,
        n: u32,
        verdict: Verdict,
        note: &str,
    ) -> Result<bool, AllocError>
        ensures done { IfOk result (λ done. done ≡ is_some (report_of owner.now job n self.old)) }
        ensures jobs { OnOk result (SameJobs self.new (judged owner.now job n verdict note.now self.old)) }
        ensures kept { OnOk result (IsKept self.new) }
        ensures err { OnErr result (self.new ≡ self.old) }
    {
        let note = PathText::new(String::from_str(alloc, note)?);
        Ok(self.judge(owner, job, n, verdict, note))
    }
}

// A copy of file `n`, from 1.
fn numbered_file(alloc: Global, n: u32, files: &[JobFile]) -> Result<Option<JobFile>, AllocError>
    ensures { IfOk result (λ file. file ≡ numbered n files.now) }
{
    let Some(place) = n.checked_sub(1) else {
        return Ok(None);
    };
    let Some(file) = files.get(place as usize) else {
        return Ok(None);
    };
    Ok(Some(file.copy(alloc)?))
}
