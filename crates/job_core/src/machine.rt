// The machine of jobs: one command after another.
ghost use Rattle.std.specs.Prelude.{◌≡◌, IfOk, OnOk, OnErr};
ghost use Rattle.job_core.specs.Job.{stored};
ghost use Rattle.job_core.specs.Jobs.{IsKept, SameJobs};
ghost use Rattle.job_core.specs.Machine.{reply_to, jobs_after, repeat_reply, judge_reply};

use crate::command::{Command, Reply};
use crate::job::{Job, JobHead, Made, Verdict};
use crate::jobs::Jobs;
use io_ports::{Bytes, PathText};
use std::alloc::{AllocError, Global};

/// How many jobs an owner may have.
pub const MAX_JOBS: u32 = 10_000;

impl Jobs {
    /// Carries a command out and answers it. `Add` answers `KeyTaken` where the owner's key stands with another
    /// request, the head of the stored job where it stands with the same one, and `Full` where the key is new and
    /// the owner has 10,000 jobs; else it stores the job, whose number is the owner's count plus 1. `Judge` and
    /// `Close` answer `NoSuch` where the owner has no such job or report; else `Judge` answers `Closed` where the job
    /// is closed. Every other command is done, and answered with the head of the job as it stands then. The rules
    /// are this project's own.
    ///
    /// The only error is want of memory, after which the jobs are as before.
    pub fn step(&mut self, alloc: Global, command: Command) -> Result<Reply, AllocError>
        ensures reply { IfOk result (λ reply. reply ≡ reply_to command self.old) }
        ensures jobs { OnOk result (SameJobs self.new (jobs_after command self.old)) }
        ensures err { OnErr result (self.new ≡ self.old) }
        ensures kept { IsKept self.new }
    {
        match command {
            Command::Add {
                owner,
                key,
                request,
                made,
            } => self.step_add(alloc, owner, key, request, made),
            Command::Judge {
                owner,
                job,
                n,
                verdict,
                note,
            } => self.step_judge(alloc, owner, job, n, verdict, note),
            Command::Close { owner, job } => self.step_close(alloc, owner, job),
        }
    }

    // Stores what was made, unless the key stands or the owner has no room.
    fn step_add(
        &mut self,
        alloc: Global,
        owner: PathText,
        key: PathText,
        request: Bytes,
        made: Made,
    ) -> Result<Reply, AllocError>
        ensures reply { IfOk result (λ reply. reply ≡ reply_to (Command.Add owner key request made) self.old) }
        ensures jobs { OnOk result (SameJobs self.new (jobs_after (Command.Add owner key request made) self.old)) }
        ensures err { OnErr result (self.new ≡ self.old) }
        ensures kept { IsKept self.new }
    {
        if let Some(job) = self.by_key(owner.as_str(), key.as_str()) {
            return again(alloc, &request, job);
        }
        let count = self.count(owner.as_str());
        if count >= MAX_JOBS {
            return Ok(Reply::Full);
        }
        let Made {
            status,
            edits,
            files,
            reports,
        } = made;
        let head = JobHead {
            job: count + 1,
            status,
            edits,
            reports: reports.len() as u64,
            closed: false,
            request,
        };
        let reply = head.copy(alloc)?;
        let job = Job {
            owner,
            key,
            head,
            files,
            reports,
        };
        self.store(alloc, job)?;
        Ok(Reply::Head(reply))
    }

    // Sets a verdict, unless the job is closed.
    fn step_judge(
        &mut self,
        alloc: Global,
        owner: PathText,
        job: u32,
        n: u32,
        verdict: Verdict,
        note: PathText,
    ) -> Result<Reply, AllocError>
        ensures reply { IfOk result (λ reply. reply ≡ reply_to (Command.Judge owner job n verdict note) self.old) }
        ensures jobs { OnOk result (SameJobs self.new (jobs_after (Command.Judge owner job n verdict note) self.old)) }
        ensures err { OnErr result (self.new ≡ self.old) }
        ensures kept { IsKept self.new }
    {
        let Some(found) = self.job(owner.as_str(), job) else {
            return Ok(Reply::NoSuch);
        };
        let reply = judged_reply(alloc, n, found)?;
        if found.head.closed {
            return Ok(reply);
        }
        self.judge(owner.as_str(), job, n, verdict, note);
        Ok(reply)
    }

    // Closes a job.
    fn step_close(&mut self, alloc: Global, owner: PathText, job: u32) -> Result<Reply, AllocError>
        ensures reply { IfOk result (λ reply. reply ≡ reply_to (Command.Close owner job) self.old) }
        ensures jobs { OnOk result (SameJobs self.new (jobs_after (Command.Close owner job) self.old)) }
        ensures err { OnErr result (self.new ≡ self.old) }
        ensures kept { IsKept self.new }
    {
        let Some(found) = self.job(owner.as_str(), job) else {
            return Ok(Reply::NoSuch);
        };
        let mut head = found.head.copy(alloc)?;
        head.closed = true;
        self.close(owner.as_str(), job);
        Ok(Reply::Head(head))
    }
}

// The answer to a request whose key stands at this job.
fn again(alloc: Global, request: &Bytes, job: &Job) -> Result<Reply, AllocError>
    ensures { IfOk result (λ reply. reply ≡ repeat_reply request.now (stored job.now)) }
{
    if request.as_slice() == job.head.request.as_slice() {
        Ok(Reply::Head(job.head.copy(alloc)?))
    } else {
        Ok(Reply::KeyTaken)
    }
}

// The answer to a verdict on report `n` of this job.
fn judged_reply(alloc: Global, n: u32, job: &Job) -> Result<Reply, AllocError>
    ensures { IfOk result (λ reply. reply ≡ judge_reply n (stored job.now)) }
{
    if n == 0 || n as usize > job.reports.len() {
        return Ok(Reply::NoSuch);
    }
    if job.head.closed {
        return Ok(Reply::Closed);
    }
    Ok(Reply::Head(job.head.copy(alloc)?))
}
