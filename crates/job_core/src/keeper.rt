// A keeper of jobs.
ghost use Rattle.std.specs.Prelude.{◌≡◌, ℕ, List, [], ◌∷◌, ◌++◌, Option, IfSome, IfOk, OnOk, OnErr, is_some, vec_len};
ghost use Rattle.std.specs.Option.{option_map};
ghost use Rattle.job_core.specs.Job.{StoredJob, stored, listed};
ghost use Rattle.job_core.specs.Jobs.{IsKept, IsNext, keyed_job, job_of, count_of, file_of, report_of, judged, closed};
ghost use Rattle.job_core.specs.Keeper.{HasCause, Tells};

use crate::fault::KeepFault;
use crate::job::{Job, JobFile, JobHead, Judged, Verdict};
use std::alloc::Global;

/// A keeper of the jobs of many owners. A call answers `Failed` only where the count of faults rose in it, and an
/// `Err` leaves the jobs as they were.
pub trait Keeper {
    /// The jobs, where the keeper tells them.
    ghost jobs: { Self → Option (List StoredJob) };

    /// How often a call failed.
    ghost faults: { Self → ℕ };

    /// The head of the owner's job under this key.
    fn by_key(
        &mut self,
        alloc: Global,
        owner: &str,
        key: &str,
    ) -> Result<Option<JobHead>, KeepFault>
        ensures told { IfSome (jobs self.old) (λ js. IfOk result (λ head. head ≡ option_map (λ j. j.head) (keyed_job owner.now key.now js))) }
        ensures kept { IfSome (jobs self.old) (λ js. OnOk result (IsKept js)) }
        ensures same { jobs self.new ≡ jobs self.old }
        ensures cause { HasCause (faults self.old) (faults self.new) result };

    /// The head of the owner's job with this number.
    fn head(&mut self, alloc: Global, owner: &str, job: u32) -> Result<Option<JobHead>, KeepFault>
        ensures told { IfSome (jobs self.old) (λ js. IfOk result (λ head. head ≡ option_map (λ j. j.head) (job_of owner.now job js))) }
        ensures kept { IfSome (jobs self.old) (λ js. OnOk result (IsKept js)) }
        ensures same { jobs self.new ≡ jobs self.old }
        ensures cause { HasCause (faults self.old) (faults self.new) result };

    /// How many jobs the owner has.
    fn count(&mut self, owner: &str) -> Result<u32, KeepFault>
        ensures told { IfSome (jobs self.old) (λ js. IfOk result (λ n. n ≡ count_of owner.now js)) }
        ensures kept { IfSome (jobs self.old) (λ js. OnOk result (IsKept js)) }
        ensures same { jobs self.new ≡ jobs self.old }
        ensures cause { HasCause (faults self.old) (faults self.new) result };

    /// Adds a job behind the owner's others. Its key is new to the owner, who has fewer than 10,000 jobs; its number
    /// is their count plus 1, and its head counts its reports.
    fn add(&mut self, alloc: Global, job: &Job) -> Result<(), KeepFault>
        requires next { IfSome (jobs self.old) (IsNext (stored job.now)) }
        requires reports { job.now.head.reports ≡ vec_len job.now.reports }
        ensures added { IfSome (jobs self.old) (λ js. OnOk result (Tells (jobs self.new) (js ++ stored job.now ∷ []))) }
        ensures kept { IfSome (jobs self.new) (λ js. OnOk result (IsKept js)) }
        ensures err { OnErr result (jobs self.new ≡ jobs self.old) }
        ensures cause { HasCause (faults self.old) (faults self.new) result };

    /// File `n`, from 1, of the owner's job.
    fn file(
        &mut self,
        alloc: Global,
        owner: &str,
        job: u32,
        n: u32,
    ) -> Result<Option<JobFile>, KeepFault>
        ensures told { IfSome (jobs self.old) (λ js. IfOk result (λ file. file ≡ file_of owner.now job n js)) }
        ensures kept { IfSome (jobs self.old) (λ js. OnOk result (IsKept js)) }
        ensures same { jobs self.new ≡ jobs self.old }
        ensures cause { HasCause (faults self.old) (faults self.new) result };

    /// The reports of the owner's job, with their verdicts, in order.
    fn reports(
        &mut self,
        alloc: Global,
        owner: &str,
        job: u32,
    ) -> Result<Option<Vec<Judged>>, KeepFault>
        ensures told { IfSome (jobs self.old) (λ js. IfOk result (λ reports. listed reports ≡ option_map (λ j. j.reports) (job_of owner.now job js))) }
        ensures kept { IfSome (jobs self.old) (λ js. OnOk result (IsKept js)) }
        ensures same { jobs self.new ≡ jobs self.old }
        ensures cause { HasCause (faults self.old) (faults self.new) result };

    /// Sets the verdict and the note on report `n`, from 1, of the owner's job, closed or not. Answers false where
    /// there is no such job or report.
    fn judge(
        &mut self,
        alloc: Global,
        owner: &str,
        job: u32,
        n: u32,
        verdict: Verdict,
        note: &str,
    ) -> Result<bool, KeepFault>
        ensures told { IfSome (jobs self.old) (λ js. IfOk result (λ done. done ≡ is_some (report_of owner.now job n js))) }
        ensures judged { IfSome (jobs self.old) (λ js. OnOk result (Tells (jobs self.new) (judged owner.now job n verdict note.now js))) }
        ensures kept { IfSome (jobs self.new) (λ js. OnOk result (IsKept js)) }
        ensures err { OnErr result (jobs self.new ≡ jobs self.old) }
        ensures cause { HasCause (faults self.old) (faults self.new) result };

    /// Closes the owner's job. Answers false where there is no such job.
    fn close(&mut self, owner: &str, job: u32) -> Result<bool, KeepFault>
        ensures told { IfSome (jobs self.old) (λ js. IfOk result (λ done. done ≡ is_some (job_of owner.now job js))) }
        ensures closed { IfSome (jobs self.old) (λ js. OnOk result (Tells (jobs self.new) (closed owner.now job js))) }
        ensures kept { IfSome (jobs self.new) (λ js. OnOk result (IsKept js)) }
        ensures err { OnErr result (jobs self.new ≡ jobs self.old) }
        ensures cause { HasCause (faults self.old) (faults self.new) result };
}
