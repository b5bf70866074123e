// What is shown of a job.
ghost use Rattle.std.specs.Prelude.{◌≡◌, IfOk, IfSome};
ghost use Rattle.job_core.specs.Jobs.{file_of, job_of};
ghost use Rattle.job_core.specs.Keeper.{HasCause};
ghost use Rattle.job_replies.specs.Said.{Is, file_said, head_said, reports_said};

use crate::answer::{Answer, no_job};
use job_core::{KeepFault, Keeper};
use review_answers::{Code, file_body, head_body, reports_body};
use std::alloc::Global;

/// The short form of the owner's job, or that there is none.
pub fn head_reply<K: Keeper>(
    alloc: Global,
    keeper: &mut K,
    owner: &str,
    job: u32,
) -> Result<Answer, KeepFault>
    ensures told { IfSome (K.jobs keeper.old) (λ js. IfOk result (Is (head_said (job_of owner.now job js)))) }
    ensures same { K.jobs keeper.new ≡ K.jobs keeper.old }
    ensures cause { HasCause (K.faults keeper.old) (K.faults keeper.new) result }
{
    let Some(head) = keeper.head(alloc, owner, job)? else {
        return Ok(no_job(alloc)?);
    };
    let body = head_body(alloc, &head)?;
    Ok(Answer {
        code: Code::Fine,
        body,
    })
}

/// File `n`, from 1, of the owner's job: its path and what was written of it, or that there is
/// none.
pub fn file_reply<K: Keeper>(
    alloc: Global,
    keeper: &mut K,
    owner: &str,
    job: u32,
    n: u32,
) -> Result<Answer, KeepFault>
    ensures told { IfSome (K.jobs keeper.old) (λ js. IfOk result (Is (file_said (file_of owner.now job n js)))) }
    ensures same { K.jobs keeper.new ≡ K.jobs keeper.old }
    ensures cause { HasCause (K.faults keeper.old) (K.faults keeper.new) result }
{
    let Some(file) = keeper.file(alloc, owner, job, n)? else {
        return Ok(no_job(alloc)?);
    };
    let body = file_body(alloc, &file)?;
    Ok(Answer {
        code: Code::Fine,
        body,
    })
}

/// The reports of the owner's job with their verdicts and notes, or that there is no such job.
pub fn reports_reply<K: Keeper>(
    alloc: Global,
    keeper: &mut K,
    owner: &str,
    job: u32,
) -> Result<Answer, KeepFault>
    ensures told { IfSome (K.jobs keeper.old) (λ js. IfOk result (Is (reports_said (job_of owner.now job js)))) }
    ensures same { K.jobs keeper.new ≡ K.jobs keeper.old }
    ensures cause { HasCause (K.faults keeper.old) (K.faults keeper.new) result }
{
    let Some(reports) = keeper.reports(alloc, owner, job)? else {
        return Ok(no_job(alloc)?);
    };
    let body = reports_body(alloc, reports.as_slice())?;
    Ok(Answer {
        code: Code::Fine,
        body,
    })
}
