// Changes of a job.
ghost use Rattle.std.specs.Prelude.{◌≡◌, ◌&&◌, IfOk, IfSome, OnErr, nat_le};
ghost use Rattle.job_core.specs.Keeper.{HasCause};
ghost use Rattle.job_replies.specs.Said.{Closes, Judged, Judges, closed_text};

use crate::answer::{Answer, bad_body, conflict, no_job};
use job_core::{JobHead, KeepFault, Keeper};
use review_answers::{Code, head_body, judged_body};
use review_bodies::{Judgement, read_judgement};
use std::alloc::{AllocError, Global};

/// Sets the verdict and the note of a body on report `n`, from 1, of the owner's job, unless the
/// job is closed.
pub fn judge_reply<K: Keeper>(
    alloc: Global,
    keeper: &mut K,
    owner: &str,
    job: u32,
    n: u32,
    body: &[u8],
) -> Result<Answer, KeepFault>
    ensures told { IfSome (K.jobs keeper.old) (λ js. IfOk result (Judges owner.now job n body.now js (K.jobs keeper.new))) }
    ensures same { OnErr result (K.jobs keeper.new ≡ K.jobs keeper.old) }
    ensures cause { HasCause (K.faults keeper.old) (K.faults keeper.new) result }
{
    match read_judgement(alloc, body)? {
        Some(judgement) => judge(alloc, keeper, owner, job, n, &judgement),
        None => Ok(bad_body(alloc)?),
    }
}

// Whether a job has a report with this number, from 1.
fn has_report(head: &JobHead, n: u32) -> bool
    ensures { result ≡ nat_le 1 n && nat_le n head.now.reports }
{
    n > 0 && u64::from(n) <= head.reports
}

// Sets a verdict with its note on a report.
fn judge<K: Keeper>(
    alloc: Global,
    keeper: &mut K,
    owner: &str,
    job: u32,
    n: u32,
    judgement: &Judgement,
) -> Result<Answer, KeepFault>
    ensures told { IfSome (K.jobs keeper.old) (λ js. IfOk result (Judged owner.now job n judgement.now js (K.jobs keeper.new))) }
    ensures same { OnErr result (K.jobs keeper.new ≡ K.jobs keeper.old) }
    ensures cause { HasCause (K.faults keeper.old) (K.faults keeper.new) result }
{
    let missing = no_job(alloc)?;
    let Some(head) = keeper.head(alloc, owner, job)? else {
        return Ok(missing);
    };
    if head.closed {
        return if has_report(&head, n) {
            Ok(conflict(alloc, "closed")?)
        } else {
            Ok(missing)
        };
    }
    let body = judged_body(alloc, job, n)?;
    let verdict = judgement.verdict;
    if !keeper.judge(alloc, owner, job, n, verdict, judgement.note.as_str())? {
        return Ok(missing);
    }
    Ok(Answer {
        code: Code::Fine,
        body,
    })
}

// The body for a job that will be closed.
fn closed_body(alloc: Global, head: JobHead) -> Result<Vec<u8>, AllocError>
    ensures { IfOk result (λ body. body.items ≡ closed_text head) }
{
    let mut head = head;
    head.closed = true;
    head_body(alloc, &head)
}

/// Closes the owner's job, whether it is closed already or not, or answers that there is none.
pub fn close_reply<K: Keeper>(
    alloc: Global,
    keeper: &mut K,
    owner: &str,
    job: u32,
) -> Result<Answer, KeepFault>
    ensures told { IfSome (K.jobs keeper.old) (λ js. IfOk result (Closes owner.now job js (K.jobs keeper.new))) }
    ensures same { OnErr result (K.jobs keeper.new ≡ K.jobs keeper.old) }
    ensures cause { HasCause (K.faults keeper.old) (K.faults keeper.new) result }
{
    let missing = no_job(alloc)?;
    let Some(head) = keeper.head(alloc, owner, job)? else {
        return Ok(missing);
    };
    let body = closed_body(alloc, head)?;
    if !keeper.close(owner, job)? {
        return Ok(missing);
    }
    Ok(Answer {
        code: Code::Fine,
        body,
    })
}
