// New jobs.
ghost use Rattle.std.specs.Prelude.{◌≡◌, ◌<◌, IfOk, IfSome, None, OnErr};
ghost use Rattle.io_ports.specs.Files.{IsTree};
ghost use Rattle.job_core.specs.Jobs.{count_of, keyed_job};
ghost use Rattle.job_core.specs.Keeper.{HasCause};
ghost use Rattle.job_replies.specs.Added.{Adds, Enters, Stores, Works, again_said};
ghost use Rattle.job_replies.specs.Said.{Is, refused};

use crate::answer::{Answer, bad_body, conflict};
use crate::received::{Received, receive};
use io_ports::{Bytes, PathText};
use job_core::{Job, JobHead, KeepFault, Keeper, MAX_JOBS, Made, Work, WorkFault};
use review_answers::{Code, error_body, made_body};
use std::alloc::{AllocError, Global};

// The answer where a job with this head stands under the key.
fn again(alloc: Global, body: &[u8], head: &JobHead) -> Result<Answer, AllocError>
    ensures { IfOk result (Is (again_said body.now head.now)) }
{
    if body != head.request.as_slice() {
        return conflict(alloc, "key");
    }
    let body = made_body(alloc, head)?;
    Ok(Answer {
        code: Code::Created,
        body,
    })
}

// The work refuses the files or the settings with this text.
fn refused(alloc: Global, text: &str) -> Result<Answer, AllocError>
    ensures { IfOk result (Is (refused text.now)) }
{
    let body = error_body(alloc, text)?;
    Ok(Answer {
        code: Code::UnprocessableContent,
        body,
    })
}

// Stores what was made as the owner's next job.
fn store<K: Keeper>(
    alloc: Global,
    keeper: &mut K,
    owner: PathText,
    key: PathText,
    body: Vec<u8>,
    made: Made,
    count: u32,
) -> Result<Answer, KeepFault>
    requires room { count < 10000 }
    requires count { IfSome (K.jobs keeper.old) (λ js. count ≡ count_of owner js) }
    requires new_key { IfSome (K.jobs keeper.old) (λ js. keyed_job owner key js ≡ None) }
    ensures told { IfSome (K.jobs keeper.old) (λ js. IfOk result (Stores owner key body.items made js (K.jobs keeper.new))) }
    ensures same { OnErr result (K.jobs keeper.new ≡ K.jobs keeper.old) }
    ensures cause { HasCause (K.faults keeper.old) (K.faults keeper.new) result }
{
    let Made {
        status,
        edits,
        files,
        reports,
    } = made;
    let head = JobHead {
        job: count + 1,
        status,
        edits,
        reports: reports.len() as u64,
        closed: false,
        request: Bytes::new(body),
    };
    let body = made_body(alloc, &head)?;
    let job = Job {
        owner,
        key,
        head,
        files,
        reports,
    };
    keeper.add(alloc, &job)?;
    Ok(Answer {
        code: Code::Created,
        body,
    })
}

// Works on the files, and stores what is made.
fn work_on<K: Keeper, W: Work>(
    alloc: Global,
    keeper: &mut K,
    work: &mut W,
    owner: PathText,
    key: PathText,
    body: Vec<u8>,
    received: &Received,
    count: u32,
) -> Result<Answer, KeepFault>
    requires tree { IsTree received.now.files.items }
    requires room { count < 10000 }
    requires count { IfSome (K.jobs keeper.old) (λ js. count ≡ count_of owner js) }
    requires new_key { IfSome (K.jobs keeper.old) (λ js. keyed_job owner key js ≡ None) }
    ensures told { IfSome (K.jobs keeper.old) (λ js. IfOk result (Works (W.gives received.now.files.items received.now.settings) owner key body.items js (K.jobs keeper.new))) }
    ensures same { OnErr result (K.jobs keeper.new ≡ K.jobs keeper.old) }
    ensures cause { HasCause (K.faults keeper.old) (K.faults keeper.new) result }
{
    let settings = received.settings.as_str().as_bytes();
    match work.make(alloc, received.files.as_slice(), settings) {
        Ok(made) => store(alloc, keeper, owner, key, body, made, count),
        Err(WorkFault::Refused(text)) => Ok(refused(alloc, text.as_str())?),
        Err(WorkFault::Memory) => Err(KeepFault::Memory),
    }
}

// Answers a request by its key, or as the owner's next job.
#[tactic(auto, using(crate::proofs::AddLemmas::stands, crate::proofs::AddLemmas::full, crate::proofs::AddLemmas::worked, crate::proofs::AddLemmas::new_to))]
fn enter<K: Keeper, W: Work>(
    alloc: Global,
    keeper: &mut K,
    work: &mut W,
    owner: PathText,
    key: PathText,
    body: Vec<u8>,
    received: &Received,
) -> Result<Answer, KeepFault>
    requires { IsTree received.now.files.items }
    ensures told { IfSome (K.jobs keeper.old) (λ js. IfOk result (Enters (W.gives received.now.files.items received.now.settings) owner key body.items js (K.jobs keeper.new))) }
    ensures same { OnErr result (K.jobs keeper.new ≡ K.jobs keeper.old) }
    ensures cause { HasCause (K.faults keeper.old) (K.faults keeper.new) result }
{
    if let Some(head) = keeper.by_key(alloc, owner.as_str(), key.as_str())? {
        return Ok(again(alloc, body.as_slice(), &head)?);
    }
    let count = keeper.count(owner.as_str())?;
    if count >= MAX_JOBS {
        return Ok(conflict(alloc, "full")?);
    }
    work_on(alloc, keeper, work, owner, key, body, received, count)
}

/// Answers a request for a new job: the stored one where the owner's key stands with this body, and
/// else what the work makes of the body's files and settings, stored as the owner's next job.
pub fn add_reply<K: Keeper, W: Work>(
    alloc: Global,
    keeper: &mut K,
    work: &mut W,
    owner: PathText,
    key: PathText,
    body: Vec<u8>,
) -> Result<Answer, KeepFault>
    ensures told { IfSome (K.jobs keeper.old) (λ js. IfOk result (Adds W.gives owner key body.items js (K.jobs keeper.new))) }
    ensures same { OnErr result (K.jobs keeper.new ≡ K.jobs keeper.old) }
    ensures cause { HasCause (K.faults keeper.old) (K.faults keeper.new) result }
{
    match receive(alloc, body.as_slice())? {
        Some(received) => enter(alloc, keeper, work, owner, key, body, &received),
        None => Ok(bad_body(alloc)?),
    }
}
