// Requests that are answered over the jobs.
ghost use Rattle.std.specs.Prelude.{◌≡◌, IfOk, IfSome, OnErr};
ghost use Rattle.job_core.specs.Keeper.{HasCause};
ghost use Rattle.review_http.specs.Replies.{Replies};

use job_core::{KeepFault, Keeper, Work};
use job_replies::{
    Answer, add_reply, close_reply, file_reply, head_reply, judge_reply, reports_reply,
};
use review_request::{Ask, Request};
use std::alloc::Global;

/// Answers a whole request over the jobs of a keeper, and changes them as it asks. `Failed` comes
/// only where the keeper's count of faults rose in this call; the other error is want of memory.
/// After an error the jobs are as before.
#[tactic(auto, using(crate::proofs::ShownLemmas::shown))]
pub fn reply<K: Keeper, W: Work>(
    alloc: Global,
    keeper: &mut K,
    work: &mut W,
    request: Request,
) -> Result<Answer, KeepFault>
    ensures told { IfSome (K.jobs keeper.old) (λ js. IfOk result (Replies W.gives request js (K.jobs keeper.new))) }
    ensures same { OnErr result (K.jobs keeper.new ≡ K.jobs keeper.old) }
    ensures cause { HasCause (K.faults keeper.old) (K.faults keeper.new) result }
{
    let Request {
        ask,
        owner,
        key,
        body,
    } = request;
    match ask {
        Ask::Add => add_reply(alloc, keeper, work, owner, key, body),
        Ask::Head { job } => head_reply(alloc, keeper, owner.as_str(), job),
        Ask::File { job, n } => file_reply(alloc, keeper, owner.as_str(), job, n),
        Ask::Reports { job } => reports_reply(alloc, keeper, owner.as_str(), job),
        Ask::Judge { job, n } => {
            judge_reply(alloc, keeper, owner.as_str(), job, n, body.as_slice())
        }
        Ask::Close { job } => close_reply(alloc, keeper, owner.as_str(), job),
    }
}
