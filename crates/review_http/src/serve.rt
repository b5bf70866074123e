// One request of a connection, served.
ghost use Rattle.std.specs.Prelude.{◌≡◌, IfOk, OnErr};
ghost use Rattle.job_replies.specs.Said.{Is};
ghost use Rattle.review_http.specs.Serves.{Answered, Delivers, ServeCause, Serves, fault_said};

use crate::refusals::refusal_reply;
use crate::replies::reply;
use conn_ports::{Conn, PortFault};
use job_core::{KeepFault, Keeper, Work};
use job_replies::Answer;
use review_answers::{Code, error_body};
use review_request::{Request, Stop, read_request};
use std::alloc::{AllocError, Global};

/// Why a connection got no whole answer.
#[derive(Clone, Copy, Debug, PartialEq, Eq)]
pub enum ServeFault {
    /// The connection failed. Its count of faults rose in this call.
    Conn,
    /// No memory was at hand.
    Memory,
}

impl From<AllocError> for ServeFault {
    ghost use Rattle.std.specs.Prelude.{◌≡◌};
    ghost use Rattle.review_http.specs.declared.serve.ServeFault.TheVariants.{Memory};

    ghost from_gives = { λ _ e. e ≡ Memory };

    fn from(_: AllocError) -> Self {
        ServeFault::Memory
    }
}

impl From<PortFault> for ServeFault {
    ghost use Rattle.std.specs.Prelude.{◌≡◌};
    ghost use Rattle.review_http.specs.Serves.{serve_fault};

    ghost from_gives = { λ fault e. e ≡ serve_fault fault };

    fn from(fault: PortFault) -> Self {
        match fault {
            PortFault::Failed => ServeFault::Conn,
            PortFault::Memory => ServeFault::Memory,
        }
    }
}

// The answer where the keeper failed or memory lacked.
fn fault_reply(alloc: Global, fault: KeepFault) -> Result<Answer, AllocError>
    ensures { IfOk result (Is (fault_said fault)) }
{
    match fault {
        KeepFault::Failed => Ok(Answer {
            code: Code::ServiceUnavailable,
            body: error_body(alloc, "keeper")?,
        }),
        KeepFault::Memory => Ok(Answer {
            code: Code::InsufficientStorage,
            body: error_body(alloc, "memory")?,
        }),
    }
}

// Sends an answer, and gives its status.
#[tactic(auto, using(crate::proofs::ServeLemmas::unsent, crate::proofs::ServeLemmas::failed))]
fn deliver<C: Conn>(alloc: Global, conn: &mut C, said: &Answer) -> Result<u16, ServeFault>
    ensures sent { Delivers said.now.code said.now.body.items (C.link conn.old) (C.link conn.new) result }
    ensures cause { ServeCause (C.faults conn.old) (C.faults conn.new) result }
{
    let bytes = review_answers::answer(alloc, said.code, said.body.as_slice())?;
    conn.write(bytes.as_slice())?;
    Ok(said.code.number())
}

// The answer to a whole request, over the jobs.
#[tactic(auto, using(crate::proofs::ServeLemmas::by_reply, crate::proofs::ServeLemmas::by_fault))]
fn answered<K: Keeper, W: Work>(
    alloc: Global,
    keeper: &mut K,
    work: &mut W,
    request: Request,
) -> Result<Answer, AllocError>
    ensures answer { IfOk result (Answered W.gives request (K.faults keeper.old) (K.faults keeper.new) (K.jobs keeper.old) (K.jobs keeper.new)) }
    ensures same { OnErr result (K.jobs keeper.new ≡ K.jobs keeper.old) }
{
    match reply(alloc, keeper, work, request) {
        Ok(answer) => Ok(answer),
        Err(fault) => fault_reply(alloc, fault),
    }
}

/// Reads one request from a connection, answers it over the jobs of a keeper, and gives the status
/// that it sent. `Conn` comes only where the connection's count of faults rose in this call, and
/// where it rose nothing else but want of memory comes.
pub fn serve_one<C: Conn, K: Keeper, W: Work>(
    alloc: Global,
    conn: &mut C,
    keeper: &mut K,
    work: &mut W,
) -> Result<u16, ServeFault>
    ensures serves { Serves W.gives (C.link conn.old) (C.link conn.new) (K.faults keeper.old) (K.faults keeper.new) (K.jobs keeper.old) (K.jobs keeper.new) result }
    ensures cause { ServeCause (C.faults conn.old) (C.faults conn.new) result }
{
    let said = match read_request(alloc, conn) {
        Ok(request) => answered(alloc, keeper, work, request)?,
        Err(Stop::Refused(refusal)) => refusal_reply(alloc, refusal)?,
        Err(Stop::Conn) => return Err(ServeFault::Conn),
        Err(Stop::Memory) => fault_reply(alloc, KeepFault::Memory)?,
    };
    deliver(alloc, conn, &said)
}
