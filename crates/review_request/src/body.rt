// The body of a request.
ghost use Rattle.std.specs.Prelude.{◌≡◌, ◌≤◌, ◌<◌, ◌+◌, [], IfOk, OnErr, IsTrue, IsFalse, vec_len};
ghost use Rattle.io_ports.specs.Causes.{HasCause};
ghost use Rattle.review_request.specs.Taken.{TookAll, TookFrom, EndsAt};

use conn_ports::{Conn, PortFault};

/// Reads bytes of this number, and answers whether they came before the input ended.
#[tactic(auto, using(crate::proofs::TakenLemmas::took_then, crate::proofs::TakenLemmas::took_nothing, crate::proofs::TakenLemmas::ended_then))]
pub fn read_body<C: Conn>(
    conn: &mut C,
    length: usize,
    bytes: &mut Vec<u8>,
) -> Result<bool, PortFault>
    requires { bytes.old.items ≡ [] }
    ensures whole { IfOk result (λ whole. IsTrue whole → vec_len bytes.new ≡ length) }
    ensures short { IfOk result (λ whole. IsFalse whole → vec_len bytes.new < length) }
    ensures ended { IfOk result (λ whole. IsFalse whole → EndsAt (C.link conn.old) (C.link conn.new)) }
    ensures most { vec_len bytes.new ≤ length }
    ensures took { TookAll bytes.new.items (C.link conn.old) (C.link conn.new) }
    ensures cause { HasCause (C.faults conn.old) (C.faults conn.new) result }
{
    'more: while bytes.len() < length {
        if !read_more(conn, length - bytes.len(), bytes)? {
            return Ok(false);
        }
    }
    Ok(true)
}

// Reads at most this many bytes more, and answers whether any came.
#[tactic(auto, using(crate::proofs::TakenLemmas::took_by_read, crate::proofs::TakenLemmas::ended_by_read))]
fn read_more<C: Conn>(conn: &mut C, max: usize, bytes: &mut Vec<u8>) -> Result<bool, PortFault>
    requires { 0 < max }
    ensures some { IfOk result (λ some. IsTrue some → vec_len bytes.old < vec_len bytes.new) }
    ensures none { IfOk result (λ some. IsFalse some → bytes.new.items ≡ bytes.old.items) }
    ensures ended { IfOk result (λ some. IsFalse some → EndsAt (C.link conn.old) (C.link conn.new)) }
    ensures most { vec_len bytes.new ≤ vec_len bytes.old + max }
    ensures took { TookFrom bytes.old.items bytes.new.items (C.link conn.old) (C.link conn.new) }
    ensures same { OnErr result (bytes.new.items ≡ bytes.old.items) }
    ensures cause { HasCause (C.faults conn.old) (C.faults conn.new) result }
{
    let count = conn.read(max, bytes)?;
    Ok(count > 0)
}
