// A whole request.
ghost use Rattle.std.specs.Prelude.{◌≡◌};
ghost use Rattle.review_request.specs.Reading.{Reading};
ghost use Rattle.review_request.specs.Stops.{StopsBy};

use crate::body::read_body;
use crate::frame::frame_of;
use crate::head_bytes::read_head;
use crate::refusal::Refusal;
use crate::route::Ask;
use crate::stop::Stop;
use conn_ports::Conn;
use io_ports::PathText;
use std::alloc::Global;

/// A request that can be answered: what it asks for, whose it is, its key where it asks for a new
/// job, and its body.
#[derive(Drop)]
pub struct Request {
    pub ask: Ask,
    pub owner: PathText,
    pub key: PathText,
    pub body: Vec<u8>,
}

/// Reads one request from a connection: its head, of at most 16,384 bytes, and then as many bytes
/// as the head says, and none behind them. `Refused` comes exactly by the first of the refusals
/// that the bytes meet, and takes nothing behind the head but where the input ends inside the body.
pub fn read_request<C: Conn>(alloc: Global, conn: &mut C) -> Result<Request, Stop>
    ensures cause { StopsBy (C.faults conn.old) (C.faults conn.new) result }
    ensures reading { Reading (C.link conn.old) (C.link conn.new) result }
{
    let mut head = Vec::new(alloc);
    let end = read_head(conn, &mut head)?;
    let frame = frame_of(alloc, end, head.as_slice())?;
    let mut body = Vec::new(alloc);
    if !read_body(conn, frame.length, &mut body)? {
        return Err(Stop::Refused(Refusal::BadBody));
    }
    Ok(Request {
        ask: frame.ask,
        owner: frame.owner,
        key: frame.key,
        body,
    })
}
