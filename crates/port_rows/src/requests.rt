// Rows of requests.
use crate::shown::{put_bytes, put_word};
use conn_ports::CalmConn;
use review_request::{Ask, Refusal, Request, Stop, read_request};
use std::alloc::{AllocError, Global};

// The word of a refusal.
fn refusal_word(refusal: Refusal) -> &'static str {
    match refusal {
        Refusal::LongHead => "LongHead",
        Refusal::BadHead => "BadHead",
        Refusal::NoRoute => "NoRoute",
        Refusal::WrongMethod => "WrongMethod",
        Refusal::BadOwner => "BadOwner",
        Refusal::NoLength => "NoLength",
        Refusal::BadLength => "BadLength",
        Refusal::LongBody => "LongBody",
        Refusal::BadBody => "BadBody",
    }
}

// Adds why no request came.
fn put_stop(out: &mut String, stop: Stop) -> Result<(), AllocError> {
    match stop {
        Stop::Refused(refusal) => put_word(out, refusal_word(refusal)),
        Stop::Conn => put_word(out, "Conn"),
        Stop::Memory => put_word(out, "Memory"),
    }
}

// Adds what is asked.
fn put_ask(out: &mut String, ask: Ask) -> Result<(), AllocError> {
    write!(out, " {ask:?}")
}

// Adds a request.
fn put_request(out: &mut String, request: &Request) -> Result<(), AllocError> {
    put_ask(out, request.ask)?;
    put_bytes(out, request.owner.as_str().as_bytes())?;
    put_bytes(out, request.key.as_str().as_bytes())?;
    put_bytes(out, request.body.as_slice())
}

/// The request that is read of these bytes, seven a piece, and what is left, or why none is.
pub fn request(alloc: Global, input: Vec<u8>, out: &mut String) -> Result<(), AllocError> {
    let mut conn = CalmConn::new(input, 7);
    match read_request(alloc, &mut conn) {
        Ok(request) => {
            put_request(out, &request)?;
            put_bytes(out, conn.left())
        }
        Err(stop) => put_stop(out, stop),
    }
}
