// A peer on loopback.
use crate::shown::{put_bytes, put_count, put_done, put_fault};
use conn_ports::{Conn, Listener, TcpConn, TcpListenerPort};
use std::alloc::{AllocError, Global};
use std::io;
use std::io::{Read, Write};
use std::net::{Ipv4Addr, Shutdown, TcpStream};

// Opens the first port that is free, from a few.
fn opened(listener: &mut TcpListenerPort) -> u16 {
    for port in 28600..28700u16 {
        if listener.open(port).is_ok() {
            return port;
        }
    }
    0
}

// A peer that says `ask` and nothing more.
fn peer(rt: &HostRuntime, port: u16) -> io::Result<TcpStream> {
    let mut peer = TcpStream::connect(rt, (Ipv4Addr::LOCALHOST, port))?;
    peer.write_all(b"ask")?;
    peer.shutdown(Shutdown::Write)?;
    Ok(peer)
}

// Reads one byte, more, and the end; then answers.
fn answer(alloc: Global, conn: &mut TcpConn, out: &mut String) -> Result<(), AllocError> {
    let mut into = Vec::new(alloc);
    put_count(out, conn.read(1, &mut into))?;
    put_count(out, conn.read(9, &mut into))?;
    put_count(out, conn.read(9, &mut into))?;
    put_bytes(out, into.as_slice())?;
    put_done(out, conn.write(b"answer"))
}

// The next connection is read and answered.
fn serve(
    alloc: Global,
    listener: &mut TcpListenerPort,
    out: &mut String,
) -> Result<(), AllocError> {
    match listener.next() {
        Ok(mut conn) => {
            answer(alloc, &mut conn, out)?;
            listener.ended(conn);
            Ok(())
        }
        Err(fault) => put_fault(out, fault),
    }
}

/// What a port answers before it is open, and then what it and its peer read.
pub fn loopback(rt: HostRuntime) -> io::Result<String> {
    let alloc = rt.alloc();
    let mut out = String::from_str(alloc, "loopback  =>")?;
    let mut listener = TcpListenerPort::new(rt, alloc)?;
    serve(alloc, &mut listener, &mut out)?;
    let port = opened(&mut listener);
    let mut peer = peer(&rt, port)?;
    serve(alloc, &mut listener, &mut out)?;
    let mut read = Vec::new(alloc);
    peer.read_to_end(&mut read)?;
    put_bytes(&mut out, read.as_slice())?;
    Ok(out)
}
