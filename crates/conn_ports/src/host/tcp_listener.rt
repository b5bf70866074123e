// A TCP port on loopback.
ghost use Rattle.std.specs.Prelude.{◌≡◌};

use crate::host::faults::refused;
use crate::host::tcp_conn::TcpConn;
use crate::listener::Listener;
use io_ports::PortFault;
use std::alloc::{AllocError, Global};
use std::io;
use std::io::{Error, ErrorKind};
use std::net::{Ipv4Addr, TcpListener, TcpStream};

/// A TCP port on loopback. A `next` before an `open` that answered Ok is a fault.
#[derive(Drop)]
pub struct TcpListenerPort {
    rt: HostRuntime,
    alloc: Global,
    listener: Option<TcpListener>,
    faults: u64,
}

impl TcpListenerPort {
    /// A port that isn't open yet. The only error is want of memory, and none comes.
    pub fn new(rt: HostRuntime, alloc: Global) -> Result<TcpListenerPort, AllocError> {
        Ok(TcpListenerPort {
            rt,
            alloc,
            listener: None,
            faults: 0,
        })
    }

    // The stream of the next peer.
    fn accept(&self) -> io::Result<TcpStream> {
        match &self.listener {
            Some(listener) => Ok(listener.accept()?.0),
            None => Err(Error::from(ErrorKind::NotConnected)),
        }
    }
}

impl Listener for TcpListenerPort {
    ghost use Rattle.std.specs.Prelude.{None};

    type Link = TcpConn;

    ghost given = { λ _. None };

    ghost spare = { λ _. 1 };

    ghost faults = { λ l. l.faults };

    fn open(&mut self, port: u16) -> Result<(), PortFault> {
        match TcpListener::bind(&self.rt, (Ipv4Addr::LOCALHOST, port)) {
            Ok(listener) => {
                self.listener = Some(listener);
                Ok(())
            }
            Err(error) => Err(refused(&mut self.faults, error)),
        }
    }

    fn next(&mut self) -> Result<TcpConn, PortFault> {
        match self.accept() {
            Ok(stream) => Ok(TcpConn::new(self.alloc, stream)?),
            Err(error) => Err(refused(&mut self.faults, error)),
        }
    }

    fn ended(&mut self, link: TcpConn) {
        link.close();
    }
}
