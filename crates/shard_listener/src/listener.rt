//! What accepts connections of the network.

ghost use Rattle.std.specs.Prelude.{◌≡◌, ◌≤◌};
ghost use Rattle.gateway_words.specs.Causes.{Rose};
ghost use Rattle.shard_service.specs.Serving.{one_more};
ghost use Rattle.shard_listener.specs.Counts.{accepted_count, failed_count};

use crate::socket::Socket;
use shard_service::{Accept, Failed};
use std::io::{self, ErrorKind};
use std::net::{Net, TcpListener, TcpStream};
use std::sync::Wait;
use std::time::Clock;

/// What accepts connections at an address of the network. It keeps the runtime's value.
#[derive(Drop)]
pub struct TcpAccept<R> {
    rt: R,
    listener: Option<TcpListener>,
    accepted: u64,
    faults: u64,
}

impl<R: Net<Listener = TcpListener, Stream = TcpStream> + Clock + Copy + Drop> TcpAccept<R> {
    /// One that listens at no address yet.
    pub fn new(rt: R) -> Self
        ensures accepted { accepted_count result ≡ 0 }
        ensures failed { failed_count result ≡ 0 }
    {
        TcpAccept {
            rt,
            listener: None,
            accepted: 0,
            faults: 0,
        }
    }

    /// The port at which it listens, if it does: that which the system picked for port 0.
    pub fn port(&self) -> Option<u16> {
        let addr = self.listener.as_ref()?.local_addr().ok()?;
        Some(addr.port())
    }

    // Counts a connection.
    fn count(&mut self)
        ensures accepted { accepted_count self.new ≡ one_more (accepted_count self.old) }
        ensures failed { failed_count self.new ≡ failed_count self.old }
    {
        if self.accepted < u64::MAX {
            self.accepted += 1;
        }
    }

    // A failure, which is counted.
    fn failed(&mut self) -> Failed
        ensures accepted { accepted_count self.new ≡ accepted_count self.old }
        ensures later { failed_count self.old ≤ failed_count self.new }
        ensures cause { Rose (failed_count self.old) (failed_count self.new) }
    {
        self.faults = self.faults.saturating_add(1);
        Failed
    }

    // The next connection that its client did not give up before it was accepted.
    fn waited<W: Wait>(&self, rt: &W) -> io::Result<Socket<R>> {
        for _ in rt.forever() {
            if let Some(io) = self.next()? {
                return Ok(io);
            }
        }
        unreachable!()
    }

    // The next connection; None for one that its client gave up before it was accepted.
    fn next(&self) -> io::Result<Option<Socket<R>>> {
        let Some(listener) = &self.listener else {
            return Err(io::Error::from(ErrorKind::NotConnected));
        };
        match listener.accept() {
            Ok((stream, _)) => Ok(Socket::new(stream, self.rt).ok()),
            Err(error) if is_of_one_client(error.kind()) => Ok(None),
            Err(error) => Err(error),
        }
    }
}

impl<R: Net<Listener = TcpListener, Stream = TcpStream> + Clock + Copy + Drop> Accept
    for TcpAccept<R> {
    type Stream = Socket<R>;

    ghost accepted = { accepted_count };

    ghost faults = { failed_count };

    fn listen<W: Wait>(&mut self, _rt: &W, addr: &str) -> Result<(), Failed> {
        match TcpListener::bind(&self.rt, addr) {
            Ok(listener) => {
                self.listener = Some(listener);
                Ok(())
            }
            Err(_) => Err(self.failed()),
        }
    }

    fn accept<W: Wait>(&mut self, rt: &W) -> Result<Socket<R>, Failed> {
        match self.waited(rt) {
            Ok(io) => {
                self.count();
                Ok(io)
            }
            Err(_) => Err(self.failed()),
        }
    }
}

// Whether a failed `accept` speaks of one client alone.
fn is_of_one_client(kind: ErrorKind) -> bool {
    kind == ErrorKind::ConnectionAborted
        || kind == ErrorKind::ConnectionReset
        || kind == ErrorKind::Interrupted
}
