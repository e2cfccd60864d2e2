//! A socket that connects while its owner does other things. The trusted edge: what goes over it is
//! told to no contract.

ghost use Rattle.std.specs.Prelude.{◌≤◌, length, IfOk, IfSome};

use mio::net;
use std::alloc::{AllocError, Global};
use std::io::{self, Error, ErrorKind, Read, Write};
use std::net::{Net, SocketAddr, TcpStream, ToSocketAddrs};
use std::time::{Clock, Duration, Instant};

// How long a read or a write waits, in milliseconds.
const WAIT_MS: u64 = 20;

// How long the request may take from the first call on, in seconds.
const MOST_SECONDS: u64 = 30;

// How many reads in a row may come back without a byte.
const MOST_QUIET: u32 = 1500;

// The most addresses of one name that are tried.
const MOST_ADDRESSES: usize = 32;

/// A socket to a place, a host with a port, from before its connect.
#[derive(Drop)]
pub(crate) struct Line {
    // The host and the port.
    place: String,
    // The addresses of the host, and how many of them were tried.
    addresses: Vec<SocketAddr>,
    tried: usize,
    stream: Option<TcpStream>,
    // When the first call was made, and whether the peer took a byte.
    begun: Option<Instant>,
    has_sent: bool,
    // How many reads in a row came back without a byte.
    quiet: u32,
}

impl Line {
    // A line to an authority; without a port it goes to port 80. All memory is taken here.
    pub(crate) fn new(alloc: Global, authority: &str) -> Result<Line, AllocError> {
        Ok(Line {
            place: place_of(alloc, authority)?,
            addresses: Vec::with_capacity(alloc, MOST_ADDRESSES)?,
            tried: 0,
            stream: None,
            begun: None,
            has_sent: false,
            quiet: 0,
        })
    }

    // How many of the bytes the peer took, or None where it took none yet. The first call looks the
    // host up and begins to connect; each address is tried in turn.
    pub(crate) fn write<R: Net + Clock>(
        &mut self,
        net: &R,
        bytes: &[u8],
    ) -> io::Result<Option<usize>>
        ensures { IfOk result (λ taken. IfSome taken (λ n. (1 ≤ n) × (n ≤ length bytes.now))) }
    {
        self.check_time(net)?;
        let Some(stream) = &mut self.stream else {
            self.look_up(net)?;
            self.connect_next(net)?;
            return Ok(None);
        };
        match stream.write(bytes) {
            Ok(0) => Err(Error::from(ErrorKind::WriteZero)),
            Ok(count) => {
                self.has_sent = true;
                Ok(Some(count))
            }
            Err(error) if is_wait(error.kind()) => Ok(None),
            Err(error) if self.has_sent => Err(error),
            Err(_) => {
                self.connect_next(net)?;
                Ok(None)
            }
        }
    }

    // How many bytes were put at the front of a buffer, 0 at the end, or None where none came yet.
    pub(crate) fn read(&mut self, buf: &mut [u8]) -> io::Result<Option<usize>>
        ensures { IfOk result (λ came. IfSome came (λ n. n ≤ length buf.old)) }
    {
        let Some(stream) = &mut self.stream else {
            return Err(Error::from(ErrorKind::NotConnected));
        };
        match stream.read(buf) {
            Ok(count) => {
                self.quiet = 0;
                Ok(Some(count))
            }
            Err(error) if is_wait(error.kind()) && self.quiet < MOST_QUIET - 1 => {
                self.quiet += 1;
                Ok(None)
            }
            Err(error) => Err(error),
        }
    }

    // Refuses where the request isn't sent within its time.
    fn check_time<R: Clock>(&mut self, net: &R) -> io::Result<()> {
        let now = Instant::now(net)?;
        let begun = *self.begun.get_or_insert(now);
        if now.duration_since(begun) > Duration::from_secs(MOST_SECONDS) {
            return Err(Error::from(ErrorKind::TimedOut));
        }
        Ok(())
    }

    // Looks the host up, once. It may take as long as the system's resolver does.
    fn look_up<R: Net>(&mut self, net: &R) -> io::Result<()> {
        if !self.addresses.is_empty() {
            return Ok(());
        }
        for address in self
            .place
            .as_str()
            .to_socket_addrs(net)?
            .take(MOST_ADDRESSES)
        {
            self.addresses.push(address)?;
        }
        Ok(())
    }

    // Begins to connect to the next address; where none is left, the connection has failed.
    fn connect_next<R: Net>(&mut self, net: &R) -> io::Result<()> {
        self.stream = None;
        let Some(address) = self.addresses.get(self.tried) else {
            return Err(Error::from(ErrorKind::NotConnected));
        };
        self.tried += 1;
        // One that is refused at once is passed over by the next call.
        self.stream = connecting(net, *address).ok();
        Ok(())
    }
}

// An authority with its port, which is 80 where it names none.
fn place_of(alloc: Global, authority: &str) -> Result<String, AllocError> {
    let mut place = String::from_str(alloc, authority)?;
    let has_port = match authority.rsplit_once(':') {
        Some((_, port)) => !port.contains(']'),
        None => false,
    };
    if !has_port {
        place.push_str(":80")?;
    }
    Ok(place)
}

// Whether nothing came or went within the time limit, or a signal interrupted the call.
fn is_wait(kind: ErrorKind) -> bool {
    matches!(
        kind,
        ErrorKind::WouldBlock | ErrorKind::TimedOut | ErrorKind::Interrupted
    )
}

// A socket that connects, and whose reads and writes, the first too, wait for at most 20 ms.
fn connecting<R: Net>(net: &R, address: SocketAddr) -> io::Result<TcpStream> {
    let stream = TcpStream::from(net::TcpStream::connect(net, address)?);
    stream.set_nodelay(true)?;
    stream.set_nonblocking(false)?;
    let wait = Duration::from_millis(WAIT_MS);
    stream.set_read_timeout(Some(wait))?;
    stream.set_write_timeout(Some(wait))?;
    Ok(stream)
}

#[cfg(test)]
mod tests {
    use super::*;
    use std::net::{Ipv4Addr, TcpListener};
    use std::test::Fail;

    // A line to a listener, over which a byte went.
    fn line_to(rt: &HostRuntime, listener: &TcpListener) -> Result<Line, Fail> {
        let place = format!(in rt.alloc(); "127.0.0.1:{}", listener.local_addr()?.port())?;
        let mut line = Line::new(rt.alloc(), place.as_str())?;
        for _ in 0..100u64 {
            if line.write(rt, b"a")?.is_some() {
                return Ok(line);
            }
        }
        Err("no byte was taken".into())
    }

    // After how many silent reads the line fails.
    fn patience(line: &mut Line) -> Result<u64, Fail> {
        let mut piece = [0; 10];
        for count in 0..10u64 {
            if line.read(&mut piece).is_err() {
                return Ok(count);
            }
        }
        Err("it waits on and on".into())
    }

    // The peer says nothing. All but four of the silent reads that are allowed are taken as made.
    #[test]
    fn silence_has_an_end(rt: HostRuntime) -> Result<(), Fail> {
        let listener = TcpListener::bind(&rt, SocketAddr::from((Ipv4Addr::LOCALHOST, 0)))?;
        let mut line = line_to(&rt, &listener)?;
        line.quiet = MOST_QUIET - 4;
        assert_eq!(rt; patience(&mut line)?, 3);
        Ok(())
    }

    // A line that began so many seconds ago, and took no byte yet.
    fn begun_before(rt: &HostRuntime, seconds: u64) -> Result<Line, Fail> {
        let mut line = Line::new(rt.alloc(), "127.0.0.1:1")?;
        line.begun = Instant::now(rt)?.checked_sub(Duration::from_secs(seconds));
        Ok(line)
    }

    // The first call of a line that began before its time is up looks the host up, and a call behind
    // its time is refused.
    #[test]
    fn a_request_has_its_time(rt: HostRuntime) -> Result<(), Fail> {
        assert!(rt;
            begun_before(&rt, MOST_SECONDS - 2)?
                .write(&rt, b"a")
                .is_ok()
        );
        assert!(rt;
            begun_before(&rt, MOST_SECONDS + 1)?
                .write(&rt, b"a")
                .is_err()
        );
        Ok(())
    }
}
