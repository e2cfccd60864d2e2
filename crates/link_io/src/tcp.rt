//! Connections of the network. They tell nothing of what goes over them.

ghost use Rattle.std.specs.Prelude.{◌≡◌, []};

use crate::conn::{Conn, Dial, Sent, Step};
use crate::line::Line;
use crate::target::Target;
use std::alloc::{AllocError, Global};
use std::net::Net;
use std::time::Clock;

/// What makes connections of the network. It keeps the runtime's value, and the list of what was
/// dialed.
#[derive(Drop)]
pub struct TcpDial<R> {
    net: R,
    dialed: Vec<Target>,
}

/// A connection of the network. The first `send` begins to connect, to port 80 where the address names
/// none, and waits for nothing; later ones wait at most 20 ms. Each address of the host is tried in
/// turn. It fails where no byte was taken within 30 s, where 1,500 reads in a row met their time limit
/// of 20 ms, and where the network failed.
#[derive(Drop)]
pub struct TcpConn<R> {
    net: R,
    target: Target,
    number: u64,
    line: Line,
    faults: u64,
    waits: u64,
}

impl<R: Net + Clock + Copy + Send + Drop> TcpDial<R> {
    ghost use Rattle.link_io.specs.Tcp.{tcp_dialed};

    /// What makes connections by the network that is lent to it. It made none yet.
    pub fn new(alloc: Global, net: R) -> TcpDial<R>
        ensures { tcp_dialed result ≡ [] }
    {
        TcpDial {
            net,
            dialed: Vec::new(alloc),
        }
    }
}

impl<R: Net + Clock + Copy + Send + Sync + Drop> Dial for TcpDial<R> {
    ghost use Rattle.std.specs.Prelude.{None};
    ghost use Rattle.link_io.specs.Origin.{plain};
    ghost use Rattle.link_io.specs.Tcp.{tcp_dialed};

    type Link = TcpConn<R>;

    ghost dialed = { tcp_dialed };

    ghost origin = { λ _. plain None };

    fn dial(&mut self, alloc: Global, target: &Target) -> Result<TcpConn<R>, AllocError> {
        let link = TcpConn {
            net: self.net,
            target: target.copy(alloc)?,
            number: self.dialed.len() as u64,
            line: Line::new(alloc, target.url.authority())?,
            faults: 0,
            waits: 0,
        };
        self.dialed.push(target.copy(alloc)?)?;
        Ok(link)
    }
}

impl<R: Net + Clock + Drop> Conn for TcpConn<R> {
    ghost use Rattle.link_io.specs.Tcp.{tcp_facts, IsFromNet, tcp-tells};

    ghost facts = { tcp_facts };

    ghost from = { IsFromNet };

    fn send(&mut self, bytes: &[u8]) -> Sent {
        match self.line.write(&self.net, bytes) {
            Ok(Some(count)) => Sent::Took(count),
            Ok(None) => {
                self.waits = self.waits.saturating_add(1);
                Sent::NotYet
            }
            Err(_) => {
                self.faults = self.faults.saturating_add(1);
                Sent::Failed
            }
        }
    }

    fn step(&mut self, buf: &mut [u8]) -> Step {
        match self.line.read(buf) {
            Ok(Some(0)) => Step::End,
            Ok(Some(count)) => Step::Got(count),
            Ok(None) => {
                self.waits = self.waits.saturating_add(1);
                Step::NotYet
            }
            Err(_) => {
                self.faults = self.faults.saturating_add(1);
                Step::Failed
            }
        }
    }

    ghost front = { λ _. tt };

    ghost tells = { tcp-tells };
}

#[cfg(test)]
mod tests {
    use super::*;
    use crate::address::HttpUrl;
    use crate::target::Key;
    use digest_gate::Digest;
    use std::io::{Read, Write};
    use std::net::{Ipv4Addr, SocketAddr, TcpListener, TcpStream};
    use std::test::Fail;

    const REQUEST: &[u8] = b"GET / HTTP/1.0\r\n\r\n";

    fn listener(rt: &HostRuntime) -> Result<TcpListener, Fail> {
        Ok(TcpListener::bind(rt, SocketAddr::from((Ipv4Addr::LOCALHOST, 0)))?)
    }

    fn target(alloc: Global, text: &str) -> Result<Target, Fail> {
        Ok(Target {
            key: Key::Shard(Digest([0; 32])),
            url: HttpUrl::read(alloc, text).ok().ok_or("it is an address")?,
        })
    }

    // A connection to a host at a port.
    fn link(rt: &HostRuntime, host: &str, port: u16) -> Result<TcpConn<HostRuntime>, Fail> {
        let text = format!(in rt.alloc(); "http://{host}:{port}/")?;
        let target = target(rt.alloc(), text.as_str())?;
        Ok(TcpDial::new(rt.alloc(), *rt).dial(rt.alloc(), &target)?)
    }

    // Whether the whole request was taken, by calls that wait or take all of it.
    fn is_sent(link: &mut TcpConn<HostRuntime>) -> bool {
        for _ in 0..100u64 {
            match link.send(REQUEST) {
                Sent::Took(count) => return count == REQUEST.len(),
                Sent::NotYet => {}
                Sent::Failed => return false,
            }
        }
        false
    }

    // One step, and what it gave behind what came before.
    fn hear(link: &mut TcpConn<HostRuntime>, came: &mut Vec<u8>) -> Result<Step, Fail> {
        let mut piece = [0; 100];
        let answer = link.step(&mut piece);
        if let Step::Got(count) = answer {
            came.extend_from_slice(&piece[..count])?;
        }
        Ok(answer)
    }

    // Takes what comes until so many bytes are there; whether they came.
    fn hear_some(
        link: &mut TcpConn<HostRuntime>,
        came: &mut Vec<u8>,
        size: usize,
    ) -> Result<bool, Fail> {
        for _ in 0..10_000u64 {
            if came.len() >= size {
                return Ok(true);
            }
            match hear(link, came)? {
                Step::Got(_) | Step::NotYet => {}
                Step::End | Step::Failed => return Ok(false),
            }
        }
        Ok(false)
    }

    // The answer behind all bytes.
    fn last_answer(link: &mut TcpConn<HostRuntime>, came: &mut Vec<u8>) -> Result<Step, Fail> {
        for _ in 0..10_000u64 {
            match hear(link, came)? {
                Step::Got(_) | Step::NotYet => {}
                last => return Ok(last),
            }
        }
        Ok(Step::NotYet)
    }

    // The peer of a connection, which has read the request.
    fn accepted(listener: &TcpListener) -> Result<TcpStream, Fail> {
        let (mut peer, _) = listener.accept()?;
        let mut request = [0; 18];
        peer.read_exact(&mut request)?;
        if request.as_slice() != REQUEST {
            return Err("another request came".into());
        }
        Ok(peer)
    }

    // Whether pieces come as a peer at this host writes them, and then an end.
    fn comes_in_pieces(
        rt: &HostRuntime,
        host: &str,
        piece: &[u8],
        times: u64,
    ) -> Result<bool, Fail> {
        let listener = listener(rt)?;
        let mut link = link(rt, host, listener.local_addr()?.port())?;
        if !is_sent(&mut link) {
            return Ok(false);
        }
        let mut peer = accepted(&listener)?;
        let mut came = Vec::new(rt.alloc());
        let mut wanted = Vec::new(rt.alloc());
        for _ in 0..times {
            peer.write_all(piece)?;
            wanted.extend_from_slice(piece)?;
            hear_some(&mut link, &mut came, wanted.len())?;
        }
        drop(peer);
        let last = last_answer(&mut link, &mut came)?;
        Ok(last == Step::End && came.as_slice() == wanted.as_slice())
    }

    #[test]
    fn a_reply_comes_byte_by_byte(rt: HostRuntime) -> Result<(), Fail> {
        assert!(rt; comes_in_pieces(&rt, "127.0.0.1", b"a", 100)?);
        Ok(())
    }

    // So many bytes.
    fn letters(alloc: Global, size: usize) -> Result<Vec<u8>, Fail> {
        let mut letters = Vec::new(alloc);
        letters.resize(size, b'x')?;
        Ok(letters)
    }

    const PIECE: usize = 65_536;

    #[test]
    fn a_reply_comes_in_pieces_of_64_kib(rt: HostRuntime) -> Result<(), Fail> {
        let piece = letters(rt.alloc(), PIECE)?;
        assert!(rt; comes_in_pieces(&rt, "127.0.0.1", &piece, 4)?);
        Ok(())
    }

    // Where the name has an address of each version, that of version 6 refuses.
    #[test]
    fn each_address_of_a_name_is_tried(rt: HostRuntime) -> Result<(), Fail> {
        assert!(rt; comes_in_pieces(&rt, "localhost", b"abc", 1)?);
        Ok(())
    }

    // Whether a connection fails whose peer leaves behind some bytes, the request unread.
    fn fails_behind(rt: &HostRuntime, bytes: &[u8]) -> Result<bool, Fail> {
        let listener = listener(rt)?;
        let mut link = link(rt, "127.0.0.1", listener.local_addr()?.port())?;
        if !is_sent(&mut link) {
            return Ok(false);
        }
        let (mut peer, _) = listener.accept()?;
        peer.write_all(bytes)?;
        let mut came = Vec::new(rt.alloc());
        hear_some(&mut link, &mut came, bytes.len())?;
        drop(peer);
        let last = last_answer(&mut link, &mut came)?;
        Ok(last == Step::Failed && came.as_slice() == bytes)
    }

    // Before a reply, within its head, and within its body.
    const FRONTS: [&[u8]; 3] = [
        b"",
        b"HTTP/1.1 200 O",
        b"HTTP/1.1 200 OK\r\nContent-Length: 9\r\n\r\n\x81\xa6sh",
    ];

    #[test]
    fn a_reset_is_a_failure(rt: HostRuntime) -> Result<(), Fail> {
        for front in FRONTS {
            assert!(rt; fails_behind(&rt, front)?, "{front:?}");
        }
        Ok(())
    }

    #[test]
    fn a_port_where_nobody_listens_fails(rt: HostRuntime) -> Result<(), Fail> {
        let port = listener(&rt)?.local_addr()?.port();
        assert!(rt; !is_sent(&mut link(&rt, "127.0.0.1", port)?));
        Ok(())
    }

    #[test]
    fn a_name_that_does_not_resolve_fails(rt: HostRuntime) -> Result<(), Fail> {
        assert!(rt; !is_sent(&mut link(&rt, "no.such.name.invalid", 80)?));
        Ok(())
    }
}
