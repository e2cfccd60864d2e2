//! A connection of the network, with limits of time.
//!
//! Reads and writes block, and are given back to the caller at each tick, so that the limits are looked
//! at. A limit that is over is the end of what the client sends: the connection is then closed.

ghost use Rattle.std.specs.Prelude.{⊤};

use futures::task::{Context, Poll};
use std::io::{self, ErrorKind, Read, Write};
use std::net::{Shutdown, TcpStream};
use std::time::{Clock, Duration, Instant};
use tokio::io::{AsyncRead, AsyncWrite};

/// How long a read or a write waits before the limits are looked at, in milliseconds.
pub const TICK_MILLISECONDS: u64 = 500;

/// How long a connection may be open without a request, in seconds.
pub const MOST_IDLE_SECONDS: u64 = 5;

/// How long the head of a request may take from its first byte, in seconds.
pub const MOST_HEAD_SECONDS: u64 = 10;

/// For how many ticks a client may take no byte of an answer: 30 seconds.
pub const MOST_STALLED_TICKS: u64 = 60;

/// How long an answer as a whole may take, in seconds.
pub const MOST_ANSWER_SECONDS: u64 = 600;

/// A connection, and what its limits are counted from.
#[derive(Drop)]
pub struct Socket<R> {
    stream: TcpStream,
    clock: R,
    // Some bytes of a request came since the last answer.
    is_in_head: bool,
    // The wait for a request or for the rest of its head.
    asking: Wait,
    // The answers behind the bytes that came last.
    answering: Wait,
}

// A wait, from the first look at it.
#[derive(Clone, Copy)]
struct Wait {
    since: Option<Instant>,
}

const NEW: Wait = Wait { since: None };

impl Wait {
    // Whether the wait has lasted so many seconds; the first look begins it.
    fn is_over<R: Clock>(&mut self, clock: &R, seconds: u64) -> bool {
        let Ok(now) = Instant::now(clock) else {
            return true;
        };
        match self.since {
            None => {
                self.since = Some(now);
                false
            }
            Some(since) => now.duration_since(since) >= Duration::from_secs(seconds),
        }
    }
}

impl<R: Clock + Drop> Socket<R> {
    // A connection whose reads and writes wait for a tick, and whose writes are sent at once.
    pub(crate) fn new(stream: TcpStream, clock: R) -> io::Result<Socket<R>> {
        let tick = Duration::from_millis(TICK_MILLISECONDS);
        stream.set_nodelay(true)?;
        stream.set_read_timeout(Some(tick))?;
        stream.set_write_timeout(Some(tick))?;
        Ok(Socket {
            stream,
            clock,
            is_in_head: false,
            asking: NEW,
            answering: NEW,
        })
    }

    // Whether the client has had its time for a request, or for the rest of its head.
    fn is_late(&mut self) -> bool {
        let most = if self.is_in_head {
            MOST_HEAD_SECONDS
        } else {
            MOST_IDLE_SECONDS
        };
        self.asking.is_over(&self.clock, most)
    }

    // Some bytes came: the first ones behind an answer begin a head.
    fn note_read(&mut self) {
        if !self.is_in_head {
            self.is_in_head = true;
            self.asking = NEW;
        }
        self.answering = NEW;
    }
}

impl<R: Clock + Drop> AsyncRead for Socket<R> {
    ghost reads = { λ _ _ _. ⊤ };

    ghost is_at_end = { λ _. ⊤ };

    ghost reads_nothing = { λ _. tt };

    ghost reads_in_order = { λ _ _ _ _ _ _ _. tt };

    fn poll_read(&mut self, cx: &mut Context<'_>, buf: &mut [u8]) -> Poll<io::Result<usize>> {
        match self.stream.read(buf) {
            Ok(0) => Poll::Ready(Ok(0)),
            Ok(count) => {
                self.note_read();
                if self.is_late() {
                    return Poll::Ready(Ok(0));
                }
                Poll::Ready(Ok(count))
            }
            Err(error) if is_tick(error.kind()) => {
                if self.is_late() {
                    return Poll::Ready(Ok(0));
                }
                cx.yield_now()
            }
            Err(error) => Poll::Ready(Err(error)),
        }
    }
}

impl<R: Clock + Drop> AsyncWrite for Socket<R> {
    ghost writes = { λ _ _ _. ⊤ };

    ghost writes_nothing = { λ _. tt };

    ghost writes_in_order = { λ _ _ _ _ _ _ _. tt };

    fn poll_write(&mut self, _cx: &mut Context<'_>, buf: &[u8]) -> Poll<io::Result<usize>> {
        self.is_in_head = false;
        self.asking = NEW;
        if self.answering.is_over(&self.clock, MOST_ANSWER_SECONDS) {
            return Poll::Ready(Err(io::Error::from(ErrorKind::TimedOut)));
        }
        for _ in 0..MOST_STALLED_TICKS {
            match self.stream.write(buf) {
                Ok(count) => return Poll::Ready(Ok(count)),
                Err(error) if is_tick(error.kind()) => {}
                Err(error) => return Poll::Ready(Err(error)),
            }
        }
        Poll::Ready(Err(io::Error::from(ErrorKind::TimedOut)))
    }

    fn poll_flush(&mut self, _cx: &mut Context<'_>) -> Poll<io::Result<()>> {
        Poll::Ready(Ok(()))
    }

    fn poll_shutdown(&mut self, _cx: &mut Context<'_>) -> Poll<io::Result<()>> {
        Poll::Ready(self.stream.shutdown(Shutdown::Write))
    }
}

// Whether a call ended because its time was over.
fn is_tick(kind: ErrorKind) -> bool {
    kind == ErrorKind::WouldBlock || kind == ErrorKind::Interrupted
}
