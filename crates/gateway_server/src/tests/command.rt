//! The command `serve`, over connections that end at once.
ghost use Rattle.std.specs.Prelude.{⊤};

use channel_store::MemStore;
use futures::task::{Context, Poll};
use gateway_tool::{LISTEN_FAULT, OK, USAGE, run_serve};
use mp_codec::Text;
use shard_service::{Accept, Failed};
use std::alloc::AllocGlobal;
use std::io;
use std::random::RandomSource;
use std::sync::Wait;
use std::test::Fail;
use std::thread::Threads;
use std::time::Clock;
use tokio::io::{AsyncRead, AsyncWrite};

// A connection whose client has closed it.
#[derive(Drop)]
struct Ended;

impl AsyncRead for Ended {
    ghost reads = { λ _ _ _. ⊤ };

    ghost is_at_end = { λ _. ⊤ };

    ghost reads_nothing = { λ _. tt };

    ghost reads_in_order = { λ _ _ _ _ _ _ _. tt };

    fn poll_read(&mut self, _cx: &mut Context<'_>, _buf: &mut [u8]) -> Poll<io::Result<usize>> {
        Poll::Ready(Ok(0))
    }
}

impl AsyncWrite for Ended {
    ghost writes = { λ _ _ _. ⊤ };

    ghost writes_nothing = { λ _. tt };

    ghost writes_in_order = { λ _ _ _ _ _ _ _. tt };

    fn poll_write(&mut self, _cx: &mut Context<'_>, buf: &[u8]) -> Poll<io::Result<usize>> {
        Poll::Ready(Ok(buf.len()))
    }

    fn poll_flush(&mut self, _cx: &mut Context<'_>) -> Poll<io::Result<()>> {
        Poll::Ready(Ok(()))
    }

    fn poll_shutdown(&mut self, _cx: &mut Context<'_>) -> Poll<io::Result<()>> {
        Poll::Ready(Ok(()))
    }
}

// An acceptor of some connections, which listens at one address alone.
#[derive(Drop)]
struct Few {
    left: u64,
    accepted: u64,
    faults: u64,
}

impl Few {
    fn new(left: u64) -> Few {
        Few {
            left,
            accepted: 0,
            faults: 0,
        }
    }
}

impl Accept for Few {
    type Stream = Ended;

    ghost accepted = { λ a. a.accepted };

    ghost faults = { λ a. a.faults };

    fn listen<R: Wait>(&mut self, _rt: &R, addr: &str) -> Result<(), Failed> {
        if addr == "here" {
            return Ok(());
        }
        self.faults = self.faults.saturating_add(1);
        Err(Failed)
    }

    fn accept<R: Wait>(&mut self, _rt: &R) -> Result<Ended, Failed> {
        if self.left == 0 {
            self.faults = self.faults.saturating_add(1);
            return Err(Failed);
        }
        self.left -= 1;
        if self.accepted < u64::MAX {
            self.accepted += 1;
        }
        Ok(Ended)
    }
}

// Words, the status that they lead to where two connections come, and how many are accepted.
const ROWS: [(&str, u8, u64); 9] = [
    ("serve", USAGE, 0),
    ("serve here there", USAGE, 0),
    ("serve --connections=1", USAGE, 0),
    ("serve here --connections=0", USAGE, 0),
    ("show here", USAGE, 0),
    ("serve there --connections=1", LISTEN_FAULT, 0),
    ("serve here", LISTEN_FAULT, 2),
    ("serve here --connections=1", OK, 1),
    ("serve --connections=2 here", OK, 2),
];

// The status of the words of a row, and how many connections were accepted.
fn outcome<R>(rt: &R, row: &str) -> Result<(u8, u64), Fail>
where
    R: Wait + Threads + RandomSource + AllocGlobal + Clock + Copy + Send + Sync + Drop + 'static,
{
    let mut words = Vec::new(rt.alloc());
    for word in row.split(' ') {
        words.push(Text::copy(rt.alloc(), word)?)?;
    }
    let store = MemStore::new(rt.alloc(), Vec::new(rt.alloc()), Vec::new(rt.alloc()), None);
    let mut accept = Few::new(2);
    let status = run_serve(rt, rt.alloc(), words.as_slice(), store, &mut accept);
    Ok((status, accept.accepted))
}

#[test]
fn words_lead_to_their_status(rt: HostRuntime) -> Result<(), Fail> {
    for (row, status, accepted) in ROWS {
        assert!(rt; outcome(&rt, row)? == (status, accepted), "{row}");
    }
    Ok(())
}
