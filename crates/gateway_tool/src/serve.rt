//! The command `serve`: the indexes and shards of a store, over connections.
ghost use Rattle.std.specs.Prelude.{◌≡◌, ◌≤◌, None, IfSome};
ghost use Rattle.gateway_tool.specs.Serve.{DoesServe, ServeAnswers, served_words, status_of};
ghost use Rattle.gateway_tool.specs.Status.{status_listen_fault, HasStatusCause};

use crate::serve_words::{Asking, served_words};
use crate::status::{LISTEN_FAULT, OK, OUT_OF_MEMORY, USAGE};
use channel_store::Store;
use mp_codec::Text;
use shard_service::{Accept, ServeEnd, serve_loop};
use std::alloc::{AllocGlobal, Global};
use std::random::RandomSource;
use std::sync::Wait;
use std::thread::Threads;
use std::time::Clock;

/// Serves the indexes and the shards of a store by the words `serve` and an address, as
/// `127.0.0.1:8000`, and where it is there `--connections=n`: so many connections, else without end.
/// The answer is the status.
///
/// `USAGE` exactly where the words are others: the acceptor was not called. `OK` exactly where all
/// connections that were wanted were accepted; they are over. `LISTEN_FAULT` where the acceptor
/// failed: it can't listen at that address, or no connection can come any more. `OUT_OF_MEMORY` where
/// memory ran out before the first connection. (`docs/FORMATS.md`, "Served paths" and "Statuses".)
pub fn run_serve<R, S, A>(rt: &R, alloc: Global, words: &[Text], store: S, accept: &mut A) -> u8
where
    R: Wait + Threads + RandomSource + AllocGlobal + Clock + Copy + Send + Sync + Drop + 'static,
    S: Store + Send + Drop + 'static,
    A: Accept,
    A::Stream: Send + 'static,
    ensures answers { ServeAnswers words.now (A.accepted accept.old) (A.accepted accept.new)
        (A.faults accept.old) (A.faults accept.new) result }
    ensures untouched { served_words words.now ≡ None → accept.new ≡ accept.old }
{
    match served_words(words) {
        Some(asking) => serve(rt, alloc, asking, store, accept),
        None => USAGE,
    }
}

// Listens at an address, and serves so many connections.
#[tactic(auto, using(crate::proofs::ServeLemmas::ended_so, crate::proofs::ServeLemmas::never_begun))]
fn serve<R, S, A>(rt: &R, alloc: Global, asking: Asking<'_>, store: S, accept: &mut A) -> u8
where
    R: Wait + Threads + RandomSource + AllocGlobal + Clock + Copy + Send + Sync + Drop + 'static,
    S: Store + Send + Drop + 'static,
    A: Accept,
    A::Stream: Send + 'static,
    requires { IfSome asking.connections (λ n. 1 ≤ n) }
    ensures does { DoesServe asking.entry.connections
        (A.accepted accept.old) (A.accepted accept.new)
        (A.faults accept.old) (A.faults accept.new) result }
    ensures cause { HasStatusCause status_listen_fault
        (A.faults accept.old) (A.faults accept.new) result }
{
    if accept.listen(rt, asking.addr).is_err() {
        return LISTEN_FAULT;
    }
    status_of(serve_loop(rt, alloc, store, accept, asking.connections))
}

// The status that says how serving ended.
fn status_of(how: ServeEnd) -> u8
    ensures { result ≡ status_of how }
{
    match how {
        ServeEnd::Limit => OK,
        ServeEnd::Failed => LISTEN_FAULT,
        ServeEnd::Memory => OUT_OF_MEMORY,
    }
}
