//! Accepts connections, and has each served on a thread that has no other meanwhile.
ghost use Rattle.std.specs.Prelude.{◌≡◌, ◌≤◌, ◌-◌, OnOk, OnErr};
ghost use Rattle.std.specs.Option.{option_map};
ghost use Rattle.gateway_words.specs.Causes.{Rose};
ghost use Rattle.shard_service.specs.Serving.{Serves, one_more};

use crate::accept::{Accept, Failed};
use crate::connection::Server;
use crate::places::{MOST_PLACES, Places};
use crate::service::Shared;
use channel_store::Store;
use futures::task::{Doorbell, Queue};
use std::alloc::{AllocError, AllocGlobal, Global};
use std::hash::RandomState;
use std::random::RandomSource;
use std::sync::{Arc, Mutex, Wait};
use std::thread;
use std::thread::{JoinHandle, Threads};
use std::time::Clock;
use tokio::io::{AsyncRead, AsyncWrite};

/// How serving ended.
#[derive(Clone, Copy, Debug, PartialEq, Eq)]
pub enum ServeEnd {
    /// All connections that were wanted were accepted, and are over.
    Limit,
    /// The acceptor failed.
    Failed,
    /// Memory ran out before a connection was accepted.
    Memory,
}

/// Accepts so many connections, or without end, and answers their requests by the files of a store.
///
/// Each connection has a thread to itself while it is served; at most 64 are, and the next one is
/// accepted when one of them is over. Where no thread can be made, the caller serves. All connections
/// are over when this answers. The store is locked while one file is read, and not while bytes are sent.
pub fn serve_loop<R, S, A>(
    rt: &R,
    alloc: Global,
    store: S,
    accept: &mut A,
    limit: Option<u64>,
) -> ServeEnd
where
    R: Wait + Threads + RandomSource + AllocGlobal + Clock + Copy + Send + Sync + Drop + 'static,
    S: Store + Send + Drop + 'static,
    A: Accept,
    A::Stream: Send + 'static,
    ensures { Serves limit (A.accepted accept.old) (A.accepted accept.new)
        (A.faults accept.old) (A.faults accept.new) result }
{
    if limit == Some(0) {
        return ServeEnd::Limit;
    }
    let Ok(mut crew) = Crew::new(rt, alloc, store) else {
        return ServeEnd::Memory;
    };
    let how = accept_all(rt, &mut crew, accept, limit);
    crew.end(rt);
    how
}

// The threads that serve connections, each at its seat, and what serves on the calling thread where none can be made.
#[derive(Drop)]
struct Crew<S, I, R> {
    server: Server<S, I, R>,
    queue: Queue,
    seats: Vec<Option<JoinHandle<()>>>,
}

impl<S, I, R> Crew<S, I, R>
where
    R: Wait + Threads + RandomSource + AllocGlobal + Clock + Copy + Send + Sync + Drop + 'static,
    S: Store + Send + Drop + 'static,
    I: AsyncRead + AsyncWrite + Send + 'static,
{
    // No thread yet, and room for all that there may be.
    fn new(rt: &R, alloc: Global, store: S) -> Result<Self, AllocError> {
        let keys = RandomState::new(rt).map_err(|_| AllocError)?;
        let queue = Queue::new(rt, Doorbell::parking()).map_err(|_| AllocError)?;
        let mut seats = Vec::new(alloc);
        seats.reserve(MOST_PLACES)?;
        for _ in 0..MOST_PLACES {
            seats.push(None)?;
        }
        let shared = Shared {
            store: Mutex::new(store),
            places: Places::new(alloc)?,
        };
        let server = Server {
            shared: Arc::new(alloc, shared)?,
            keys,
            rt: *rt,
            alloc,
        };
        Ok(Crew {
            server,
            queue,
            seats,
        })
    }

    // Has a connection served, by a thread that is free, by a new one, or by this one.
    fn take(&mut self, rt: &R, io: I) {
        match self.server.shared.places.put(rt, io) {
            Ok(true) => {}
            Ok(false) => self.hire(rt),
            Err(_) => self.server.shared.places.give(rt),
        }
    }

    // Makes a thread for the connection that waits, unless there are all; where none can be made,
    // this thread serves it.
    fn hire(&mut self, rt: &R) {
        self.join_left(rt);
        let Some(seat) = self.seats.iter().position(|seat| seat.is_none()) else {
            return;
        };
        match self.hired(rt, seat) {
            Ok(child) => self.seat(seat, child),
            Err(_) => self.serve_here(rt),
        }
    }

    // Joins the threads that ended.
    fn join_left(&mut self, rt: &R) {
        for _ in 0..MOST_PLACES {
            let Some(seat) = self.server.shared.places.left(rt) else {
                return;
            };
            if let Some(child) = self.seats.get_mut(seat).and_then(|seat| seat.take()) {
                child.join(rt);
            }
        }
    }

    fn seat(&mut self, seat: usize, child: JoinHandle<()>) {
        if let Some(place) = self.seats.get_mut(seat) {
            *place = Some(child);
        }
    }

    fn hired(&self, rt: &R, seat: usize) -> Result<JoinHandle<()>, AllocError> {
        let queue = Queue::new(rt, Doorbell::parking()).map_err(|_| AllocError)?;
        let server = self.server.share()?;
        thread::spawn(rt, move || serve_all(server, queue, seat)).map_err(|_| AllocError)
    }

    // Serves a connection that waits on this thread.
    fn serve_here(&self, rt: &R) {
        if let Some(io) = self.server.shared.places.pick(rt) {
            self.server.serve(&self.queue, io);
        }
    }

    // Waits until all connections are over.
    fn end(self, rt: &R) {
        let Crew {
            server,
            queue: _,
            seats,
        } = self;
        server.shared.places.close(rt);
        for seat in seats {
            if let Some(child) = seat {
                child.join(rt);
            }
        }
    }
}

// Serves one connection after another at a seat, until no more come.
fn serve_all<S, I, R>(server: Server<S, I, R>, queue: Queue, seat: usize)
where
    R: Wait + RandomSource + AllocGlobal + Clock + Copy + Drop,
    S: Store + Drop,
    I: AsyncRead + AsyncWrite,
{
    let rt = server.rt;
    for _ in rt.forever() {
        let Some(io) = server.shared.places.next(&rt, seat) else {
            return;
        };
        server.serve(&queue, io);
    }
}

// Accepts connections and hands them to the threads.
fn accept_all<R, S, A>(
    rt: &R,
    crew: &mut Crew<S, A::Stream, R>,
    accept: &mut A,
    limit: Option<u64>,
) -> ServeEnd
where
    R: Wait + Threads + RandomSource + AllocGlobal + Clock + Copy + Send + Sync + Drop + 'static,
    S: Store + Send + Drop + 'static,
    A: Accept,
    A::Stream: Send + 'static,
    ensures { Serves limit (A.accepted accept.old) (A.accepted accept.new)
        (A.faults accept.old) (A.faults accept.new) result }
{
    let mut left = limit;
    for _ in rt.forever() {
        if left == Some(0) {
            return ServeEnd::Limit;
        }
        if accept_one(rt, crew, accept).is_err() {
            return ServeEnd::Failed;
        }
        left = one_less(left);
    }
    unreachable!()
}

// Accepts a connection when a place is free, and hands it to the threads.
fn accept_one<R, S, A>(
    rt: &R,
    crew: &mut Crew<S, A::Stream, R>,
    accept: &mut A,
) -> Result<(), Failed>
where
    R: Wait + Threads + RandomSource + AllocGlobal + Clock + Copy + Send + Sync + Drop + 'static,
    S: Store + Send + Drop + 'static,
    A: Accept,
    A::Stream: Send + 'static,
    ensures ok { OnOk result (A.accepted accept.new ≡ one_more (A.accepted accept.old)) }
    ensures none { OnErr result (A.accepted accept.new ≡ A.accepted accept.old) }
    ensures later { A.faults accept.old ≤ A.faults accept.new }
    ensures cause { OnErr result (Rose (A.faults accept.old) (A.faults accept.new)) }
{
    crew.server.shared.places.take(rt);
    let io = accept.accept(rt)?;
    crew.take(rt, io);
    Ok(())
}

// How many are left behind one more.
fn one_less(left: Option<u64>) -> Option<u64>
    ensures { result ≡ option_map (λ n. n - 1) left }
{
    match left {
        Some(n) => Some(n.saturating_sub(1)),
        None => None,
    }
}
