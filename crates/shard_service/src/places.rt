//! The places of connections, and the queue from which threads take them.

use std::alloc::{AllocError, Global};
use std::sync::atomic::{AtomicUsize, Ordering};
use std::sync::{Condvar, CondvarTimeouts, Mutex, Wait};
use std::time::{Clock, Duration};

/// How many connections are served at once, and so how many threads there are at most.
pub const MOST_PLACES: usize = 64;

/// How long a thread waits for a connection before it ends and gives its stack back, in seconds.
pub const MOST_FREE_SECONDS: u64 = 10;

// Connections that wait for a thread, threads that wait for a connection, and the seats of threads that ended.
#[derive(Drop)]
struct Desk<I> {
    waiting: Vec<I>,
    free: usize,
    left: Vec<usize>,
    closed: bool,
}

// The places of connections. One thread gives them out, and any number of threads serve them.
#[derive(Drop)]
pub(crate) struct Places<I> {
    desk: Mutex<Desk<I>>,
    came: Condvar,
    freed: Condvar,
    taken: AtomicUsize,
}

impl<I: Drop> Places<I> {
    // All places, free, with room for each connection that may wait and for each thread that may end.
    pub(crate) fn new(alloc: Global) -> Result<Places<I>, AllocError> {
        let mut waiting = Vec::new(alloc);
        waiting.reserve(MOST_PLACES)?;
        let mut left = Vec::new(alloc);
        left.reserve(MOST_PLACES)?;
        Ok(Places {
            desk: Mutex::new(Desk {
                waiting,
                free: 0,
                left,
                closed: false,
            }),
            came: Condvar::new(),
            freed: Condvar::new(),
            taken: AtomicUsize::new(0),
        })
    }

    // Waits until a place is free, and takes it.
    pub(crate) fn take<R: Wait>(&self, rt: &R) {
        let desk = self.desk.lock(rt);
        let _desk = self.freed.wait_while(rt, desk, |_| self.are_taken());
        self.taken.fetch_add(1, Ordering::SeqCst);
    }

    // Gives a place back. The lock is taken where somebody may be about to wait for one.
    pub(crate) fn give<R: Wait>(&self, rt: &R) {
        if self.taken.fetch_sub(1, Ordering::SeqCst) >= MOST_PLACES {
            drop(self.desk.lock(rt));
            self.freed.notify_one();
        }
    }

    // Whether no place is free.
    pub(crate) fn are_taken(&self) -> bool {
        self.taken.load(Ordering::SeqCst) >= MOST_PLACES
    }

    // Puts a connection on the desk, and answers whether a thread waits for it.
    pub(crate) fn put<R: Wait>(&self, rt: &R, io: I) -> Result<bool, AllocError> {
        let is_awaited = self.queued(rt, io)?;
        if is_awaited {
            self.came.notify_one();
        }
        Ok(is_awaited)
    }

    fn queued<R: Wait>(&self, rt: &R, io: I) -> Result<bool, AllocError> {
        let mut desk = self.desk.lock(rt);
        let is_awaited = desk.waiting.len() < desk.free;
        desk.waiting.push(io)?;
        Ok(is_awaited)
    }

    // Takes a connection off the desk, if one waits.
    pub(crate) fn pick<R: Wait>(&self, rt: &R) -> Option<I> {
        self.desk.lock(rt).waiting.pop()
    }

    // Waits for a connection, for the thread at a seat. None comes once the desk is closed and empty, or
    // where the thread has waited for long; it leaves its seat then.
    pub(crate) fn next<R: Wait + Clock>(&self, rt: &R, seat: usize) -> Option<I> {
        let mut desk = self.desk.lock(rt);
        desk.free = desk.free.saturating_add(1);
        let most = Duration::from_secs(MOST_FREE_SECONDS);
        let (mut desk, _) = self.came.wait_timeout_while(rt, desk, most, |desk| {
            desk.waiting.is_empty() && !desk.closed
        });
        desk.free = desk.free.saturating_sub(1);
        let next = desk.waiting.pop();
        if next.is_none() {
            let _ = desk.left.push(seat);
        }
        next
    }

    // A seat that its thread left, if there is one.
    pub(crate) fn left<R: Wait>(&self, rt: &R) -> Option<usize> {
        self.desk.lock(rt).left.pop()
    }

    // No more connections come.
    pub(crate) fn close<R: Wait>(&self, rt: &R) {
        let mut desk = self.desk.lock(rt);
        desk.closed = true;
        self.came.notify_all();
    }
}
