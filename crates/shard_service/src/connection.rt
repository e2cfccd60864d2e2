//! One connection, from its first request to its end.

use crate::service::{Answering, Shared};
use channel_store::Store;
use futures::executor::block_on_queue;
use futures::task::Queue;
use hyper::server::conn::http1::Builder;
use std::alloc::{AllocError, AllocGlobal, Global};
use std::hash::RandomState;
use std::random::RandomSource;
use std::sync::{Arc, Wait};
use tokio::io::{AsyncRead, AsyncWrite};

// How much of a connection's requests, and of its answers beside a file, is buffered: the longest head
// that hyper takes. More would let a client that reads nothing fill more memory.
const MOST_BUFFERED_BYTES: usize = 64 * 1024;

// What serves connections, one after another.
#[derive(Drop)]
pub(crate) struct Server<S, I, R> {
    pub(crate) shared: Arc<Shared<S, I>>,
    pub(crate) keys: RandomState,
    pub(crate) rt: R,
    pub(crate) alloc: Global,
}

impl<S, I, R> Server<S, I, R>
where
    S: Store + Drop,
    I: AsyncRead + AsyncWrite,
    R: Wait + RandomSource + AllocGlobal + Copy + Drop,
{
    // Another server over the same store and the same places.
    pub(crate) fn share(&self) -> Result<Server<S, I, R>, AllocError> {
        Ok(Server {
            shared: Arc::try_clone(&self.shared)?,
            keys: self.keys,
            rt: self.rt,
            alloc: self.alloc,
        })
    }

    // Serves a connection to its end, and gives its place back. A client may close its side of the
    // connection behind its last request. Where memory is out, the connection is closed.
    pub(crate) fn serve(&self, queue: &Queue, io: I) {
        if let Ok(shared) = Arc::try_clone(&self.shared) {
            let service = Answering {
                shared,
                rt: self.rt,
                alloc: self.alloc,
            };
            let mut http = Builder::new(self.alloc, self.keys);
            http.half_close(true).max_buf_size(MOST_BUFFERED_BYTES);
            let _ = block_on_queue(&self.rt, queue, http.serve_connection(io, service));
        }
        self.shared.places.give(&self.rt);
    }
}
