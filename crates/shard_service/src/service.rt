//! The service of one connection.
ghost use Rattle.std.specs.Prelude.{◌≡◌, IfOk, IsOkAnd, IsSomeAnd};
ghost use Rattle.hyper.specs.Request.{head_of};
ghost use Rattle.hyper.specs.Uri.{uri_path};
ghost use Rattle.shard_service.specs.Reply.{IsAnswer, Replies};

use crate::places::Places;
use crate::reply::{Manner, refusal, reply};
use bytes::Bytes;
use channel_store::Store;
use futures::future;
use futures::future::Ready;
use http_body_util::Full;
use hyper::body::Incoming;
use hyper::service::Service;
use hyper::{Method, Request, Response};
use shard_server::{Served, answer};
use std::alloc::{AllocError, Global};
use std::convert::Infallible;
use std::sync::{Arc, Mutex, Wait};

// What the threads share: the store, and the places of connections.
#[derive(Drop)]
pub(crate) struct Shared<S, I> {
    pub(crate) store: Mutex<S>,
    pub(crate) places: Places<I>,
}

// Answers each request of a connection by the files of the store.
#[derive(Drop)]
pub(crate) struct Answering<S, I, R> {
    pub(crate) shared: Arc<Shared<S, I>>,
    pub(crate) rt: R,
    pub(crate) alloc: Global,
}

impl<S: Store + Drop, I: Drop, R: Wait + Drop> Answering<S, I, R> {
    // The answer to a method and a path. The store is locked for the reading of one file alone.
    fn answer(&self, method: &str, path: &str) -> Result<Served, AllocError>
        ensures { IfOk result (IsAnswer method.now path.now) }
    {
        let mut store = self.shared.store.lock(&self.rt);
        answer(self.alloc, &mut *store, method, path)
    }

    // The response to a method and a path.
    #[tactic(auto, using(crate::proofs::ReplyLemmas::replied))]
    fn respond(&self, method: &str, path: &str, manner: Manner) -> Response<Full<Bytes>>
        ensures { Replies method.now path.now result }
    {
        match self.answer(method, path) {
            Ok(served) => reply(self.alloc, served, path, manner),
            Err(_) => refusal(self.alloc),
        }
    }
}

impl<S: Store + Drop, I: Drop, R: Wait + Drop> Service<Request<Incoming<I>>>
    for Answering<S, I, R> {
    type Response = Response<Full<Bytes>>;

    type Error = Infallible;

    type Future = Ready<Result<Response<Full<Bytes>>, Infallible>>;

    ghost calls = { λ _ req future. IsSomeAnd future.0 (λ given. IsOkAnd given
        (Replies (head_of req).method (uri_path (head_of req).uri))) };

    fn call(&self, req: Request<Incoming<I>>) -> Self::Future {
        let method = req.method();
        let path = req.uri().path();
        let manner = Manner {
            is_last: self.shared.places.are_taken(),
            is_head: *method == Method::HEAD,
        };
        future::ok(self.respond(method.as_str(), path, manner))
    }
}
