//! Serves connections: each has a thread to itself, and each of its requests the answer that
//! `shard_server` gives by the files of one store.
//!
//! Contracts see an acceptor as two counts, of the connections that it gave and of its failures
//! (`specs/Serving`), and a response as its status and its body (`specs/Reply`). That a connection
//! is served, and when, no clause says.
#![tactic(auto)]

mod accept;
mod connection;
mod places;
mod reply;
mod serve;
mod service;

pub use accept::{Accept, Failed};
pub use places::{MOST_FREE_SECONDS, MOST_PLACES};
pub use serve::{ServeEnd, serve_loop};
