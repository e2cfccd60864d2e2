//! The real acceptor: connections of the network for `shard_service`.
//!
//! Contracts see its two counts and nothing of what goes over a connection. Behind its calls stand
//! the system's sockets, which are trusted.
#![tactic(auto)]

mod listener;
mod socket;

pub use listener::TcpAccept;
pub use socket::{
    MOST_ANSWER_SECONDS, MOST_HEAD_SECONDS, MOST_IDLE_SECONDS, MOST_STALLED_TICKS, Socket,
    TICK_MILLISECONDS,
};
