//! The outside: where bytes come from, where they go, and connections.
//!
//! Contracts see a `Source` as the bytes that are left, where it tells them, and a `Sink` as the
//! bytes that were written, where it tells them. Each counts its faults, and answers `Failed` only
//! where that count rose. The layers above use `read_to_end` and `write_all`, which are proved over
//! any source and any sink. `MemSource` and `MemSink` stand for them in tests, and `StdSource` and
//! `StdSink` are the real ones.
//!
//! A `Conn` is seen as its target, its number, what went over it where that is told, and two counts
//! (`specs/Conn`); a `Dial` makes connections from one origin (`specs/Origin`). A `Parcel` is one
//! exchange over a connection, in progress. `ScriptDial` is a world in memory whose connections wait
//! and fail by a script.
#![tactic(auto)]

mod address;
mod conn;
mod landed;
mod line;
mod memory;
mod parcel;
mod received;
mod script;
mod sink;
mod source;
mod standard;
mod target;
mod tcp;
mod transfer;

pub use address::{HttpUrl, MOST_OF_ADDRESS, UrlFault, UrlRefusal, has_address_form};
pub use conn::{Conn, Dial, Sent, Step};
pub use landed::Landed;
pub use memory::{MemSink, MemSource};
pub use parcel::Parcel;
pub use script::{ScriptConn, ScriptDial, ScriptLine, Trick};
pub use sink::Sink;
pub use source::{Failed, Source};
pub use standard::{StdSink, StdSource};
pub use target::{Key, Target, keys_are_told_apart};
pub use tcp::{TcpConn, TcpDial};
pub use transfer::{ReadRefusal, read_to_end, write_all};

#[cfg(test)]
mod tests;
