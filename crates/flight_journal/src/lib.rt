//! The journal of a table of flights: all that happened, in order.
//!
//! Contracts see a `Journal` as its list of entries, with the room that it has (`specs/Written`). The
//! state after a journal (`specs/State`, `specs/Journal`) says which queries are open, which flights
//! fly, who waits, what is owed and what is kept. `Legal` says that each entry may be written in the
//! state behind those before it: the journal is one history of one thread. The layers above use the
//! laws of legal journals (`laws`), each of which is a function whose contract is the law.
#![tactic(auto)]

mod entry;
mod journal;
mod laws;

pub use entry::Entry;
pub use journal::Journal;
