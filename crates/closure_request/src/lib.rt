//! What is asked of channels: a request, read from its options and one line of specs, and the slots
//! in which its packages are looked for (docs/FORMATS.md, "Requests").
//!
//! Contracts see a `Request` as an `Asking` (`specs/Request`). The layer above uses: what a line reads
//! as (`specs/Reading`), and the slots in their order (`specs/Slots`).
#![tactic(auto)]

mod channel;
mod options;
mod reading;
mod refusal;
mod request;

pub use channel::Channel;
pub use options::{Format, Priority};
pub use refusal::RequestRefusal;
pub use request::Request;

#[cfg(test)]
mod tests;
