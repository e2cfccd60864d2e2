//! The worked rows of the commands, through the top calls, over sources and sinks in memory.
//!
//! Expected values are worked out by hand from `docs/FORMATS.md`. What the rows stand on is proved:
//! contracts see the bytes that a row spells, the words of its line, and the source, the sink and
//! the answer of its run.
#![tactic(auto)]

mod bytes;
mod command;
mod outside;
mod words;

pub use bytes::bytes_of;
pub use command::show;
pub use outside::{sink, source};
pub use words::words_of;

#[cfg(test)]
mod tests;
