//! MessagePack: values, which bytes spell them, and what may be wrong with some bytes.
//!
//! Contracts see a `Cursor` as its place and the bytes from there on
//! (`gateway_words/specs/Places`).
//! `specs/Value` and `specs/Spelling` say which bytes spell which value, and `specs/Fault` says
//! which faults stand where.
//! A crate above uses `head`, `take` and `skip` by what lies between two positions, or by the
//! readings of `specs/Reading`.
#![tactic(auto)]

mod cursor;
mod fault;
mod head;
mod laws;
mod reading;
mod room;
mod span;
#[cfg(test)]
mod tests;
mod text;
mod writing;

pub use cursor::Cursor;
pub use fault::{FaultKind, FormatFault};
pub use head::Head;
pub use laws::{
    a_value_stands_or_breaks_off, no_bytes_spell_two_values, no_spelling_is_a_prefix,
    what_is_written_is_shortest, what_is_written_stands,
};
pub use reading::utf8_text;
pub use room::room_for;
pub use span::Span;
pub use text::Text;
pub use writing::{cut_back, put_array, put_bin, put_map, put_str, put_uint};
