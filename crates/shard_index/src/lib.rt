//! Indexes of shards: which package names a subdir has, and the digest of each name's shard (CEP 16,
//! "repodata shard index").
//!
//! Contracts see an `Index` as its `Contents`, the info and the names that it lists, ascending
//! (`specs/Index`). The layer above uses: a look-up is in the map that the bytes spell, and a fault is
//! the first one.
#![tactic(auto)]

mod digest;
mod index;
mod info;
mod laws;
mod listing;
mod names;
mod reading;
mod refusal;
#[cfg(test)]
mod tests;
mod version;
mod writing;

pub use index::Index;
pub use laws::{a_written_index_is_read, bytes_are_an_index_or_have_a_first_fault};
pub use refusal::IndexRefusal;
pub use writing::{IndexRow, write_index};
