//! Shards: the records of one package name, by file (CEP 16, "shards").
//!
//! Contracts see a `Shard` as its `Contents`, the bytes and the rows (`specs/Rows`), and a `ShardRow`
//! by `row_seen` (`specs/Seen`). The layer above uses: the rows are those that the bytes spell, in
//! order, a fault is the first one, and what `write_shard` appends is read again as its files
//! (`specs/Writing`).
#![tactic(auto)]

mod files;
mod laws;
mod leaf;
mod names;
mod reading;
mod refusal;
mod shard;
mod spans;
#[cfg(test)]
mod tests;
mod twin;
mod writing;

pub use laws::{a_written_shard_is_read, bytes_are_a_shard_or_have_a_first_fault};
pub use leaf::{Leaf, LeafRefusal};
pub use refusal::ShardRefusal;
pub use shard::{FileRecord, Shard, ShardRow};
pub use writing::{can_write_shard, write_shard};
