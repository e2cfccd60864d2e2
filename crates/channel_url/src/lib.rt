//! The addresses of a channel: its base, its indexes, their shards and packages.
//!
//! Contracts see an address as its text, and each call as a function of texts (`specs/Addresses`) over
//! what `url` parses and joins. The layers above use that a base ends in `/` and is short enough that
//! no address which is made of it is refused.
#![tactic(auto)]

mod base;
mod index;
mod laws;
mod package;
mod parsing;
mod shard;

pub use base::{MOST_OF_CHANNEL_BASE, MOST_OF_SHARDS_BASE, channel_base, shards_base};
pub use index::index_url;
pub use laws::{
    a_channel_base_is_short_and_slashed, a_shards_base_is_short_and_slashed,
    index_addresses_are_apart,
};
pub use package::package_url;
pub use shard::shard_url;

#[cfg(test)]
mod tests;
