//! Indexes and shards, each held by itself.

use closure_plan::{LeafHolder, PinHolder};
use shard_file::Leaf;
use shard_index::Index;

/// An index.
#[derive(Drop)]
pub(crate) struct OwnPin(pub(crate) Index);

impl PinHolder for OwnPin {
    ghost contents = { λ p. p.0 };

    fn index(&self) -> &Index {
        &self.0
    }
}

/// A shard.
#[derive(Drop)]
pub(crate) struct OwnLeaf(pub(crate) Leaf);

impl LeafHolder for OwnLeaf {
    ghost contents = { λ l. l.0 };

    fn leaf(&self) -> &Leaf {
        &self.0
    }
}
