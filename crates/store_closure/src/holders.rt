//! Indexes and shards that a plan has for itself.

use closure_plan::{LeafHolder, PinHolder};
use shard_file::Leaf;
use shard_index::Index;

/// An index that was read for one plan.
#[derive(Drop)]
pub struct OwnPin(pub Index);

impl PinHolder for OwnPin {
    ghost contents = { λ p. p.0 };

    fn index(&self) -> &Index {
        &self.0
    }
}

/// A shard that was read for one plan.
#[derive(Drop)]
pub struct OwnLeaf(pub Leaf);

impl LeafHolder for OwnLeaf {
    ghost contents = { λ l. l.0 };

    fn leaf(&self) -> &Leaf {
        &self.0
    }
}
