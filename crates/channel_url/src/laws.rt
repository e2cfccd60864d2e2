//! Laws over the definitions, each the contract of a function with no body.

ghost use Rattle.channel_url.specs.Law.{IndexesAreApart, ChannelBasesAreBases, ShardsBasesAreBases};

/// Indexes of subdirs, which have no `/`, below bases have one address only where base and subdir are
/// the same.
pub fn index_addresses_are_apart()
    ensures { IndexesAreApart }
{}

/// A channel's base has at most 1,900 bytes and ends in `/`, so `index_url` may be called with it.
pub fn a_channel_base_is_short_and_slashed()
    ensures { ChannelBasesAreBases }
{}

/// A base of shards has at most 1,976 bytes and ends in `/`, so `shard_url` may be called with it.
pub fn a_shards_base_is_short_and_slashed()
    ensures { ShardsBasesAreBases }
{}
