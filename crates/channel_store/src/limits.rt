//! The limit of the files that a channel serves.

ghost use Rattle.std.specs.Prelude.{◌≡◌};
ghost use Rattle.gateway_words.specs.Limits.{most_served_bytes};
ghost use Rattle.channel_store.specs.declared.limits.TheConstants.{MOST_SERVED_BYTES};

/// The most bytes of a shard and of an index.
pub const MOST_SERVED_BYTES: usize = 33_554_432;

/// The limit of the code is the one of the definitions.
pub fn served_files_have_their_limit()
    ensures { MOST_SERVED_BYTES ≡ most_served_bytes }
{}
