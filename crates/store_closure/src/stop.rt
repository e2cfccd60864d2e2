//! Why there is no answer.

ghost use Rattle.std.specs.Prelude.{◌≡◌};
ghost use Rattle.store_closure.specs.declared.stop.Stop.TheVariants.{Failed, Memory};
ghost use Rattle.channel_store.specs.declared.store.StoreRefusal.TheVariants as refusal;

use channel_store::StoreRefusal;
use digest_gate::Digest;
use mp_codec::{FormatFault, Text};
use std::alloc::{AllocError, AllocFailed};

/// Why a file of a store is bad.
#[derive(Clone, Copy, Debug, PartialEq, Eq)]
pub enum FileWhy {
    /// It isn't there.
    Absent,
    /// It has more than 33,554,432 bytes.
    Long,
    /// A shard's bytes have another digest than the one that the index lists.
    Digest { want: Digest, got: Digest },
    /// Its bytes are no index, or no shard: the first fault that stands in them.
    Format(FormatFault),
}

/// A file of a store that is bad: its name, and why.
#[derive(Debug, Drop)]
pub struct BadFile {
    /// The store name.
    pub name: Text,
    /// Why it is bad.
    pub why: FileWhy,
}

/// Why there is no answer.
#[derive(Debug, Drop)]
pub enum Stop {
    /// The file of a need is bad: the first need, in the order in which they are asked for.
    Bad(BadFile),
    /// The store failed.
    Failed,
    /// Memory ran out.
    Memory,
}

impl From<AllocError> for Stop {
    ghost from_gives = { λ _ stop. stop ≡ Memory };

    fn from(_error: AllocError) -> Stop {
        Stop::Memory
    }
}

impl<T: Drop> From<AllocFailed<T>> for Stop {
    ghost from_gives = { λ _ stop. stop ≡ Memory };

    fn from(_error: AllocFailed<T>) -> Stop {
        Stop::Memory
    }
}
