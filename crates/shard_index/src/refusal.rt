//! Why an index could not be read.

ghost use Rattle.std.specs.Prelude.{◌≡◌};
ghost use Rattle.shard_index.specs.declared.refusal.IndexRefusal.TheVariants.{Fault, Memory};

use mp_codec::FormatFault;
use std::alloc::{AllocError, AllocFailed};

/// Why an index could not be read.
#[derive(Debug, Drop)]
pub enum IndexRefusal {
    /// The bytes are no index: the first fault that stands in them.
    Fault(FormatFault),
    /// Memory ran out.
    Memory,
}

impl From<FormatFault> for IndexRefusal {
    ghost from_gives = { λ fault refusal. refusal ≡ Fault fault };

    fn from(fault: FormatFault) -> IndexRefusal {
        IndexRefusal::Fault(fault)
    }
}

impl From<AllocError> for IndexRefusal {
    ghost from_gives = { λ _ refusal. refusal ≡ Memory };

    fn from(_error: AllocError) -> IndexRefusal {
        IndexRefusal::Memory
    }
}

impl<T: Drop> From<AllocFailed<T>> for IndexRefusal {
    ghost from_gives = { λ _ refusal. refusal ≡ Memory };

    fn from(_error: AllocFailed<T>) -> IndexRefusal {
        IndexRefusal::Memory
    }
}
