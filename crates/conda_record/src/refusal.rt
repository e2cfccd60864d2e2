//! Why a record could not be read.

ghost use Rattle.std.specs.Prelude.{◌≡◌};
ghost use Rattle.conda_record.specs.declared.refusal.RecordRefusal.TheVariants.{Fault, Memory};

use mp_codec::FormatFault;
use std::alloc::{AllocError, AllocFailed};

/// Why a record could not be read.
#[derive(Debug, Drop)]
pub enum RecordRefusal {
    /// The bytes are no record: the first fault that stands in them.
    Fault(FormatFault),
    /// Memory ran out.
    Memory,
}

impl From<FormatFault> for RecordRefusal {
    ghost from_gives = { λ fault refusal. refusal ≡ Fault fault };

    fn from(fault: FormatFault) -> RecordRefusal {
        RecordRefusal::Fault(fault)
    }
}

impl From<AllocError> for RecordRefusal {
    ghost from_gives = { λ _ refusal. refusal ≡ Memory };

    fn from(_error: AllocError) -> RecordRefusal {
        RecordRefusal::Memory
    }
}

impl<T: Drop> From<AllocFailed<T>> for RecordRefusal {
    ghost from_gives = { λ _ refusal. refusal ≡ Memory };

    fn from(_error: AllocFailed<T>) -> RecordRefusal {
        RecordRefusal::Memory
    }
}
