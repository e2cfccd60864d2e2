//! Why a line is no request.

ghost use Rattle.std.specs.Prelude.{◌≡◌};
ghost use Rattle.closure_request.specs.declared.refusal.RequestRefusal.TheVariants.{Memory};

use match_spec::SpecFault;
use std::alloc::{AllocError, AllocFailed};

/// Why a line is no request, or was not read as one.
#[derive(Clone, Copy, Debug, PartialEq, Eq)]
pub enum RequestRefusal {
    /// The piece of this number, counted from 1, is no spec: the first such piece, and why.
    Spec(u64, SpecFault),
    /// The line isn't UTF-8.
    NotText,
    /// Memory ran out.
    Memory,
}

impl From<AllocError> for RequestRefusal {
    ghost from_gives = { λ _ refusal. refusal ≡ Memory };

    fn from(_error: AllocError) -> RequestRefusal {
        RequestRefusal::Memory
    }
}

impl<T: Drop> From<AllocFailed<T>> for RequestRefusal {
    ghost from_gives = { λ _ refusal. refusal ≡ Memory };

    fn from(_error: AllocFailed<T>) -> RequestRefusal {
        RequestRefusal::Memory
    }
}
