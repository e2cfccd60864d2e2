//! Why a text is no spec.

ghost use Rattle.std.specs.Prelude.{◌≡◌};
ghost use Rattle.match_spec.specs.declared.fault.SpecRefusal.TheVariants.{Fault, Memory};

use std::alloc::{AllocError, AllocFailed};

/// Why a text is no spec: the first fault in the order of the steps by which it is read. Places are
/// counted in bytes from 0, in the whole text.
#[derive(Clone, Copy, Debug, PartialEq, Eq)]
pub enum SpecFault {
    /// The text has nothing but blanks. Its number is 1.
    Empty,
    /// There is no name, or a channel or subdir with nothing in it. Its number is 2.
    NoName,
    /// The byte behind the name is one that may not follow it. Its number is 3.
    Name(u64),
    /// The constraint behind the name has no reading; its place is the first byte behind the name
    /// and the blanks. Its number is 4.
    Version(u64),
    /// The build behind the name is empty, has a byte that no build has, or has a blank in it; its
    /// place is the build's first byte, or the blank. Its number is 5.
    Build(u64),
    /// A bracket or a quote stands without its other half. Its number is 6.
    Bracket(u64),
    /// A part of the bracket has no `=`, has a key that isn't known, or one that was read before.
    /// Its number is 7.
    Key(u64),
    /// A value of the bracket isn't of its key's form, or something stands behind its closing
    /// quote. Its number is 8.
    Value(u64),
}

/// Why a spec was not read.
#[derive(Clone, Copy, Debug, PartialEq, Eq)]
pub enum SpecRefusal {
    /// The text has a fault.
    Fault(SpecFault),
    /// Memory ran out.
    Memory,
}

impl SpecFault {
    ghost use Rattle.match_spec.specs.Reading.{spec_fault_number};

    /// The number of the fault in print.
    pub fn number(self) -> u8
        ensures { result ≡ spec_fault_number self }
    {
        match self {
            SpecFault::Empty => 1,
            SpecFault::NoName => 2,
            SpecFault::Name(_) => 3,
            SpecFault::Version(_) => 4,
            SpecFault::Build(_) => 5,
            SpecFault::Bracket(_) => 6,
            SpecFault::Key(_) => 7,
            SpecFault::Value(_) => 8,
        }
    }
}

impl From<SpecFault> for SpecRefusal {
    ghost from_gives = { λ fault refusal. refusal ≡ Fault fault };

    fn from(fault: SpecFault) -> SpecRefusal {
        SpecRefusal::Fault(fault)
    }
}

impl From<AllocError> for SpecRefusal {
    ghost from_gives = { λ _ refusal. refusal ≡ Memory };

    fn from(_error: AllocError) -> SpecRefusal {
        SpecRefusal::Memory
    }
}

impl<T: Drop> From<AllocFailed<T>> for SpecRefusal {
    ghost from_gives = { λ _ refusal. refusal ≡ Memory };

    fn from(_error: AllocFailed<T>) -> SpecRefusal {
        SpecRefusal::Memory
    }
}
