//! Why a text is no version, or no constraint.

ghost use Rattle.std.specs.Prelude.{◌≡◌, ◌+◌, ◌<◌, ◌^◌};
ghost use Rattle.conda_version.specs.declared.fault.ConstraintRefusal.TheVariants.{Memory};

use std::alloc::AllocError;

/// Why a text is no version: of the faults that apply, the first in this order.
#[derive(Clone, Copy, Debug, PartialEq, Eq)]
pub enum VersionFault {
    /// The text has nothing but blanks. Its number is 1.
    Empty,
    /// The first byte that a version can't have, at its place in the whole text. Its number is 2.
    Char(u64),
    /// A component has nothing in it, or a part has no component. Its number is 3.
    EmptyPart,
    /// What stands before the `!` isn't one or more digits. Its number is 4.
    Epoch,
    /// A run of digits is above 2^128 - 1. Its number is 5.
    Wide,
    /// There are two `!` or two `+`, or a `+` stands before the `!`. Its number is 6.
    Twice,
}

/// Why a text is no constraint: of the faults that stand in it, the one with the least place, and
/// at one place the one with the lower number. Places are counted in bytes from 0.
#[derive(Clone, Copy, Debug, PartialEq, Eq)]
pub enum ConstraintFault {
    /// An item has nothing in it; its place is where the item would begin, behind blanks. Its
    /// number is 1.
    Empty(u64),
    /// A leaf begins with a run of `<`, `>`, `=`, `!` and `~` that is no operator. Its number is 2.
    Operator(u64),
    /// A leaf's version has no reading, or `~=` stands before one without a `.`, or with no reading
    /// of what stands before its last `.`; its place is the version's first byte. Its number is 3.
    Version(u64),
    /// A parenthesis, or a leaf behind a `)`, stands where none may, a `(` opens a level too many,
    /// or is never closed. Its number is 4.
    Paren(u64),
    /// A `*` stands where none may. Its number is 5.
    Star(u64),
}

/// Why a constraint was not read.
#[derive(Clone, Copy, Debug, PartialEq, Eq)]
pub enum ConstraintRefusal {
    /// The text has a fault.
    Fault(ConstraintFault),
    /// Memory ran out.
    Memory,
}

impl VersionFault {
    ghost use Rattle.conda_version.specs.Grammar.{version_fault_number};

    /// The number of the fault in print.
    pub fn number(self) -> u8
        ensures { result ≡ version_fault_number self }
    {
        match self {
            VersionFault::Empty => 1,
            VersionFault::Char(_) => 2,
            VersionFault::EmptyPart => 3,
            VersionFault::Epoch => 4,
            VersionFault::Wide => 5,
            VersionFault::Twice => 6,
        }
    }
}

impl ConstraintFault {
    ghost use Rattle.conda_version.specs.Constraint.{comes_before, constraint_fault_number, earlier, place_of, shifted};

    // Where the fault stands.
    fn place(self) -> u64
        ensures { result ≡ place_of self }
    {
        match self {
            ConstraintFault::Empty(at)
            | ConstraintFault::Operator(at)
            | ConstraintFault::Version(at)
            | ConstraintFault::Paren(at)
            | ConstraintFault::Star(at) => at,
        }
    }

    /// The number of the fault in print, which decides at one place.
    pub fn number(self) -> u8
        ensures { result ≡ constraint_fault_number self }
    {
        match self {
            ConstraintFault::Empty(_) => 1,
            ConstraintFault::Operator(_) => 2,
            ConstraintFault::Version(_) => 3,
            ConstraintFault::Paren(_) => 4,
            ConstraintFault::Star(_) => 5,
        }
    }

    // Whether the fault comes before another one.
    fn comes_before(self, other: ConstraintFault) -> bool
        ensures { result ≡ comes_before self other }
    {
        self.place() < other.place()
            || self.place() == other.place() && self.number() < other.number()
    }

    // The earlier of the fault and one that is known, if one is.
    pub(crate) fn or_earlier(self, known: Option<ConstraintFault>) -> ConstraintFault
        ensures { result ≡ earlier known self }
    {
        match known {
            Some(first) if !self.comes_before(first) => first,
            Some(_) | None => self,
        }
    }

    // The fault of something that begins so much further on.
    pub(crate) fn shifted(self, from: usize) -> ConstraintFault
        requires { from + place_of self < 2 ^ 64 }
        ensures { result ≡ shifted from self }
    {
        let from = from as u64;
        match self {
            ConstraintFault::Empty(at) => ConstraintFault::Empty(from + at),
            ConstraintFault::Operator(at) => ConstraintFault::Operator(from + at),
            ConstraintFault::Version(at) => ConstraintFault::Version(from + at),
            ConstraintFault::Paren(at) => ConstraintFault::Paren(from + at),
            ConstraintFault::Star(at) => ConstraintFault::Star(from + at),
        }
    }
}

impl From<AllocError> for ConstraintRefusal {
    ghost from_gives = { λ _ refusal. refusal ≡ Memory };

    fn from(_error: AllocError) -> ConstraintRefusal {
        ConstraintRefusal::Memory
    }
}
