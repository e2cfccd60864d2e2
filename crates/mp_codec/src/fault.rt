//! What may be wrong with bytes that should be a value, a record, a shard or an index.

ghost use Rattle.std.specs.Prelude.{◌≡◌};

/// What is wrong.
#[derive(Clone, Copy, Debug, PartialEq, Eq)]
pub enum FaultKind {
    /// The bytes end within a value. Printed as 1.
    Short,
    /// The byte 0xc1, which is never used, stands at a value's place. Printed as 2.
    Reserved,
    /// A str that must be text isn't UTF-8. Printed as 3.
    NotText,
    /// A value is of another kind than the one that must stand there. Printed as 4.
    Wrong,
    /// A map ends without a key that it must have. Printed as 5.
    Missing,
    /// A known key, a file name or a package name stands a second time in one map. Printed as 6.
    Repeated,
    /// Bytes follow the top value. Printed as 7.
    Trailing,
    /// The version of an index isn't 1. Printed as 8.
    Version,
}

/// A fault, and the place at which it stands, in bytes from 0.
#[derive(Clone, Copy, Debug, PartialEq, Eq)]
pub struct FormatFault {
    /// The place: for Short the number of bytes, for Missing the place behind the map's last byte,
    /// else the first byte of the value or key that is wrong.
    pub at: u64,
    /// What is wrong there.
    pub kind: FaultKind,
}

impl FormatFault {
    /// The fault of this kind at a place, which is counted in bytes from 0.
    pub fn new(at: usize, kind: FaultKind) -> FormatFault
        ensures { result ≡ record { at = at; kind = kind } }
    {
        FormatFault {
            at: at as u64,
            kind,
        }
    }
}
