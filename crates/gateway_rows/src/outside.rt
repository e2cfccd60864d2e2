//! The sources and the sinks of the rows.
ghost use Rattle.std.specs.Prelude.{◌≡◌, ◌≤◌, IfOk};
ghost use Rattle.link_io.specs.Memory.{input_of, output_of};

use link_io::{MemSink, MemSource};
use std::alloc::{AllocError, Global};

/// A source that has these bytes left and gives at most `piece` of them at once. The reads whose
/// numbers are in `fails` fail, counted from 0.
///
/// `AllocError` where the memory isn't there.
pub fn source(
    alloc: Global,
    bytes: Vec<u8>,
    piece: usize,
    fails: &[u64],
) -> Result<MemSource, AllocError>
    requires { 1 ≤ piece }
    ensures { IfOk result (λ source. source ≡ input_of bytes.items piece fails.now) }
{
    Ok(MemSource::new(alloc, bytes, piece, Vec::from_slice(alloc, fails)?))
}

/// A sink that has taken nothing, has room for that many bytes, and takes at most `piece` of them
/// at once. The writes whose numbers are in `fails` fail, counted from 0.
///
/// `AllocError` where the memory isn't there.
pub fn sink(alloc: Global, room: usize, piece: usize, fails: &[u64]) -> Result<MemSink, AllocError>
    requires { 1 ≤ piece }
    ensures { IfOk result (λ sink. sink ≡ output_of room piece fails.now) }
{
    MemSink::new(alloc, room, piece, Vec::from_slice(alloc, fails)?)
}
