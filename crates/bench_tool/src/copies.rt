//! Copies of the bytes that a turn reads.

use std::alloc::Global;

// A copy of some bytes, made at once: `to_vec` of this library goes byte by byte.
pub(crate) fn copied(alloc: Global, bytes: &[u8]) -> anyhow::Result<Vec<u8>> {
    let mut copy = Vec::with_capacity(alloc, bytes.len())?;
    copy.extend_from_slice(bytes)?;
    Ok(copy)
}
