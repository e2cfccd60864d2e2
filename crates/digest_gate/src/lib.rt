//! Digests: the SHA-256 of some bytes, its hexadecimal text, and bytes that have the digest under which
//! they were asked for.
//!
//! Contracts see a `Digest` as its 32 bytes and a `Body` as its bytes alone, since its digest follows
//! from them (`specs/Digest.antt`, `specs/Body.antt`).
//! The layer above takes bytes in by `Body::check` and no other way, so what it then holds has its digest.
#![tactic(auto)]

mod body;
mod digest;
mod laws;
#[cfg(test)]
mod tests;

pub use body::{Body, Mismatch};
pub use digest::Digest;
pub use laws::{digest_has_32_bytes, printed_digest_is_read};
