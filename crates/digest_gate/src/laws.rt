//! Laws over the definitions, each the contract of a function with no body.

ghost use Rattle.std.specs.Prelude.{◌≡◌, List, ℕ};
ghost use Rattle.digest_gate.specs.Digest.{IsDigest, digest_of, text_of, digest_in};

use crate::digest::Digest;

/// The digest of any bytes has 32 bytes.
pub fn digest_has_32_bytes()
    ensures { (bytes : List ℕ) → IsDigest (digest_of bytes) }
{}

/// What `Digest::put_hex` prints, `Digest::from_hex` reads as the same digest.
pub fn printed_digest_is_read()
    ensures { (digest : Digest) → IsDigest digest → digest_in (text_of digest) ≡ Some digest }
{}
