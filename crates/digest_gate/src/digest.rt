//! The SHA-256 digest of some bytes (FIPS 180-4), and its hexadecimal text.

ghost use Rattle.std.specs.Prelude.{◌≡◌, ◌+◌, ◌<◌, ◌++◌, ◌↔◌, IsSome, IfSome, OnOk, OnErr, vec_len, vec_capacity};

use hex::FromHex;
use sha2::Sha256;
use std::alloc::AllocError;

/// The SHA-256 digest of some bytes; digests are ordered by their bytes (FIPS 180-4, 6.2).
#[derive(Clone, Copy, Debug, PartialEq, Eq, PartialOrd, Ord, Hash)]
pub struct Digest(pub [u8; 32]);

impl Digest {
    ghost use Rattle.digest_gate.specs.Digest.{IsDigest, digest_of, text_of, Spells, IsDigestText, digest_in};

    /// The digest of these bytes. It takes no memory.
    pub fn of(bytes: &[u8]) -> Digest
        ensures { result ≡ digest_of bytes.now }
    {
        Digest(<Sha256 as sha2::Digest>::digest(bytes))
    }

    /// The digest that a text spells: 64 hexadecimal digits, each of either case, two for a byte.
    ///
    /// `None` where the text is of another form. (docs/FORMATS.md, "Digests".)
    pub fn from_hex(text: &str) -> Option<Digest>
        // What is read is spelled so, and what is spelled so is read.
        ensures found { IfSome result (Spells text.now) }
        ensures only { (digest : Digest) → IsDigest digest → Spells text.now digest
            → result ≡ Some digest }

        // Its form alone decides whether a text is read.
        ensures exact { IsSome result ↔ IsDigestText text.now }
        ensures value { result ≡ digest_in text.now }
    {
        <[u8; 32] as FromHex>::from_hex(text).ok().map(Digest)
    }

    /// Appends the digest's 64 hexadecimal digits, in lower case.
    ///
    /// At want of memory, which comes only where the vector has no room for them, it is as before.
    pub fn put_hex(&self, out: &mut Vec<u8>) -> Result<(), AllocError>
        ensures ok { OnOk result (out.new.items ≡ out.old.items ++ text_of self.now) }
        ensures unchanged { OnErr result (out.new.items ≡ out.old.items) }
        ensures room { OnErr result (vec_capacity out.old < vec_len out.old + 64) }
    {
        let mut digits = [0u8; 64];
        hex::encode_to_slice(self.0, &mut digits).unwrap();
        out.extend_from_slice(&digits)
    }
}
