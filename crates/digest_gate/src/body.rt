//! Bytes with their digest, and the one way to come by them.

ghost use Rattle.std.specs.Prelude.{◌≡◌, ◌↔◌, IsOk, IfOk, IfErr};

use crate::digest::Digest;
use std::marker::Model;

/// Bytes whose digest is known: it is the SHA-256 of the bytes, by this type.
#[derive(Debug, Drop)]
pub struct Body {
    bytes: Vec<u8>,
    digest: Digest,
}

impl Model for Body {
    ghost use Rattle.std.specs.Prelude.{◌≡◌, List, ℕ};

    ghost Value = { List ℕ };

    ghost use Rattle.digest_gate.specs.Digest.{digest_of};

    ghost view = { λ body. body.bytes.items };

    ghost invariant = { λ body. body.digest ≡ digest_of body.bytes.items };
}

/// Bytes of another digest than the one that was asked for.
#[derive(Debug, Drop)]
pub struct Mismatch {
    /// The digest that was asked for.
    pub want: Digest,
    /// The digest of the bytes.
    pub got: Digest,
    /// The bytes, handed back.
    pub bytes: Vec<u8>,
}

impl Body {
    ghost use Rattle.digest_gate.specs.Digest.{digest_of};
    ghost use Rattle.digest_gate.specs.Body.{Differs};

    /// Takes bytes in where their digest is the one that is wanted. It goes over them once and takes
    /// no memory.
    ///
    /// `Mismatch` where their digest is another one, with both digests and the bytes.
    pub fn check(bytes: Vec<u8>, want: Digest) -> Result<Body, Mismatch>
        ensures ok { IfOk result (λ body. body ≡ bytes.items) }
        ensures err { IfErr result (Differs bytes.items want) }
        // The digest alone decides which of the two it is.
        ensures exact { IsOk result ↔ (digest_of bytes.items ≡ want) }
    {
        let got = Digest::of(&bytes);
        if got != want {
            return Err(Mismatch { want, got, bytes });
        }
        Ok(Body { bytes, digest: got })
    }

    /// The digest of the bytes. It was kept and costs nothing.
    pub fn digest(&self) -> Digest
        ensures { result ≡ digest_of self.now }
    {
        self.digest
    }

    /// The bytes.
    pub fn bytes(&self) -> &[u8]
        ensures { result.now ≡ self.now }
    {
        &self.bytes
    }

    /// The bytes, given back.
    pub fn into_bytes(self) -> Vec<u8>
        ensures { result.items ≡ self }
    {
        let Body { bytes, digest: _ } = self;
        bytes
    }
}
