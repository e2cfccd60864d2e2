//! A shard whose bytes have the digest under which they were asked for.

use crate::reading::sorted_rows;
use crate::shard::Shard;
use conda_record::RecordRefusal;
use digest_gate::{Body, Digest};
use mp_codec::FormatFault;
use std::alloc::Global;
use std::marker::Model;

/// A shard with the digest of its bytes, which is their SHA-256, by this type.
#[derive(Debug, Drop)]
pub struct Leaf {
    shard: Shard,
    digest: Digest,
}

impl Model for Leaf {
    ghost use Rattle.std.specs.Prelude.{◌≡◌};
    ghost use Rattle.shard_file.specs.Rows.{Contents};

    ghost Value = { Contents };

    ghost use Rattle.digest_gate.specs.Digest.{digest_of};

    ghost view = { λ leaf. leaf.shard };

    ghost invariant = { λ leaf. leaf.digest ≡ digest_of leaf.shard.bytes };
}

/// Why a body could not be read as a leaf. The body is handed back.
#[derive(Debug, Drop)]
pub enum LeafRefusal {
    /// The bytes are no shard: the first fault that stands in them.
    Fault(FormatFault, Body),
    /// Memory ran out.
    Memory(Body),
}

impl Leaf {
    ghost use Rattle.std.specs.Prelude.{◌≡◌, List, None, IfOk, IfErr, IfSome, MatchResult};
    ghost use Rattle.digest_gate.specs.Digest.{digest_of};
    ghost use Rattle.mp_codec.specs.Fault.{IsFirstFault};
    ghost use Rattle.shard_file.specs.Rows.{Row, ShardOf, ShardFault};
    ghost use Rattle.gateway_words.specs.Reading.{Gives};
    ghost use Rattle.shard_file.specs.Reading.{shard_of};
    ghost use Rattle.shard_file.specs.Leaf.{leaf_fault_of, body_back};

    /// The shard that the bytes of a body spell, all of the bytes.
    ///
    /// `Fault` and `Memory` where `Shard::read` answers them. Each hands the body back.
    pub fn read(alloc: Global, body: Body) -> Result<Leaf, LeafRefusal>
        // What is read is spelled by the body, and nothing is wrong with it.
        ensures found { IfOk result (λ leaf. ShardOf body leaf.rows) }
        // What is spelled with nothing wrong is read, unless memory runs out.
        ensures only { (rows : List Row) → ShardOf body rows
            → MatchResult result (λ leaf. leaf.rows ≡ rows) (λ e. leaf_fault_of e ≡ None) }
        // A fault is the first one.
        ensures fault { IfErr result (λ e.
            IfSome (leaf_fault_of e) (IsFirstFault (ShardFault body))) }

        ensures exact { Gives (λ leaf. leaf.rows) leaf_fault_of result (shard_of body) }

        ensures back { MatchResult result (λ leaf. leaf.bytes ≡ body)
            (λ e. body_back e ≡ body) }
    {
        match sorted_rows(alloc, body.bytes()) {
            Ok(rows) => {
                let digest = body.digest();
                let bytes = body.into_bytes();
                Ok(Leaf {
                    shard: Shard { bytes, rows },
                    digest,
                })
            }
            Err(RecordRefusal::Fault(fault)) => Err(LeafRefusal::Fault(fault, body)),
            Err(RecordRefusal::Memory) => Err(LeafRefusal::Memory(body)),
        }
    }

    /// Says that the rows are those that the bytes spell; it does nothing.
    pub fn tell(&self)
        ensures { ∥ ShardOf self.now.bytes self.now.rows ∥₁ }
    {
        self.shard.tell();
    }

    /// The digest of the shard's bytes. It was kept and costs nothing.
    pub fn digest(&self) -> Digest
        ensures { result ≡ digest_of self.now.bytes }
    {
        self.digest
    }

    /// The shard.
    pub fn shard(&self) -> &Shard
        ensures { result.now ≡ self.now }
    {
        &self.shard
    }
}

#[cfg(test)]
mod tests {
    use super::*;
    use std::test::Fail;

    // The body of these bytes under their own digest.
    fn body(alloc: Global, bytes: &[u8]) -> Result<Body, Fail> {
        let bytes = bytes.to_vec(alloc)?;
        let digest = Digest::of(&bytes);
        Ok(
            Body::check(bytes, digest)
                .ok()
                .ok_or("it has its own digest")?,
        )
    }

    #[test]
    fn a_leaf_has_the_digest_of_its_bytes(rt: HostRuntime) -> Result<(), Fail> {
        let leaf = Leaf::read(rt.alloc(), body(rt.alloc(), b"\x80")?)
            .ok()
            .ok_or("these bytes are a shard")?;
        assert_eq!(rt; leaf.shard().len(), 0);
        assert_eq!(rt; leaf.shard().bytes(), b"\x80".as_slice());
        assert!(rt; leaf.digest() == Digest::of(b"\x80"));
        Ok(())
    }

    #[test]
    fn a_refused_leaf_hands_the_body_back(rt: HostRuntime) -> Result<(), Fail> {
        match Leaf::read(rt.alloc(), body(rt.alloc(), b"\x90")?) {
            Err(LeafRefusal::Fault(fault, body)) => {
                assert_eq!(rt; fault.kind, mp_codec::FaultKind::Wrong);
                assert_eq!(rt; fault.at, 0);
                assert_eq!(rt; body.bytes(), b"\x90".as_slice());
                assert!(rt; body.digest() == Digest::of(b"\x90"));
                Ok(())
            }
            Err(LeafRefusal::Memory(_)) | Ok(_) => Err("it isn't refused".into()),
        }
    }
}
