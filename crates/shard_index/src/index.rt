//! An index.

use crate::info::Info;
use crate::listing::Listing;
use crate::reading::{Unsorted, as_they_stand};
use crate::refusal::IndexRefusal;
use digest_gate::Digest;
use std::alloc::Global;
use std::marker::Model;

/// The names of the packages that a subdir has, with the digest of each name's shard, and where its
/// packages and shards stand. Contracts see its `Contents`, which some bytes spell, by this type.
#[derive(Debug, Drop)]
pub struct Index {
    info: Info,
    listing: Listing,
}

impl Model for Index {
    ghost use Rattle.std.specs.Prelude.{List, ℕ};
    ghost use Rattle.std.specs.List.Sorted.{IsSortedBy};
    ghost use Rattle.shard_index.specs.Index.{Contents, IndexOf, name_lt};

    ghost Value = { Contents };

    ghost view = { λ index. record { info = index.info; listed = index.listing } };

    ghost invariant = { λ index. IsSortedBy name_lt index.listing
        × ∥ ((bytes : List ℕ) × IndexOf bytes (record { info = index.info; listed = index.listing })) ∥₁ };
}

impl Index {
    ghost use Rattle.std.specs.Prelude.{◌≡◌, List, ℕ, length, IfOk, IfErr, IfSome, MatchResult};
    ghost use Rattle.std.specs.List.Sorted.{IsSortedBy};
    ghost use Rattle.mp_codec.specs.Fault.{IsFirstFault};
    ghost use Rattle.shard_index.specs.Index.{Contents, IndexOf, IndexFault, name_lt, digest_at};
    ghost use Rattle.gateway_words.specs.Reading.{Gives};
    ghost use Rattle.shard_index.specs.Reading.{index_of};
    ghost use Rattle.shard_index.specs.Seen.{fault_of};

    /// The index that the bytes spell, all of the bytes.
    ///
    /// `Fault` with the first fault that stands in the bytes: a value that breaks off, a part of
    /// another kind, a name that is no text, a version other than 1, missing `shards`, a known key or
    /// a name that stands twice, bytes behind the index. `Memory` where memory runs out.
    /// (CEP 16, "repodata shard index"; `docs/FORMATS.md`, "Indexes".)
    pub fn read(alloc: Global, bytes: &[u8]) -> Result<Index, IndexRefusal>
        // What is read is spelled by the bytes, and nothing is wrong with them.
        ensures found { IfOk result (λ index. IndexOf bytes.now index) }
        // What is spelled with nothing wrong is read, unless memory runs out.
        ensures only { (contents : Contents) → IndexOf bytes.now contents
            → MatchResult result (λ index. index ≡ contents) (λ e. e ≡ IndexRefusal.Memory) }
        // A fault is the first one.
        ensures fault { IfErr result (λ e.
            IfSome (fault_of e) (IsFirstFault (IndexFault bytes.now))) }
        ensures exact { Gives (λ index. index) fault_of result (index_of bytes.now) }
    {
        Index::sorted(alloc, bytes)
    }

    /// Says that there are bytes of which this is the index; it does nothing.
    pub fn tell(&self)
        ensures read { ∥ ((bytes : List ℕ) × IndexOf bytes self.now) ∥₁ }
        ensures ascending { IsSortedBy name_lt self.now.listed }
    {
        let _listing = &self.listing;
    }

    /// The digest that is listed for a name, byte by byte, or None where the name isn't listed. It
    /// takes no memory, and as many comparisons as the number of names has binary digits.
    pub fn lookup(&self, name: &str) -> Option<Digest>
        ensures { result ≡ digest_at name.now self.now.listed }
    {
        self.listing.digest_at(name)
    }

    /// How many names are listed.
    pub fn len(&self) -> usize
        ensures { result ≡ length self.now.listed }
    {
        self.listing.len()
    }

    /// Where the packages stand: an address, or a part of one that is joined to the index's own.
    pub fn base_url(&self) -> &str
        ensures { result.now ≡ self.now.info.base_url }
    {
        self.info.base_url.as_str()
    }

    /// Where the shards stand: an address, or a part of one that is joined to the index's own.
    pub fn shards_base_url(&self) -> &str
        ensures { result.now ≡ self.now.info.shards_base_url }
    {
        self.info.shards_base_url.as_str()
    }

    /// The name of the subdir, which is empty where the index has none.
    pub fn subdir(&self) -> &str
        ensures { result.now ≡ self.now.info.subdir }
    {
        self.info.subdir.as_str()
    }
}

impl Index {
    ghost use Rattle.std.specs.Prelude.{◌≡◌};
    ghost use Rattle.gateway_words.specs.Reading.{Gives};
    ghost use Rattle.shard_index.specs.Reading.{index_of};
    ghost use Rattle.shard_index.specs.Seen.{fault_of};

    // What the index says that some bytes are, with its names in their order.
    #[tactic(auto, unfolding(crate::specs::Reading::index_of))]
    fn sorted(alloc: Global, bytes: &[u8]) -> Result<Index, IndexRefusal>
        ensures { Gives (λ index. index) fault_of result (index_of bytes.now) }
    {
        let Unsorted { info, mut listing } = as_they_stand(alloc, bytes)?;
        listing.sort()?;
        Ok(Index { info, listing })
    }
}
