//! What is fetched.

ghost use Rattle.std.specs.Prelude.{◌≡◌, IfOk};
ghost use Rattle.std.specs.declared.cmp.Ordering.TheVariants.{Equal};
ghost use Rattle.link_io.specs.declared.target.Key.{Key};

use crate::address::HttpUrl;
use digest_gate::Digest;
use std::alloc::{AllocError, Global};

/// By what a fetch is known, whatever asks for it. Keys are compared as values: those of indexes come
/// first, by their addresses, then those of shards, by their digests.
#[derive(Debug, PartialEq, Eq, PartialOrd, Ord, Drop)]
pub enum Key {
    /// The index at an address.
    Index(HttpUrl),
    /// The shard with a digest.
    Shard(Digest),
}

/// What is fetched, and from where: a key with the address to fetch it from.
#[derive(Debug, PartialEq, Eq, Drop)]
pub struct Target {
    /// By what the fetch is known.
    pub key: Key,
    /// Where it is fetched from.
    pub url: HttpUrl,
}

impl Key {
    /// A copy.
    pub fn copy(&self, alloc: Global) -> Result<Key, AllocError>
        ensures { IfOk result (λ key. key ≡ self.now) }
    {
        match self {
            Key::Index(url) => Ok(Key::Index(url.copy(alloc)?)),
            Key::Shard(digest) => Ok(Key::Shard(*digest)),
        }
    }
}

impl Target {
    /// A copy.
    pub fn copy(&self, alloc: Global) -> Result<Target, AllocError>
        ensures { IfOk result (λ target. target ≡ self.now) }
    {
        Ok(Target {
            key: self.key.copy(alloc)?,
            url: self.url.copy(alloc)?,
        })
    }
}

/// Keys that compare as equal are one key, and each key compares as equal to itself.
pub fn keys_are_told_apart()
    ensures apart { (a b : Key) → ⟦<Key as Ord>⟧.cmp a b ≡ Equal → a ≡ b }
    ensures same { (a : Key) → ⟦<Key as Ord>⟧.cmp a a ≡ Equal }
{}

#[cfg(test)]
mod tests {
    use super::*;
    use std::test::Fail;

    fn index(alloc: Global, text: &str) -> Result<Key, Fail> {
        Ok(Key::Index(HttpUrl::read(alloc, text).ok().ok_or("it is an address")?))
    }

    #[test]
    fn keys_are_in_one_order(rt: HostRuntime) -> Result<(), Fail> {
        let first = index(rt.alloc(), "http://h/a")?;
        let second = index(rt.alloc(), "http://h/b")?;
        let shard = Key::Shard(Digest([7; 32]));
        assert!(rt; first < second);
        assert!(rt; second < shard);
        assert!(rt; Key::Shard(Digest([0; 32])) < shard);
        assert!(rt; first.copy(rt.alloc())? == first);
        assert!(rt; shard.copy(rt.alloc())? == shard);
        assert!(rt; first != second);
        Ok(())
    }
}
