//! What a flight came to.

ghost use Rattle.std.specs.Prelude.{◌≡◌, ◌⊎◌, true, false, IfOk};
ghost use Rattle.link_io.specs.Origin.{Origin};
ghost use Rattle.fetch_flight.specs.Verdict.{IsVerdict, key_of, size_of, number_of, comes_from};
ghost use Rattle.fetch_flight.specs.Pin.{IsPinOver, IsWreckOver};
ghost use Rattle.fetch_flight.specs.Pins.{IsPin, IsHeld};
ghost use Rattle.http_reply.specs.Going.{IsDecided};

use crate::causes::Cause;
use link_io::{Conn, HttpUrl, Key, Landed, Parcel, Target};
use shard_file::Leaf;
use shard_index::Index;
use std::marker::Model;

/// An index with the parcel in which it came. Contracts see it as `Pinned`.
#[derive(Drop)]
pub struct PinnedIndex<L: Conn> {
    pub(crate) parcel: Parcel<L>,
    pub(crate) index: Index,
    pub(crate) shards_base: HttpUrl,
    pub(crate) size: u64,
}

impl<L: Conn> Model for PinnedIndex<L> {
    ghost use Rattle.fetch_flight.specs.Made.{Pinned};
    ghost use Rattle.fetch_flight.specs.Pin.{IsPinOver};

    ghost Value = { Pinned L };

    ghost view = { λ p. record { parcel = p.parcel; index = p.index; shards_base = p.shards_base; size = p.size } };

    ghost invariant = { λ p. IsPinOver L.facts (record { parcel = p.parcel; index = p.index; shards_base = p.shards_base; size = p.size }) };
}

impl<L: Conn> PinnedIndex<L> {
    /// For what it was fetched.
    pub fn target(&self) -> &Target
        ensures value { result.now ≡ self.now.parcel.target }
        ensures known { IsPinOver L.facts self.now }
    {
        self.parcel.target()
    }

    /// How many bytes its body has.
    pub fn size(&self) -> u64
        ensures { result ≡ self.now.size }
    {
        self.size
    }

    /// The index.
    pub fn index(&self) -> &Index
        ensures { result.now ≡ self.now.index }
    {
        &self.index
    }

    /// Where its shards stand.
    pub fn shards_base(&self) -> &HttpUrl
        ensures { result.now ≡ self.now.shards_base }
    {
        &self.shards_base
    }

    /// The parcel in which it came.
    pub fn parcel(&self) -> &Parcel<L>
        ensures { result.now ≡ self.now.parcel }
    {
        &self.parcel
    }
}

/// A shard under its key.
#[derive(Drop)]
pub struct HeldShard {
    pub(crate) key: Key,
    pub(crate) leaf: Leaf,
    pub(crate) size: u64,
}

impl Model for HeldShard {
    ghost use Rattle.fetch_flight.specs.Made.{Held};
    ghost use Rattle.fetch_flight.specs.Pins.{IsHeld};

    ghost Value = { Held };

    ghost view = { λ h. record { key = h.key; leaf = h.leaf; size = h.size } };

    ghost invariant = { λ h. IsHeld (record { key = h.key; leaf = h.leaf; size = h.size }) };
}

impl HeldShard {
    /// The key under which it was fetched.
    pub fn key(&self) -> &Key
        ensures value { result.now ≡ self.now.key }
        ensures known { IsHeld self.now }
    {
        &self.key
    }

    /// How many bytes it has.
    pub fn size(&self) -> u64
        ensures { result ≡ self.now.size }
    {
        self.size
    }

    /// The shard.
    pub fn leaf(&self) -> &Leaf
        ensures { result.now ≡ self.now.leaf }
    {
        &self.leaf
    }
}

/// A parcel without a value, and why.
#[derive(Drop)]
pub struct Wreck<L: Conn> {
    pub(crate) parcel: Parcel<L>,
    pub(crate) cause: Cause,
}

impl<L: Conn> Model for Wreck<L> {
    ghost use Rattle.fetch_flight.specs.Made.{Wrecked};
    ghost use Rattle.fetch_flight.specs.Pin.{IsWreckOver};

    ghost Value = { Wrecked L };

    ghost view = { λ w. record { parcel = w.parcel; cause = w.cause } };

    ghost invariant = { λ w. IsWreckOver L.facts (record { parcel = w.parcel; cause = w.cause }) };
}

impl<L: Conn> Wreck<L> {
    /// For what it was fetched.
    pub fn target(&self) -> &Target
        ensures value { result.now ≡ self.now.parcel.target }
        ensures known { IsWreckOver L.facts self.now }
    {
        self.parcel.target()
    }

    /// What came.
    pub fn parcel(&self) -> &Parcel<L>
        ensures { result.now ≡ self.now.parcel }
    {
        &self.parcel
    }

    /// Why there is no value.
    pub fn cause(&self) -> &Cause
        ensures { result.now ≡ self.now.cause }
    {
        &self.cause
    }
}

/// What a flight came to.
#[derive(Drop)]
pub enum Verdict<L: Conn> {
    Index(PinnedIndex<L>),
    Shard(HeldShard),
    Wreck(Wreck<L>),
}

impl<L: Conn> Landed for Verdict<L> {
    ghost use Rattle.fetch_flight.specs.Verdict.{key_of, size_of, number_of, comes_from, wrecks-numbered};

    ghost key = { key_of };

    ghost size = { size_of };

    ghost number = { number_of L.facts };

    ghost from = { comes_from L.from };

    fn key(&self) -> &Key {
        match self {
            Verdict::Index(pin) => &pin.target().key,
            Verdict::Shard(held) => held.key(),
            Verdict::Wreck(wreck) => &wreck.target().key,
        }
    }

    fn size(&self) -> Option<u64> {
        match self {
            Verdict::Index(pin) => Some(pin.size()),
            Verdict::Shard(held) => Some(held.size()),
            Verdict::Wreck(_) => None,
        }
    }

    ghost numbered = { wrecks-numbered L.facts };
}
