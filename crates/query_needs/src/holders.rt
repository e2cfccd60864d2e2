//! What holds an index or a shard for a query.

ghost use Rattle.std.specs.Prelude.{◌≡◌};
ghost use Rattle.query_needs.specs.Holders.{IsIndex, IsShard};

use closure_plan::{LeafHolder, PinHolder};
use fetch_flight::Verdict;
use link_io::Conn;
use shard_file::Leaf;
use shard_index::Index;
use std::marker::Model;
use std::sync::Arc;

/// A verdict that is an index. Other queries may share it. Contracts see the verdict.
#[derive(Drop)]
pub struct PinHold<L: Conn> {
    verdict: Arc<Verdict<L>>,
}

impl<L: Conn> Model for PinHold<L> {
    ghost use Rattle.fetch_flight.specs.declared.verdicts.Verdict.{Verdict};
    ghost use Rattle.query_needs.specs.Holders.{IsIndex};

    ghost Value = { Verdict L };

    ghost view = { λ h. h.verdict.value };

    ghost invariant = { λ h. IsIndex h.verdict.value };
}

impl<L: Conn> PinHold<L> {
    /// A holder of a verdict that is an index.
    pub fn new(verdict: Arc<Verdict<L>>) -> PinHold<L>
        requires { IsIndex verdict.value }
        ensures { result ≡ verdict.value }
    {
        PinHold { verdict }
    }

    /// The verdict.
    pub fn verdict(&self) -> &Verdict<L>
        ensures value { result.now ≡ self.now }
        ensures known { IsIndex self.now }
    {
        &self.verdict
    }
}

impl<L: Conn> PinHolder for PinHold<L> {
    ghost use Rattle.query_needs.specs.Holders.{index_in};

    ghost contents = { index_in };

    fn index(&self) -> &Index {
        match self.verdict() {
            Verdict::Index(pin) => pin.index(),
            Verdict::Shard(_) | Verdict::Wreck(_) => unreachable!(),
        }
    }
}

/// A verdict that is a shard. Other queries may share it. Contracts see the verdict.
#[derive(Drop)]
pub struct LeafHold<L: Conn> {
    verdict: Arc<Verdict<L>>,
}

impl<L: Conn> Model for LeafHold<L> {
    ghost use Rattle.fetch_flight.specs.declared.verdicts.Verdict.{Verdict};
    ghost use Rattle.query_needs.specs.Holders.{IsShard};

    ghost Value = { Verdict L };

    ghost view = { λ h. h.verdict.value };

    ghost invariant = { λ h. IsShard h.verdict.value };
}

impl<L: Conn> LeafHold<L> {
    /// A holder of a verdict that is a shard.
    pub fn new(verdict: Arc<Verdict<L>>) -> LeafHold<L>
        requires { IsShard verdict.value }
        ensures { result ≡ verdict.value }
    {
        LeafHold { verdict }
    }

    /// The verdict.
    pub fn verdict(&self) -> &Verdict<L>
        ensures value { result.now ≡ self.now }
        ensures known { IsShard self.now }
    {
        &self.verdict
    }
}

impl<L: Conn> LeafHolder for LeafHold<L> {
    ghost use Rattle.query_needs.specs.Holders.{leaf_in};

    ghost contents = { leaf_in };

    fn leaf(&self) -> &Leaf {
        match self.verdict() {
            Verdict::Shard(held) => held.leaf(),
            Verdict::Index(_) | Verdict::Wreck(_) => unreachable!(),
        }
    }
}
