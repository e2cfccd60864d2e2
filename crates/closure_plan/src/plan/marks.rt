//! Marks of needs that are under way.

ghost use Rattle.std.specs.Prelude.{◌≡◌, ◌++◌, ◌∷◌, [], false};
ghost use Rattle.closure_plan.specs.Needs.{is_digest};
ghost use Rattle.closure_plan.specs.Plan.{IsNeed, has_given, has_need, its_pins, same_need, without};

use crate::holders::{LeafHolder, PinHolder};
use crate::need::Need;
use crate::plan::Plan;
use digest_gate::Digest;

impl<P: PinHolder, H: LeafHolder> Plan<P, H> {
    /// Marks a need, which is neither marked nor given. It takes no memory.
    pub fn mark(&mut self, need: Need)
        requires needed { IsNeed self.old.known.request (its_pins P.contents H.contents
            self.old.known) self.old.known.names need }
        requires unmarked { has_need self.old.marked need ≡ false }
        requires not_given { has_given P.contents H.contents self.old.known need ≡ false }
        ensures { self.new ≡ record self.old { marked = self.old.marked ++ need ∷ [] } }
    {
        self.marks.push_reserved(need);
    }

    /// Takes the mark of a need away. It takes no memory.
    pub fn unmark(&mut self, need: Need)
        ensures { self.new ≡ record self.old { marked = without need self.old.marked } }
    {
        self.marks.retain(|mark| !is_same_need(need, *mark));
    }
}

// Whether a need is marked.
pub(crate) fn is_marked(marks: &[Need], need: Need) -> bool
    ensures { result ≡ has_need marks.now need }
{
    marks.iter().any(|mark| is_same_need(need, *mark))
}

// Whether two needs are one.
pub(crate) fn is_same_need(one: Need, other: Need) -> bool
    ensures { result ≡ same_need one other }
{
    match (one, other) {
        (Need::Index(s), Need::Index(t)) => s == t,
        (Need::Shard(s, k), Need::Shard(t, m)) => s == t && k == m,
        (Need::Index(_), Need::Shard(_, _)) | (Need::Shard(_, _), Need::Index(_)) => false,
    }
}

// Whether two digests are there and are one.
pub(crate) fn is_digest(one: Option<Digest>, other: Option<Digest>) -> bool
    ensures { result ≡ is_digest one other }
{
    match (one, other) {
        (Some(d), Some(e)) => d == e,
        (Some(_), None) | (None, _) => false,
    }
}
