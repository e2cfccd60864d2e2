//! What a value for a need comes to.

ghost use Rattle.std.specs.Prelude.{◌≡◌, ◌≢◌, Decides, None, Some, true, false};
ghost use Rattle.fetch_flight.specs.Verdict.{key_of, size_of};
ghost use Rattle.closure_plan.specs.declared.need.Need.TheVariants as need;
ghost use Rattle.closure_plan.specs.Plan.{has_need};
ghost use Rattle.query_needs.specs.Known.{IsKnown, IsPinOf, IsLeafHeld, IsSound};
ghost use Rattle.query_needs.specs.Takes.{IsGivenOr, IsNeeded, IsUnmarked, Owns, Takes, is_filled};
ghost use Rattle.query_needs.specs.Targets.{key_at, target_of};

use crate::holders::{LeafHold, PinHold};
use closure_plan::{Need, Part, Plan, more_only_adds, one_need_is_filled};
use fetch_flight::Verdict;
use link_io::{Conn, Target};
use std::sync::Arc;

/// What a value for a need came to.
#[derive(Drop)]
pub enum Taken<L: Conn> {
    /// The plan has it.
    Given(Plan<PinHold<L>, LeafHold<L>>),
    /// It is a wreck of another target. The need is marked no more: it is asked for again.
    Again(Plan<PinHold<L>, LeafHold<L>>),
    /// It is a wreck of the need's own target: what was given until then, and the wreck.
    Failed(Part<PinHold<L>, LeafHold<L>>, Arc<Verdict<L>>),
    /// Memory ran out. The plan is gone.
    Memory,
}

/// Takes in the value of a flight for a marked need, whose target this is.
pub fn take_in<L: Conn>(
    plan: Plan<PinHold<L>, LeafHold<L>>,
    need: Need,
    target: &Target,
    value: Arc<Verdict<L>>,
) -> Taken<L>
    requires known { IsKnown L.facts plan.known }
    requires needed { IsNeeded plan.known need }
    requires not_given { is_filled plan.known need ≡ false }
    requires marked { has_need plan.marked need ≡ true }
    requires target { target.now ≡ target_of plan.known need }
    requires keyed { key_of value.value ≡ target.now.key }
    ensures { Takes L.facts need value.value plan result }
{
    match own_wreck(&value, target) {
        None => given(plan, need, value),
        Some(true) => Taken::Failed(plan.into_part(), value),
        Some(false) => again(plan, need),
    }
}

// Whether a value that is a wreck is of this target; None where it is an index or a shard.
fn own_wreck<L: Conn>(value: &Arc<Verdict<L>>, target: &Target) -> Option<bool>
    ensures { Owns L.facts value.now.value target.now result }
{
    match &**value {
        Verdict::Wreck(wreck) => Some(is_same(wreck.target(), target)),
        Verdict::Index(_) | Verdict::Shard(_) => None,
    }
}

// Whether two targets are one.
fn is_same(one: &Target, other: &Target) -> bool
    ensures { Decides result (one.now ≡ other.now) }
{
    one == other
}

// The need is asked for again.
fn again<L: Conn>(mut plan: Plan<PinHold<L>, LeafHold<L>>, need: Need) -> Taken<L>
    ensures { IsUnmarked need plan result }
{
    plan.unmark(need);
    Taken::Again(plan)
}

// A value that is an index or a shard goes into the plan.
fn given<L: Conn>(
    plan: Plan<PinHold<L>, LeafHold<L>>,
    need: Need,
    value: Arc<Verdict<L>>,
) -> Taken<L>
    requires known { IsKnown L.facts plan.known }
    requires needed { IsNeeded plan.known need }
    requires not_given { is_filled plan.known need ≡ false }
    requires marked { has_need plan.marked need ≡ true }
    requires keyed { key_of value.value ≡ key_at plan.known need }
    requires sized { size_of value.value ≢ None }
    ensures { IsGivenOr L.facts need value.value plan result }
{
    tell(&value);
    match need {
        Need::Index(slot) => pinned(plan, slot, value),
        Need::Shard(slot, n) => filled(plan, slot, n, value),
    }
}

// An index is pinned.
fn pinned<L: Conn>(
    mut plan: Plan<PinHold<L>, LeafHold<L>>,
    slot: usize,
    value: Arc<Verdict<L>>,
) -> Taken<L>
    requires known { IsKnown L.facts plan.known }
    requires needed { IsNeeded plan.known (need.Index slot) }
    requires not_given { is_filled plan.known (need.Index slot) ≡ false }
    requires marked { has_need plan.marked (need.Index slot) ≡ true }
    requires pin { IsPinOf L.facts plan.known.request slot value.value }
    ensures { IsGivenOr L.facts (need.Index slot) value.value plan result }
{
    plan.tell();
    more_only_adds();
    one_need_is_filled::<PinHold<L>, LeafHold<L>>();
    match plan.pin(slot, PinHold::new(value)) {
        Ok(()) => Taken::Given(plan),
        Err(_) => Taken::Memory,
    }
}

// A shard is given.
fn filled<L: Conn>(
    mut plan: Plan<PinHold<L>, LeafHold<L>>,
    slot: usize,
    n: usize,
    value: Arc<Verdict<L>>,
) -> Taken<L>
    requires known { IsKnown L.facts plan.known }
    requires needed { IsNeeded plan.known (need.Shard slot n) }
    requires not_given { is_filled plan.known (need.Shard slot n) ≡ false }
    requires marked { has_need plan.marked (need.Shard slot n) ≡ true }
    requires leaf { IsLeafHeld value.value }
    requires keyed { key_of value.value ≡ key_at plan.known (need.Shard slot n) }
    ensures { IsGivenOr L.facts (need.Shard slot n) value.value plan result }
{
    plan.tell();
    more_only_adds();
    one_need_is_filled::<PinHold<L>, LeafHold<L>>();
    match plan.give(Need::Shard(slot, n), LeafHold::new(value)) {
        Ok(()) => {
            plan.tell();
            Taken::Given(plan)
        }
        Err(_) => Taken::Memory,
    }
}

// Says what is so of each verdict.
fn tell<L: Conn>(value: &Arc<Verdict<L>>)
    ensures { IsSound L.facts value.now.value }
{
    match &**value {
        Verdict::Index(pin) => {
            let _known = pin.target();
        }
        Verdict::Shard(held) => {
            let _known = held.key();
            held.leaf().tell();
        }
        Verdict::Wreck(wreck) => {
            let _known = wreck.target();
        }
    }
}
