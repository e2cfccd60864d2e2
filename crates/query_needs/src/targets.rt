//! What a need is fetched as.

ghost use Rattle.std.specs.Prelude.{◌≡◌, ◌<◌, Some, length, slice_get, IfOk};
ghost use Rattle.std.specs.Option.{option_flatten};
ghost use Rattle.link_io.specs.Target.{IsPlain};
ghost use Rattle.closure_request.specs.Slots.{slots, slot_at};
ghost use Rattle.closure_plan.specs.Plan.{IsNeed, its_pins, digest_of_need};
ghost use Rattle.closure_plan.specs.declared.need.Need.TheVariants as need;
ghost use Rattle.query_needs.specs.Holders.{index_in, leaf_in};
ghost use Rattle.query_needs.specs.Known.{IsKnown};
ghost use Rattle.query_needs.specs.Targets.{IsFormed, target_of, slot_target, shard_target, shards_base_of};

use crate::holders::{LeafHold, PinHold};
use channel_url::{a_shards_base_is_short_and_slashed, index_url, shard_url};
use closure_plan::{Need, Plan};
use digest_gate::Digest;
use fetch_flight::{PinnedIndex, Verdict};
use link_io::{Conn, HttpUrl, Key, Target};
use std::alloc::{AllocError, Global};

/// What a need of a plan is fetched as.
pub fn target_for<L: Conn>(
    alloc: Global,
    plan: &Plan<PinHold<L>, LeafHold<L>>,
    need: Need,
) -> Result<Target, AllocError>
    requires known { IsKnown L.facts plan.now.known }
    requires needed { IsNeed plan.now.known.request (its_pins index_in leaf_in plan.now.known)
        plan.now.known.names need }
    ensures target { IfOk result (λ target. target ≡ target_of plan.now.known need) }
    ensures plain { IfOk result IsPlain }
{
    match need {
        Need::Index(slot) => index_target(alloc, plan, slot),
        Need::Shard(slot, n) => shard_target(alloc, plan, slot, n),
    }
}

// What the index of a slot is fetched as.
fn index_target<L: Conn>(
    alloc: Global,
    plan: &Plan<PinHold<L>, LeafHold<L>>,
    slot: usize,
) -> Result<Target, AllocError>
    requires formed { IsFormed plan.now.known.request }
    requires within { slot < length (slots plan.now.known.request) }
    ensures target { IfOk result (λ target. target ≡ slot_target plan.now.known.request slot) }
    ensures plain { IfOk result IsPlain }
{
    let (Some(base), Some(subdir)) = (plan.base(slot), plan.subdir(slot)) else {
        unreachable!()
    };
    let url = index_url(alloc, base, subdir)?;
    Ok(Target {
        key: Key::Index(url.copy(alloc)?),
        url,
    })
}

// What the shard of a name in a slot is fetched as.
fn shard_target<L: Conn>(
    alloc: Global,
    plan: &Plan<PinHold<L>, LeafHold<L>>,
    slot: usize,
    n: usize,
) -> Result<Target, AllocError>
    requires known { IsKnown L.facts plan.now.known }
    requires needed { IsNeed plan.now.known.request (its_pins index_in leaf_in plan.now.known)
        plan.now.known.names (need.Shard slot n) }
    ensures target { IfOk result (λ target. target ≡ target_of plan.now.known (need.Shard slot n)) }
    ensures plain { IfOk result IsPlain }
{
    let (Some(holder), Some(digest)) = (plan.holder(slot), plan.digest(Need::Shard(slot, n))) else {
        unreachable!()
    };
    let Verdict::Index(pin) = holder.verdict() else {
        unreachable!()
    };
    below(alloc, pin, digest)
}

// What the shard of a digest is fetched as, below the base of an index.
fn below<L: Conn>(alloc: Global, pin: &PinnedIndex<L>, digest: Digest) -> Result<Target, AllocError>
    ensures target { IfOk result (λ target. target ≡ shard_target pin.now.shards_base
        (Some digest)) }
    ensures plain { IfOk result IsPlain }
{
    a_shards_base_is_short_and_slashed();
    let _known = pin.target();
    let url = shard_url(alloc, pin.shards_base(), &digest)?;
    Ok(Target {
        key: Key::Shard(digest),
        url,
    })
}
