//! The run of a request over a store.

ghost use Rattle.std.specs.Prelude.{◌≡◌, ◌<◌, ◌≤◌, [], Some, length, IfOk, IfErr, OnOk, IfSome, IsErrOf};
ghost use Rattle.gateway_words.specs.Causes.{Rose};
ghost use Rattle.gateway_words.specs.Reading.{Gives};
ghost use Rattle.digest_gate.specs.Digest.{digest_of};
ghost use Rattle.closure_plan.specs.Plan.{CanMark, digest_of_need, its_pins, name_at, wish_of};
ghost use Rattle.closure_request.specs.Slots.{slots};
ghost use Rattle.closure_plan.specs.Needs.{the_index, the_shard};
ghost use Rattle.store_closure.specs.Places.{place_at, slot_places};
ghost use Rattle.store_closure.specs.Runs.{IsAnswer, StopsAt, with_index, with_need, with_rows};
ghost use Rattle.store_closure.specs.Stops.{bad_of, its_index, its_shard, taken};

use crate::files::{index_at, leaf_at};
use crate::holders::{OwnLeaf, OwnPin};
use crate::places::StorePlace;
use crate::stop::Stop;
use channel_store::Store;
use closure_plan::{Answer, Need, Plan};
use closure_request::Request;
use shard_file::Leaf;
use shard_index::Index;
use std::alloc::Global;

/// The closure of a request over the indexes and shards of a store, which stand at these places: one
/// for each slot of the request, in their order. It reads the file of each need, in the order in
/// which they are asked for, and changes no file.
///
/// `Bad` with the first file that is absent, has more than 33,554,432 bytes, has another digest than
/// the index lists, or is no index or shard. `Failed` where the store failed.
/// (`docs/FORMATS.md`, "Closures".)
pub fn closure_over<S: Store>(
    alloc: Global,
    store: &mut S,
    places: &[StorePlace],
    request: Request,
) -> Result<Answer<OwnPin, OwnLeaf>, Stop>
    requires { places.now ≡ slot_places request }
    // The rows of the answer, and where there is none.
    ensures answer { IfOk result (λ answer. IfSome (S.files store.old)
        (λ told. IsAnswer told request answer.rows)) }
    ensures bad { IfErr result (λ stop. IfSome (bad_of stop) (λ bad. IfSome (S.files store.old)
        (λ told. StopsAt told request bad))) }

    ensures same { S.files store.new ≡ S.files store.old }
    ensures later { S.faults store.old ≤ S.faults store.new }
    ensures cause { IsErrOf result Stop.Failed → Rose (S.faults store.old) (S.faults store.new) }
{
    let mut plan = Plan::new(alloc, request)?;
    for _ in 0..u64::MAX {
        match plan.next() {
            Some(need) => take_in(alloc, store, places, &mut plan, need)?,
            None => break,
        }
    }
    // So many needs are never given, since a plan lies in memory.
    if !plan.is_done() {
        return Err(Stop::Memory);
    }
    Ok(plan.finish()?)
}

// Takes in the file of a need.
fn take_in<S: Store>(
    alloc: Global,
    store: &mut S,
    places: &[StorePlace],
    plan: &mut Plan<OwnPin, OwnLeaf>,
    need: Need,
) -> Result<(), Stop>
    requires places { places.now ≡ slot_places plan.old.known.request }
    requires can_mark { CanMark its_index its_shard plan.old need }
    requires unmarked { plan.old.marked ≡ [] }
    ensures gives { IfSome (S.files store.old) (λ told.
        Gives (λ _. taken plan.new.known) bad_of result
        (with_need told plan.old.known.request (taken plan.old.known)
        (wish_of plan.old.known.names need))) }
    ensures unmarked { OnOk result (plan.new.marked ≡ []) }
    ensures request { OnOk result (plan.new.known.request ≡ plan.old.known.request) }
    ensures same { S.files store.new ≡ S.files store.old }
    ensures later { S.faults store.old ≤ S.faults store.new }
    ensures cause { IsErrOf result Stop.Failed → Rose (S.faults store.old) (S.faults store.new) }
{
    match need {
        Need::Index(slot) => { take_index(alloc, store, place_at(places, plan, slot), plan, slot) }
        Need::Shard(slot, n) => {
            plan.tell();
            take_shard(alloc, store, place_at(places, plan, slot), plan, slot, n)
        }
    }
}

// The place of a slot.
fn place_at<'a>(
    places: &'a [StorePlace],
    plan: &Plan<OwnPin, OwnLeaf>,
    slot: usize,
) -> &'a StorePlace
    requires places { places.now ≡ slot_places plan.now.known.request }
    requires slot { slot < length (slots plan.now.known.request) }
    ensures { result.now ≡ place_at plan.now.known.request slot }
{
    &places[slot]
}

// Takes in the index of a slot, which stands at this place.
fn take_index<S: Store>(
    alloc: Global,
    store: &mut S,
    place: &StorePlace,
    plan: &mut Plan<OwnPin, OwnLeaf>,
    slot: usize,
) -> Result<(), Stop>
    requires place { place.now ≡ place_at plan.old.known.request slot }
    requires can_mark { CanMark its_index its_shard plan.old (Need.Index slot) }
    requires unmarked { plan.old.marked ≡ [] }
    ensures gives { IfSome (S.files store.old) (λ told.
        Gives (λ _. taken plan.new.known) bad_of result
        (with_need told plan.old.known.request (taken plan.old.known) (the_index slot))) }
    ensures unmarked { OnOk result (plan.new.marked ≡ []) }
    ensures request { OnOk result (plan.new.known.request ≡ plan.old.known.request) }
    ensures same { S.files store.new ≡ S.files store.old }
    ensures later { S.faults store.old ≤ S.faults store.new }
    ensures cause { IsErrOf result Stop.Failed → Rose (S.faults store.old) (S.faults store.new) }
{
    let index = index_at(alloc, store, place)?;
    pin_one(plan, slot, index)
}

// Takes in the shard of a name in a slot, which stands at this place.
fn take_shard<S: Store>(
    alloc: Global,
    store: &mut S,
    place: &StorePlace,
    plan: &mut Plan<OwnPin, OwnLeaf>,
    slot: usize,
    n: usize,
) -> Result<(), Stop>
    requires place { place.now ≡ place_at plan.old.known.request slot }
    requires can_mark { CanMark its_index its_shard plan.old (Need.Shard slot n) }
    requires unmarked { plan.old.marked ≡ [] }
    ensures gives { IfSome (S.files store.old) (λ told.
        Gives (λ _. taken plan.new.known) bad_of result
        (with_need told plan.old.known.request (taken plan.old.known)
        (the_shard slot (name_at plan.old.known.names n)))) }
    ensures unmarked { OnOk result (plan.new.marked ≡ []) }
    ensures request { OnOk result (plan.new.known.request ≡ plan.old.known.request) }
    ensures same { S.files store.new ≡ S.files store.old }
    ensures later { S.faults store.old ≤ S.faults store.new }
    ensures cause { IsErrOf result Stop.Failed → Rose (S.faults store.old) (S.faults store.new) }
{
    match plan.digest(Need::Shard(slot, n)) {
        Some(digest) => {
            let leaf = leaf_at(alloc, store, place, digest)?;
            give_one(plan, slot, n, leaf)
        }
        None => Ok(()),
    }
}

// Puts an index into a plan.
fn pin_one(plan: &mut Plan<OwnPin, OwnLeaf>, slot: usize, index: Index) -> Result<(), Stop>
    requires can_mark { CanMark its_index its_shard plan.old (Need.Index slot) }
    requires unmarked { plan.old.marked ≡ [] }
    ensures taken { OnOk result (taken plan.new.known
        ≡ with_index (taken plan.old.known) slot index) }
    ensures unmarked { OnOk result (plan.new.marked ≡ []) }
    ensures request { OnOk result (plan.new.known.request ≡ plan.old.known.request) }
    ensures memory { IfErr result (λ stop. stop ≡ Stop.Memory) }
{
    plan.mark(Need::Index(slot));
    plan.pin(slot, OwnPin(index))?;
    Ok(())
}

// Puts a shard into a plan.
fn give_one(plan: &mut Plan<OwnPin, OwnLeaf>, slot: usize, n: usize, leaf: Leaf) -> Result<(), Stop>
    requires can_mark { CanMark its_index its_shard plan.old (Need.Shard slot n) }
    requires unmarked { plan.old.marked ≡ [] }
    requires digest { digest_of_need plan.old.known.request
        (its_pins its_index its_shard plan.old.known) plan.old.known.names (Need.Shard slot n)
        ≡ Some (digest_of leaf.bytes) }
    ensures taken { OnOk result (taken plan.new.known
        ≡ with_rows (taken plan.old.known) slot (name_at plan.old.known.names n) leaf.rows) }
    ensures unmarked { OnOk result (plan.new.marked ≡ []) }
    ensures request { OnOk result (plan.new.known.request ≡ plan.old.known.request) }
    ensures memory { IfErr result (λ stop. stop ≡ Stop.Memory) }
{
    plan.mark(Need::Shard(slot, n));
    plan.give(Need::Shard(slot, n), OwnLeaf(leaf))?;
    Ok(())
}
