//! Taking in indexes and shards.

ghost use Rattle.std.specs.Prelude.{◌≡◌, ◌+◌, ◌*◌, ◌<◌, ◌≤◌, ℕ, List, Some, true, length, vec_capacity, IfOk, OnOk, OnErr};
ghost use Rattle.digest_gate.specs.Digest.{digest_of};
ghost use Rattle.closure_plan.specs.Cells.{cell_at};
ghost use Rattle.closure_plan.specs.Ready.{IsReady};
ghost use Rattle.closure_plan.specs.Giving.{Gave, GaveNeed, with_pin};
ghost use Rattle.closure_plan.specs.Owing.{Owes};
ghost use Rattle.closure_plan.specs.Plan.{digest_of_need, has_need, its_pins, pins_of, without};

use crate::holders::{LeafHolder, PinHolder};
use crate::need::Need;
use crate::plan::marks::is_same_need;
use crate::plan::order::{put_number, put_numbers, text_at};
use crate::plan::{GivenLeaf, Plan};
use crate::sources::Sources;
use conda_name::Name;
use shard_file::Shard;
use std::alloc::AllocError;

// What is made before a shard is taken in.
#[derive(Drop)]
pub(crate) struct Ready {
    name: Name,
    fresh: Vec<Name>,
    room: usize,
}

impl<P: PinHolder, H: LeafHolder> Plan<P, H> {
    /// Takes in the index of a slot, whose need is marked, and the mark away.
    pub fn pin(&mut self, slot: usize, holder: P) -> Result<(), AllocError>
        requires { has_need self.old.marked (Need.Index slot) ≡ true }
        ensures ok { IfOk result (λ _. self.new ≡ record {
          known = with_pin slot holder self.old.known;
          marked = without (Need.Index slot) self.old.marked;
        }) }
        ensures err { OnErr result (self.new ≡ self.old) }
    {
        self.pin_slot(slot, holder)?;
        self.close_all();
        Ok(())
    }

    // The same, where any name may be owed a shard.
    fn pin_slot(&mut self, slot: usize, holder: P) -> Result<(), AllocError>
        requires { has_need self.old.marked (Need.Index slot) ≡ true }
        ensures ok { IfOk result (λ _. self.new ≡ record {
          known = with_pin slot holder self.old.known;
          marked = without (Need.Index slot) self.old.marked;
        }) }
        ensures err { OnErr result (self.new ≡ self.old) }
    {
        let owing = Vec::from_slice(*self.names.allocator(), &self.order)?;
        self.sources.pin(slot, holder);
        self.marks
            .retain(|mark| !is_same_need(Need::Index(slot), *mark));
        self.owing = owing;
        Ok(())
    }

    /// Takes in the shard of a need, which is marked and whose digest the shard's bytes have, and the mark
    /// away. The names that its given rows depend on are reached. At want of memory nothing has changed.
    pub fn give(&mut self, need: Need, holder: H) -> Result<(), AllocError>
        requires marked { has_need self.old.marked need ≡ true }
        requires digest { digest_of_need self.old.known.request (its_pins P.contents H.contents
            self.old.known)
            self.old.known.names need ≡ Some (digest_of (H.contents holder).bytes) }
        ensures ok { OnOk result (GaveNeed need holder self.old self.new) }
        ensures err { OnErr result (self.new ≡ self.old) }
    {
        match need {
            Need::Index(_) => Ok(()),
            Need::Shard(slot, n) => {
                self.give_shard(slot, n, holder)?;
                self.close(n);
                Ok(())
            }
        }
    }

    // The same of the shard of a slot and a name.
    #[tactic(auto, using(crate::proofs::CellLemmas::cells_same))]
    fn give_shard(&mut self, slot: usize, n: usize, holder: H) -> Result<(), AllocError>
        requires marked { has_need self.old.marked (Need.Shard slot n) ≡ true }
        requires digest { digest_of_need self.old.known.request (its_pins P.contents H.contents
            self.old.known)
            self.old.known.names (Need.Shard slot n) ≡ Some (digest_of (H.contents holder).bytes) }
        ensures ok { OnOk result (Gave slot n holder self.old.known self.new.known) }
        ensures unmarked { OnOk result (self.new.marked ≡ without (Need.Shard slot n)
            self.old.marked) }
        ensures err { OnErr result (self.new ≡ self.old) }
    {
        let place = self.place_of(slot, n);
        let ready = self.ready(slot, n, holder.leaf().shard())?;
        let listed = self.names.len();
        let Ready {
            name,
            mut fresh,
            room,
        } = ready;
        self.marks.reserve(room)?;
        self.leaves.reserve(1)?;
        grow(&mut self.cells, room)?;
        self.order.reserve(fresh.len())?;
        self.owing.reserve(fresh.len())?;
        self.names.append(&mut fresh)?;
        put_numbers(&self.names, listed, &mut self.order);
        put_owed(&self.sources, &self.names, listed, &mut self.owing);
        self.cells[place] = Some(self.leaves.len());
        self.leaves.push_reserved(GivenLeaf { slot, name, holder });
        self.marks
            .retain(|mark| !is_same_need(Need::Shard(slot, n), *mark));
        Ok(())
    }

    // What is made before a shard is taken in.
    fn ready(&self, slot: usize, n: usize, shard: &Shard) -> Result<Ready, AllocError>
        requires { n < length self.now.known.names }
        ensures { IfOk result (λ ready. IsReady self.now.known.request self.now.known.names slot
            n shard.now.rows ready) }
    {
        let name = &self.names[n];
        let fresh = self.fresh(slot, name, shard)?;
        let room = room_for(self.slots(), self.names.len(), fresh.len())?;
        let name = name.copy(*self.names.allocator())?;
        Ok(Ready { name, fresh, room })
    }
}

// Puts the numbers of those names from one on of which a shard is needed into their places. There is
// room for them.
fn put_owed<P: PinHolder>(sources: &Sources<P>, names: &[Name], from: usize, owing: &mut Vec<usize>)
    requires room { length owing.old.items + length names.now ≤ from + vec_capacity owing.old }
    ensures { Owes sources.now.request (pins_of P.contents sources.now.pins) names.now from
        (length names.now) owing.old.items owing.new.items }
{
    for n in from..names.len() {
        put_if_owed(sources, names, n, owing);
    }
}

// Puts the number of a name into its place, where a shard of it is needed. There is room for it.
fn put_if_owed<P: PinHolder>(sources: &Sources<P>, names: &[Name], n: usize, owing: &mut Vec<usize>)
    requires name { n < length names.now }
    requires room { length owing.old.items < vec_capacity owing.old }
    ensures owes { (from : ℕ) (old : List ℕ)
        → Owes sources.now.request (pins_of P.contents sources.now.pins) names.now from n old
        owing.old.items
        → Owes sources.now.request (pins_of P.contents sources.now.pins) names.now from (n + 1) old
        owing.new.items }
    ensures len { length owing.new.items ≤ length owing.old.items + 1 }
    ensures capacity { vec_capacity owing.old ≤ vec_capacity owing.new }
{
    if sources.is_unneeded(text_at(names, n)) {
        return;
    }
    put_number(names, n, owing);
}

// How many marks there can be of some slots, some names and more of them.
pub(crate) fn room_for(slots: usize, names: usize, fresh: usize) -> Result<usize, AllocError>
    ensures { IfOk result (λ room. room ≡ (names + fresh + 1) * slots) }
{
    let all = names.checked_add(fresh).ok_or(AllocError)?;
    let rows = all.checked_add(1).ok_or(AllocError)?;
    rows.checked_mul(slots).ok_or(AllocError)
}

// Adds empty cells, up to so many.
fn grow(cells: &mut Vec<Option<usize>>, count: usize) -> Result<(), AllocError>
    ensures same { (place : ℕ) → cell_at cells.new.items place ≡ cell_at cells.old.items place }
    ensures wide { OnOk result (count ≤ length cells.new.items) }
{
    for i in cells.len()..count {
        let _place = i;
        cells.push(None)?;
    }
    Ok(())
}
