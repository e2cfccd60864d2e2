//! The rows of an answer.

ghost use Rattle.std.specs.Prelude.{◌≡◌, ◌<◌, ◌++◌, [], map, length, slice_get, IfOk, OnOk, IfSome, true};
ghost use Rattle.std.specs.List.{find};
ghost use Rattle.std.specs.Option.{option_map};
ghost use Rattle.closure_request.specs.Slots.{slots};
ghost use Rattle.closure_plan.specs.Given.{given, gives};
ghost use Rattle.closure_plan.specs.Closure.{closure, closure_in, found};
ghost use Rattle.closure_plan.specs.Roots.{asked_of, specs_at};
ghost use Rattle.closure_plan.specs.Rows.{Adds, given_in, leaf_or_none, place_if};
ghost use Rattle.closure_plan.specs.Plan.{its_leaves, its_pins, name_at};

use crate::answer::RowPlace;
use crate::holders::{LeafHolder, PinHolder};
use crate::plan::Plan;
use conda_name::Name;
use shard_file::Shard;
use std::alloc::AllocError;

impl<P: PinHolder, H: LeafHolder> Plan<P, H> {
    // The places of the rows of the closure.
    pub(crate) fn rows(&self) -> Result<Vec<RowPlace>, AllocError>
        ensures { IfOk result (λ rows. Adds self.now.known.request (its_leaves P.contents
            H.contents self.now.known) [] rows.items
            (closure self.now.known.request (its_pins P.contents H.contents self.now.known)
            (its_leaves P.contents H.contents self.now.known))) }
    {
        let mut rows = Vec::new(*self.names.allocator());
        for slot in 0..self.slots() {
            self.rows_in(slot, &mut rows)?;
        }
        Ok(rows)
    }

    // Adds the places of the rows of a slot.
    fn rows_in(&self, slot: usize, rows: &mut Vec<RowPlace>) -> Result<(), AllocError>
        requires { slot < length (slots self.now.known.request) }
        ensures { OnOk result (Adds self.now.known.request (its_leaves P.contents H.contents
            self.now.known) rows.old.items rows.new.items
            (closure_in self.now.known.request (its_pins P.contents H.contents self.now.known)
            (its_leaves P.contents H.contents self.now.known) slot)) }
    {
        for i in 0..self.order.len() {
            self.rows_of(slot, self.order[i], rows)?;
        }
        Ok(())
    }

    // Adds the places of the rows of a name in a slot.
    fn rows_of(&self, slot: usize, n: usize, rows: &mut Vec<RowPlace>) -> Result<(), AllocError>
        requires slot { slot < length (slots self.now.known.request) }
        requires name { n < length self.now.known.names }
        ensures { OnOk result (Adds self.now.known.request (its_leaves P.contents H.contents
            self.now.known) rows.old.items rows.new.items
            (map (found self.now.known.request slot) (given self.now.known.request (its_pins
            P.contents H.contents self.now.known)
            (its_leaves P.contents H.contents self.now.known) slot (name_at self.now.known.names
            n)))) }
    {
        let _order = &self.order;
        match self.leaf_at(slot, n) {
            Some(leaf) => self.rows_of_leaf(leaf, rows),
            None => Ok(()),
        }
    }

    // Adds the places of the given rows of a leaf.
    fn rows_of_leaf(&self, i: usize, rows: &mut Vec<RowPlace>) -> Result<(), AllocError>
        requires { i < length self.now.known.leaves }
        ensures { OnOk result (Adds self.now.known.request (its_leaves P.contents H.contents
            self.now.known) rows.old.items rows.new.items
            (given_in self.now.known.request (leaf_or_none (its_leaves P.contents H.contents
            self.now.known) i))) }
    {
        let leaf = &self.leaves[i];
        self.rows_of_shard(i, leaf.slot, &leaf.name, leaf.holder.leaf().shard(), rows)
    }

    // Adds the places of the given rows of a shard, which is that of a leaf.
    fn rows_of_shard(
        &self,
        i: usize,
        slot: usize,
        name: &Name,
        shard: &Shard,
        rows: &mut Vec<RowPlace>,
    ) -> Result<(), AllocError>
        requires slot { slot ≡ (leaf_or_none (its_leaves P.contents H.contents self.now.known)
            i).slot }
        requires name { name.now ≡ (leaf_or_none (its_leaves P.contents H.contents
            self.now.known) i).name }
        requires rows { shard.now.rows ≡ (leaf_or_none (its_leaves P.contents H.contents
            self.now.known) i).rows }
        ensures { OnOk result (Adds self.now.known.request (its_leaves P.contents H.contents
            self.now.known) rows.old.items rows.new.items
            (given_in self.now.known.request (leaf_or_none (its_leaves P.contents H.contents
            self.now.known) i))) }
    {
        let asked = self.sources.asked(name);
        for row in 0..shard.len() {
            let at = RowPlace { slot, leaf: i, row };
            self.add_place(at, name, asked, shard, rows)?;
        }
        Ok(())
    }

    // Adds a place, where its row is given.
    fn add_place(
        &self,
        at: RowPlace,
        name: &Name,
        asked: Option<&[usize]>,
        shard: &Shard,
        rows: &mut Vec<RowPlace>,
    ) -> Result<(), AllocError>
        requires { option_map (λ numbers. specs_at self.now.known.request.specs numbers.now)
            asked ≡ asked_of self.now.known.request.specs name.now }
        ensures { OnOk result (rows.new.items ≡ rows.old.items ++ place_if (gives
            self.now.known.request at.slot name.now shard.now.rows)
            (slice_get shard.now.rows at.row) at) }
    {
        match shard.row(at.row) {
            Some(row) if self.sources.gives(at.slot, name, asked, shard, at.row, row) => {
                rows.push(at)?;
                Ok(())
            }
            Some(_) | None => Ok(()),
        }
    }
}
