//! Which need is asked for next, and whether each is given.

ghost use Rattle.std.specs.Prelude.{◌≡◌, ◌&&◌, ◌+◌, ◌*◌, ◌<◌, length, map, IfSome, is_some, not, true};
ghost use Rattle.std.specs.List.{list_any, list_all, find, flat_map};
ghost use Rattle.std.specs.Option.{option_map};
ghost use Rattle.closure_request.specs.Slots.{numbers, slots};
ghost use Rattle.closure_plan.specs.Rows.{leaf_or_none};
ghost use Rattle.closure_plan.specs.Given.{is_at, wanted};
ghost use Rattle.closure_plan.specs.Closure.{reach};
ghost use Rattle.closure_plan.specs.Needs.{is_key, is_given, the_index, the_shard, shards_of};
ghost use Rattle.closure_plan.specs.Plan.{CanMark, IsNeed, has_given, its_done, its_leaves, its_next, its_pins, its_wishes, leaves_of, may_ask, name_at, pins_of, wish_of};

use crate::holders::{LeafHolder, PinHolder};
use crate::need::Need;
use crate::plan::Plan;
use crate::plan::marks::{is_digest, is_marked};

impl<P: PinHolder, H: LeafHolder> Plan<P, H> {
    /// The need to ask for next: the least that is not given and whose key no marked need has, the
    /// indexes first by slot, then the shards by name and slot. None where there is no such need.
    pub fn next(&self) -> Option<Need>
        ensures least { option_map (wish_of self.now.known.names) result ≡ its_next P.contents
            H.contents self.now }
        ensures fit { IfSome result (CanMark P.contents H.contents self.now) }
    {
        match self.next_index() {
            Some(slot) => Some(Need::Index(slot)),
            None => self.next_leaf(),
        }
    }

    /// Whether each need is given.
    pub fn is_done(&self) -> bool
        ensures done { result ≡ its_done P.contents H.contents self.now.known }
    {
        self.all_pinned() && self.all_leaves()
    }

    // The first index that may be asked for.
    fn next_index(&self) -> Option<usize>
        ensures find { option_map the_index result ≡ find (may_ask P.contents H.contents self.now)
            (map the_index (numbers self.now.known.request)) }
        ensures fit { IfSome result (λ s. CanMark P.contents H.contents self.now (Need.Index s)) }
    {
        for slot in 0..self.slots() {
            if self.may_ask_index(slot) {
                return Some(slot);
            }
        }
        None
    }

    // The first shard that may be asked for.
    fn next_leaf(&self) -> Option<Need>
        ensures find { option_map (wish_of self.now.known.names) result ≡ find (may_ask
            P.contents H.contents self.now)
            (flat_map (shards_of self.now.known.request (its_pins P.contents H.contents
            self.now.known))
            (reach self.now.known.request (its_pins P.contents H.contents self.now.known)
            (its_leaves P.contents H.contents self.now.known))) }
        ensures fit { IfSome result (CanMark P.contents H.contents self.now) }
    {
        for i in 0..self.owing.len() {
            let n = self.owing[i];
            if let Some(slot) = self.next_slot(n) {
                return Some(Need::Shard(slot, n));
            }
        }
        None
    }

    // The first slot in which the shard of a name may be asked for.
    fn next_slot(&self, n: usize) -> Option<usize>
        requires { n < length self.now.known.names }
        ensures find { option_map (λ s. the_shard s (name_at self.now.known.names n)) result
            ≡ find (may_ask P.contents H.contents self.now) (shards_of self.now.known.request
            (its_pins P.contents H.contents self.now.known) (name_at self.now.known.names n)) }
        ensures fit { IfSome result (λ s. CanMark P.contents H.contents self.now (Need.Shard s n)) }
    {
        for slot in 0..self.slots() {
            if self.may_ask_shard(slot, n) {
                return Some(slot);
            }
        }
        None
    }

    // Whether the index of a slot may be asked for.
    fn may_ask_index(&self, slot: usize) -> bool
        requires { slot < length (slots self.now.known.request) }
        ensures { result ≡ may_ask P.contents H.contents self.now (the_index slot) }
    {
        !self.is_pinned(slot) && !self.has_key(Need::Index(slot))
    }

    // Whether the shard of a name is needed in a slot and may be asked for.
    fn may_ask_shard(&self, slot: usize, n: usize) -> bool
        requires slot { slot < length (slots self.now.known.request) }
        requires name { n < length self.now.known.names }
        ensures { result ≡ (is_some (wanted self.now.known.request (its_pins P.contents
            H.contents self.now.known)
            slot (name_at self.now.known.names n))
            && may_ask P.contents H.contents self.now (the_shard slot (name_at
            self.now.known.names n))) }
    {
        self.sources.wanted(slot, self.name_or_empty(n)).is_some() && self.may_ask_wanted(slot, n)
    }

    // Whether the shard of a name in a slot may be asked for, where it is needed.
    fn may_ask_wanted(&self, slot: usize, n: usize) -> bool
        requires slot { slot < length (slots self.now.known.request) }
        requires name { n < length self.now.known.names }
        requires needed { is_some (wanted self.now.known.request (its_pins P.contents H.contents
            self.now.known) slot (name_at self.now.known.names n)) ≡ true }
        ensures { result ≡ may_ask P.contents H.contents self.now (the_shard slot (name_at
            self.now.known.names n)) }
    {
        !self.has_leaf(slot, n) && !self.has_key(Need::Shard(slot, n))
    }

    // Whether a slot is pinned.
    fn is_pinned(&self, slot: usize) -> bool
        ensures { result ≡ is_given (its_pins P.contents H.contents self.now.known)
            (its_leaves P.contents H.contents self.now.known) (the_index slot) }
    {
        self.sources.holder(slot).is_some()
    }

    // Whether each slot is pinned.
    fn all_pinned(&self) -> bool
        ensures { result ≡ list_all (is_given (its_pins P.contents H.contents self.now.known)
            (its_leaves P.contents H.contents self.now.known)) (map the_index (numbers
            self.now.known.request)) }
    {
        for slot in 0..self.slots() {
            if !self.is_pinned(slot) {
                return false;
            }
        }
        true
    }

    // Whether the shards that are needed of each name are given.
    fn all_leaves(&self) -> bool
        ensures { result ≡ list_all (is_given (its_pins P.contents H.contents self.now.known)
            (its_leaves P.contents H.contents self.now.known))
            (flat_map (shards_of self.now.known.request (its_pins P.contents H.contents
            self.now.known))
            (reach self.now.known.request (its_pins P.contents H.contents self.now.known)
            (its_leaves P.contents H.contents self.now.known))) }
    {
        for i in 0..self.owing.len() {
            let n = self.owing[i];
            if !self.has_each(n) {
                return false;
            }
        }
        true
    }

    // Whether the shards that are needed of a name are given.
    pub(crate) fn has_each(&self, n: usize) -> bool
        requires { n < length self.now.known.names }
        ensures { result ≡ list_all (is_given (its_pins P.contents H.contents self.now.known)
            (its_leaves P.contents H.contents self.now.known))
            (shards_of self.now.known.request (its_pins P.contents H.contents self.now.known)
            (name_at self.now.known.names n)) }
    {
        for slot in 0..self.slots() {
            if self.lacks(slot, n) {
                return false;
            }
        }
        true
    }

    // Whether the shard of a name is needed in a slot and isn't given.
    fn lacks(&self, slot: usize, n: usize) -> bool
        requires slot { slot < length (slots self.now.known.request) }
        requires name { n < length self.now.known.names }
        ensures { result ≡ (is_some (wanted self.now.known.request (its_pins P.contents
            H.contents self.now.known)
            slot (name_at self.now.known.names n))
            && not (is_given (its_pins P.contents H.contents self.now.known) (its_leaves
            P.contents H.contents self.now.known)
            (the_shard slot (name_at self.now.known.names n)))) }
    {
        self.sources.wanted(slot, self.name_or_empty(n)).is_some() && !self.has_leaf(slot, n)
    }

    // Whether the shard of a name in a slot is given.
    fn has_leaf(&self, slot: usize, n: usize) -> bool
        requires slot { slot < length (slots self.now.known.request) }
        requires name { n < length self.now.known.names }
        ensures { result ≡ is_some (find (is_at slot (name_at self.now.known.names n))
            (its_leaves P.contents H.contents self.now.known)) }
    {
        self.leaf_at(slot, n).is_some()
    }

    // The place of the cell of a name in a slot. There is room for as many marks, so it is a number.
    pub(crate) fn place_of(&self, slot: usize, n: usize) -> usize
        requires slot { slot < length (slots self.now.known.request) }
        requires name { n < length self.now.known.names }
        ensures { result ≡ n * length (slots self.now.known.request) + slot }
    {
        let _room = self.marks.capacity();
        let place = n * self.slots() + slot;
        place
    }

    // The place of the shard of a name in a slot among those that were given.
    pub(crate) fn leaf_at(&self, slot: usize, n: usize) -> Option<usize>
        requires slot { slot < length (slots self.now.known.request) }
        requires name { n < length self.now.known.names }
        ensures found { option_map (leaf_or_none (its_leaves P.contents H.contents
            self.now.known)) result
            ≡ find (is_at slot (name_at self.now.known.names n)) (its_leaves P.contents
            H.contents self.now.known) }
        ensures within { IfSome result (λ i. i < length self.now.known.leaves) }
    {
        match self.cells.get(self.place_of(slot, n)) {
            Some(cell) => *cell,
            None => None,
        }
    }

    // Whether a marked need has the key of a need. Most needs that are looked at are marked themselves,
    // which takes no look into an index.
    fn has_key(&self, need: Need) -> bool
        requires { IsNeed self.now.known.request (its_pins P.contents H.contents self.now.known)
            self.now.known.names need }
        ensures { result ≡ list_any (is_key self.now.known.request (pins_of P.contents
            self.now.known.pins)
            (wish_of self.now.known.names need)) (its_wishes P.contents H.contents self.now) }
    {
        if is_marked(&self.marks, need) {
            return true;
        }
        self.has_key_of_other(need)
    }

    // The same, mark by mark.
    fn has_key_of_other(&self, need: Need) -> bool
        ensures { result ≡ list_any (is_key self.now.known.request (pins_of P.contents
            self.now.known.pins)
            (wish_of self.now.known.names need)) (its_wishes P.contents H.contents self.now) }
    {
        for mark in &self.marks {
            if self.is_key(need, *mark) {
                return true;
            }
        }
        false
    }

    // Whether two needs have one key.
    fn is_key(&self, one: Need, other: Need) -> bool
        ensures { result ≡ is_key self.now.known.request (pins_of P.contents self.now.known.pins)
            (wish_of self.now.known.names one) (wish_of self.now.known.names other) }
    {
        match (one, other) {
            (Need::Index(s), Need::Index(t)) => self.sources.is_address(s, t),
            (Need::Shard(s, k), Need::Shard(t, m)) => is_digest(
                self.sources.wanted(s, self.name_or_empty(k)),
                self.sources.wanted(t, self.name_or_empty(m)),
            ),
            (Need::Index(_), Need::Shard(_, _)) | (Need::Shard(_, _), Need::Index(_)) => false,
        }
    }
}
