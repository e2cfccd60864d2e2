//! A plan: what a request needs, and what was given of it.

mod asking;
mod closing;
mod finishing;
pub(crate) mod giving;
pub(crate) mod marks;
pub(crate) mod names;
pub(crate) mod order;
mod start;

ghost use Rattle.std.specs.Prelude.{◌≡◌, ◌↔◌, length, slice_get, IfOk, IfSome, Some, true};
ghost use Rattle.std.specs.Option.{option_map};
ghost use Rattle.closure_request.specs.Slots.{Slot, slots};
ghost use Rattle.closure_plan.specs.Given.{pin_at};
ghost use Rattle.closure_plan.specs.Closure.{closure};
ghost use Rattle.closure_plan.specs.declared.need.Need.{Need};
ghost use Rattle.closure_plan.specs.Needs.{has_wish};
ghost use Rattle.closure_plan.specs.Plan.{HasNumber, IsNeed, IsPlan, digest_of_need, given_count, its_done, its_leaves, its_needs, its_pins, name_at, pins_of, wish_of};

use crate::answer::{Answer, Part};
use crate::holders::{LeafHolder, PinHolder};
use crate::need::Need;
use crate::sources::Sources;
use closure_request::Request;
use conda_name::Name;
use digest_gate::Digest;
use link_io::HttpUrl;
use std::alloc::AllocError;
use std::marker::Model;

// A shard that was given.
#[derive(Drop)]
pub(crate) struct GivenLeaf<H: LeafHolder> {
    pub(crate) slot: usize,
    pub(crate) name: Name,
    pub(crate) holder: H,
}

impl<H: LeafHolder> Model for GivenLeaf<H> {
    ghost use Rattle.closure_plan.specs.Plan.{Placed};

    ghost Value = { Placed H };

    ghost view = { λ l. record { slot = l.slot; name = l.name; holder = l.holder } };
}

/// A plan of a request. Contracts see it as `Planned`: what is known, and what is marked.
///
/// Its names are kept by number, with an order by bytes beside them. Each name has a cell for each slot
/// with the place of its shard, so that no step looks through the shards, and the names of which a shard
/// may still be owed are kept apart, by name, so that no step looks through the names that are done.
#[derive(Drop)]
pub struct Plan<P: PinHolder, H: LeafHolder> {
    sources: Sources<P>,
    names: Vec<Name>,
    order: Vec<usize>,
    owing: Vec<usize>,
    leaves: Vec<GivenLeaf<H>>,
    marks: Vec<Need>,
    cells: Vec<Option<usize>>,
}

impl<P: PinHolder, H: LeafHolder> Model for Plan<P, H> {
    ghost use Rattle.std.specs.Prelude.{length, vec_capacity};
    ghost use Rattle.closure_request.specs.Slots.{slots};
    ghost use Rattle.closure_plan.specs.Plan.{Planned, leaves_of, pins_of};
    ghost use Rattle.closure_plan.specs.Cells.{AreCells};
    ghost use Rattle.closure_plan.specs.Owing.{AreOwing};
    ghost use Rattle.closure_plan.specs.Inside.{Holds};

    ghost Value = { Planned P H };

    ghost view = { λ p. record {
      known = record {
        request = p.sources.request;
        names = p.names.items;
        pins = p.sources.pins;
        leaves = p.leaves.items;
      };
      marked = p.marks.items;
    } };

    ghost invariant = { λ p. Holds P.contents H.contents (record {
      known = record {
        request = p.sources.request;
        names = p.names.items;
        pins = p.sources.pins;
        leaves = p.leaves.items;
      };
      marked = p.marks.items;
    }) p.order.items (vec_capacity p.marks)
        × AreCells (length (slots p.sources.request)) p.names.items
        (leaves_of H.contents p.leaves.items) p.cells.items
        × AreOwing p.sources.request (pins_of P.contents p.sources.pins) p.names.items
        (leaves_of H.contents p.leaves.items) p.owing.items };
}

impl<P: PinHolder, H: LeafHolder> Plan<P, H> {
    /// Says what is always so of a plan. It does nothing.
    pub fn tell(&self)
        ensures { IsPlan P.contents H.contents self.now }
    {
        let _marks = &self.marks;
    }

    /// Says which numbers are those of needs, and how many needs there are once each is given. It does
    /// nothing.
    pub fn tell_needs(&self)
        // A number of a slot, or of a name in a slot, is that of a need where its need is one.
        ensures are { (m : Need) → HasNumber self.now.known.names m
            → IsNeed self.now.known.request (its_pins P.contents H.contents self.now.known)
            self.now.known.names m ↔ (has_wish (its_needs P.contents H.contents self.now.known)
            (wish_of self.now.known.names m) ≡ true) }
        // At the end there are as many needs as pins and shards.
        ensures counted { its_done P.contents H.contents self.now.known ≡ true
            → length (its_needs P.contents H.contents self.now.known) ≡ given_count self.now.known }
    {
        self.tell();
    }

    /// The request.
    pub fn request(&self) -> &Request
        ensures { result.now ≡ self.now.known.request }
    {
        &self.sources.request
    }

    /// The name of a number, or None where there is none.
    pub fn name(&self, n: usize) -> Option<&Name>
        ensures { option_map (λ name. name.now) result ≡ slice_get self.now.known.names n }
    {
        self.names.get(n)
    }

    /// The address below which a slot's subdir stands, or None where there is no such slot.
    pub fn base(&self, slot: usize) -> Option<&HttpUrl>
        ensures { option_map (λ base. base.now) result
            ≡ option_map (λ (x : Slot). x.channel.base) (slice_get (slots
            self.now.known.request) slot) }
    {
        match self.sources.site(slot) {
            Some(channel) => Some(&channel.base),
            None => None,
        }
    }

    /// The subdir of a slot, or None where there is no such slot.
    pub fn subdir(&self, slot: usize) -> Option<&str>
        ensures { option_map (λ subdir. subdir.now) result
            ≡ option_map (λ (x : Slot). x.subdir) (slice_get (slots self.now.known.request) slot) }
    {
        match self.sources.subdir_text(slot) {
            Some(subdir) => Some(subdir.as_str()),
            None => None,
        }
    }

    /// What holds the index of a slot, or None where it is not yet pinned.
    pub fn holder(&self, slot: usize) -> Option<&P>
        ensures contents { option_map (λ p. P.contents p.now) result
            ≡ pin_at (pins_of P.contents self.now.known.pins) slot }
        ensures holder { IfSome result
            (λ p. slice_get self.now.known.pins slot ≡ Some (Some p.now)) }
    {
        self.sources.holder(slot)
    }

    /// The digest of a need: that which the slot's index lists. None for an index, and where there is
    /// no such need.
    pub fn digest(&self, need: Need) -> Option<Digest>
        ensures { result ≡ digest_of_need self.now.known.request
            (its_pins P.contents H.contents self.now.known) self.now.known.names need }
    {
        match need {
            Need::Index(_) => None,
            Need::Shard(slot, n) => match self.names.get(n) {
                Some(name) => self.sources.wanted(slot, name.as_str()),
                None => None,
            },
        }
    }

    // How many slots there are.
    fn slots(&self) -> usize
        ensures count { result ≡ length (slots self.now.known.request) }
        ensures pins { result ≡ length self.now.known.pins }
    {
        self.sources.slots()
    }

    // The name of a number, and the empty text where there is none.
    fn name_or_empty(&self, n: usize) -> &str
        ensures { result.now ≡ name_at self.now.known.names n }
    {
        match self.names.get(n) {
            Some(name) => name.as_str(),
            None => "",
        }
    }
}

impl<P: PinHolder, H: LeafHolder> Plan<P, H> {
    /// The answer, whose rows are the closure over the pins and shards that were given, once each need
    /// is given.
    pub fn finish(self) -> Result<Answer<P, H>, AllocError>
        requires { its_done P.contents H.contents self.known ≡ true }
        ensures { IfOk result (λ answer. answer ≡ record {
          known = self.known;
          rows = closure self.known.request (its_pins P.contents H.contents self.known)
              (its_leaves P.contents H.contents self.known);
        }) }
    {
        let rows = self.rows()?;
        Ok(Answer {
            part: self.into_part(),
            rows,
        })
    }

    /// What was given so far.
    pub fn into_part(self) -> Part<P, H>
        ensures { result ≡ self.known }
    {
        let Plan {
            sources,
            names,
            leaves,
            ..
        } = self;
        Part {
            sources,
            names,
            leaves,
        }
    }
}
