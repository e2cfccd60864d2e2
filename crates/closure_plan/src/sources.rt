//! Where the packages of a request come from: its slots, and the index of each slot that is pinned.

mod matching;

ghost use Rattle.std.specs.Prelude.{◌≡◌, ◌<◌, ◌&&◌, List, length, slice_get, IfSome, Some, is_some, not};
ghost use Rattle.std.specs.List.{list_all, slice_set};
ghost use Rattle.std.specs.Option.{option_map};
ghost use Rattle.std.specs.Str.{bytes_eq};
ghost use Rattle.closure_request.specs.Slots.{Slot, slots, slot_at, numbers};
ghost use Rattle.closure_plan.specs.Given.{pin_at, is_without, listed_digest, lets, opens, wanted};
ghost use Rattle.closure_plan.specs.Plan.{pins_of};

use crate::holders::PinHolder;
use crate::roots::Roots;
use closure_request::{Channel, Priority, Request};
use digest_gate::Digest;
use mp_codec::Text;
use std::marker::Model;

// A slot, by the numbers of its channel and its subdir.
#[derive(Clone, Copy, Debug)]
pub(crate) struct Place {
    pub(crate) channel: usize,
    pub(crate) subdir: usize,
}

// A request, the names of its specs, its slots, and what holds the index of each slot that is pinned.
#[derive(Drop)]
pub(crate) struct Sources<P: PinHolder> {
    pub(crate) request: Request,
    pub(crate) roots: Roots,
    pub(crate) places: Vec<Place>,
    pub(crate) pins: Vec<Option<P>>,
}

impl<P: PinHolder> Model for Sources<P> {
    ghost use Rattle.std.specs.Prelude.{◌≡◌, map, length};
    ghost use Rattle.std.specs.List.{All};
    ghost use Rattle.closure_request.specs.Slots.{slots};
    ghost use Rattle.closure_plan.specs.Sources.{Sources as SourcesSeen};

    ghost Value = { SourcesSeen P };

    ghost view = { λ s. record { request = s.request; pins = s.pins.items } };

    ghost use Rattle.closure_plan.specs.Sources.{IsWithin, slot_of};
    ghost use Rattle.closure_plan.specs.Roots.{AreRoots};

    ghost invariant = { λ s. (map (slot_of s.request) s.places.items ≡ slots s.request)
        × (length s.pins.items ≡ length (slots s.request))
        × All (IsWithin (length s.request.channels) (length s.request.subdirs)) s.places.items
        × AreRoots s.request.specs (length s.request.specs) s.roots };
}

impl<P: PinHolder> Sources<P> {
    // How many slots there are.
    pub(crate) fn slots(&self) -> usize
        ensures count { result ≡ length (slots self.now.request) }
        ensures pins { result ≡ length self.now.pins }
    {
        self.pins.len()
    }

    // What holds the index of a slot, or None where it is not yet pinned.
    pub(crate) fn holder(&self, slot: usize) -> Option<&P>
        ensures contents { option_map (λ p. P.contents p.now) result
            ≡ pin_at (pins_of P.contents self.now.pins) slot }
        ensures holder { IfSome result (λ p. slice_get self.now.pins slot ≡ Some (Some p.now)) }
    {
        match self.pins.get(slot) {
            Some(Some(holder)) => Some(holder),
            Some(None) | None => None,
        }
    }

    // Whether a slot is pinned and its index doesn't list a name.
    fn is_without(&self, slot: usize, name: &str) -> bool
        ensures { result ≡ is_without (pin_at (pins_of P.contents self.now.pins) slot) name.now }
    {
        match self.holder(slot) {
            Some(pin) => pin.index().lookup(name).is_none(),
            None => false,
        }
    }

    // The digest that the index of a slot lists for a name.
    fn listed_digest(&self, slot: usize, name: &str) -> Option<Digest>
        ensures { result ≡ listed_digest (pin_at (pins_of P.contents self.now.pins) slot) name.now }
    {
        match self.holder(slot) {
            Some(pin) => pin.index().lookup(name),
            None => None,
        }
    }

    // The rank of a slot's channel.
    fn rank(&self, slot: usize) -> usize
        ensures { result ≡ (slot_at self.now.request slot).rank }
    {
        match self.places.get(slot) {
            Some(place) => place.channel,
            None => 0,
        }
    }

    // Whether no earlier channel can have a name that is taken from a slot.
    fn opens(&self, slot: usize, name: &str) -> bool
        ensures { result ≡ opens self.now.request.priority self.now.request
            (pins_of P.contents self.now.pins) slot name.now }
    {
        match self.request.priority {
            Priority::Flexible => true,
            Priority::Strict => self.is_first(slot, name),
        }
    }

    // Whether each slot of each earlier channel is pinned and its index doesn't list a name.
    fn is_first(&self, slot: usize, name: &str) -> bool
        ensures { result ≡ list_all
            (lets self.now.request (pins_of P.contents self.now.pins) slot name.now)
            (numbers self.now.request) }
    {
        for t in 0..self.slots() {
            if !self.lets(slot, name, t) {
                return false;
            }
        }
        true
    }

    // Whether a slot doesn't keep a name from being taken from another slot.
    fn lets(&self, slot: usize, name: &str, other: usize) -> bool
        ensures { result
            ≡ lets self.now.request (pins_of P.contents self.now.pins) slot name.now other }
    {
        !(self.rank(other) < self.rank(slot)) || self.is_without(other, name)
    }

    // The digest of the shard that is needed of a name in a slot, if one is.
    pub(crate) fn wanted(&self, slot: usize, name: &str) -> Option<Digest>
        ensures { result
            ≡ wanted self.now.request (pins_of P.contents self.now.pins) slot name.now }
    {
        if self.opens(slot, name) {
            self.listed_digest(slot, name)
        } else {
            None
        }
    }

    // Whether no shard of a name is needed in any slot.
    pub(crate) fn is_unneeded(&self, name: &str) -> bool
        ensures { result ≡ list_all (λ s. not (is_some (wanted self.now.request (pins_of
            P.contents self.now.pins) s name.now))) (numbers self.now.request) }
    {
        for slot in 0..self.slots() {
            if self.wanted(slot, name).is_some() {
                return false;
            }
        }
        true
    }

    // The channel of a slot, or None where there is no such slot.
    pub(crate) fn site(&self, slot: usize) -> Option<&Channel>
        ensures { option_map (λ c. c.now) result
            ≡ option_map (λ (x : Slot). x.channel) (slice_get (slots self.now.request) slot) }
    {
        match self.places.get(slot) {
            Some(place) => self.request.channels.get(place.channel),
            None => None,
        }
    }

    // The subdir of a slot, or None where there is no such slot.
    pub(crate) fn subdir_text(&self, slot: usize) -> Option<&Text>
        ensures { option_map (λ d. d.now) result
            ≡ option_map (λ (x : Slot). x.subdir) (slice_get (slots self.now.request) slot) }
    {
        match self.places.get(slot) {
            Some(place) => self.request.subdirs.get(place.subdir),
            None => None,
        }
    }

    // The base of a slot's channel, and nothing where there is no such slot.
    pub(crate) fn base(&self, slot: usize) -> &str
        ensures { result.now ≡ (slot_at self.now.request slot).channel.base }
    {
        match self.places.get(slot) {
            Some(place) => match self.request.channels.get(place.channel) {
                Some(channel) => channel.base.as_str(),
                None => "",
            },
            None => "",
        }
    }

    // The name of a slot's channel, and nothing where there is no such slot.
    pub(crate) fn channel(&self, slot: usize) -> &str
        ensures { result.now ≡ (slot_at self.now.request slot).channel.name }
    {
        match self.places.get(slot) {
            Some(place) => match self.request.channels.get(place.channel) {
                Some(channel) => channel.name.as_str(),
                None => "",
            },
            None => "",
        }
    }

    // The subdir of a slot, and nothing where there is no such slot.
    pub(crate) fn subdir(&self, slot: usize) -> &str
        ensures { result.now ≡ (slot_at self.now.request slot).subdir }
    {
        match self.places.get(slot) {
            Some(place) => match self.request.subdirs.get(place.subdir) {
                Some(subdir) => subdir.as_str(),
                None => "",
            },
            None => "",
        }
    }

    // Whether two slots have one address of their index.
    pub(crate) fn is_address(&self, s: usize, t: usize) -> bool
        ensures { result ≡ (bytes_eq (slot_at self.now.request s).channel.base
            (slot_at self.now.request t).channel.base
            && bytes_eq (slot_at self.now.request s).subdir (slot_at self.now.request t).subdir) }
    {
        self.base(s) == self.base(t) && self.subdir(s) == self.subdir(t)
    }

    // Puts what holds the index of a slot into its place.
    pub(crate) fn pin(&mut self, slot: usize, holder: P)
        requires { slot < length (slots self.old.request) }
        ensures { self.new ≡ record self.old { pins = slice_set self.old.pins slot (Some holder) } }
    {
        self.pins[slot] = Some(holder);
    }
}
