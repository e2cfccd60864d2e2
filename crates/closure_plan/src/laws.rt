//! Laws of the closure, each the contract of a function that does nothing.

ghost use Rattle.closure_plan.specs.Filling.{GiveFills, NextCanBeMarked, PinFills};
ghost use Rattle.closure_plan.specs.Laws.{ClosureIsGiven, ClosureIsThatOfWorld, EndIsDone, NextIsAskable, GivenIsInClosure, GivenStays, NeedsAreOnce, NothingIsAdded, OrderChangesNothing, ReachIsLeast, ReachStays, RoundsGrow, WantedStays};

use crate::holders::{LeafHolder, PinHolder};

/// Rounds keep what was reached, and end: what is reached has the root names and all that it leads
/// to, nothing is added after that, and no smaller list of names is so.
pub fn rounds_end()
    ensures grow { RoundsGrow }
    ensures nothing_added { NothingIsAdded }
    ensures least { ReachIsLeast }
{}

/// The closure is what is given of the names that are reached: each given row is in it, and each row
/// of it is given.
pub fn closure_is_what_is_given()
    ensures given { GivenIsInClosure }
    ensures only { ClosureIsGiven }
{}

/// More pins and more leaves only add: what was wanted, given and reached stays so.
pub fn more_only_adds()
    ensures wanted { WantedStays }
    ensures given { GivenStays }
    ensures reached { ReachStays }
{}

/// The order in which leaves arrive changes nothing, and the closure over what was needed is that
/// over a world that has all.
pub fn order_changes_nothing()
    ensures order { OrderChangesNothing }
    ensures world { ClosureIsThatOfWorld }
{}

/// No need stands twice among the needs.
pub fn needs_are_once()
    ensures { NeedsAreOnce }
{}

/// A plan without marks whose `next` is None is done, and what `next` gives is not given, and has a
/// key that no marked need has.
pub fn the_end_is_done()
    ensures done { EndIsDone }
    ensures next { NextIsAskable }
{}

/// A pin of a slot, or a shard of a need, that was not given yet fills its need and no other: needs stay
/// needs with their digests, what is given now was given or is this need, and one need more is given.
pub fn one_need_is_filled<P: PinHolder, H: LeafHolder>()
    ensures pin { PinFills P.contents H.contents }
    ensures give { GiveFills P.contents H.contents }
{}

/// The need that a plan asks for next may be marked, and no marked need has its key.
pub fn the_next_can_be_marked<P: PinHolder, H: LeafHolder>()
    ensures { NextCanBeMarked P.contents H.contents }
{}
