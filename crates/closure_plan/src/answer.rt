//! What a plan gave.

ghost use Rattle.std.specs.Prelude.{◌≡◌, length, slice_get, IfSome, Some};
ghost use Rattle.std.specs.Option.{option_map};
ghost use Rattle.shard_file.specs.Seen.{row_seen};
ghost use Rattle.closure_plan.specs.Given.{pin_at};
ghost use Rattle.closure_plan.specs.Closure.{found};
ghost use Rattle.closure_plan.specs.Rows.{IsThere, found_at};
ghost use Rattle.closure_plan.specs.Plan.{IsReached, leaves_of, pins_of};
ghost use Rattle.closure_plan.specs.Shown.{leaf_shown, row_shown};

use crate::holders::{LeafHolder, PinHolder};
use crate::plan::GivenLeaf;
use crate::sources::Sources;
use closure_request::Request;
use conda_name::Name;
use conda_record::RecordView;
use shard_file::ShardRow;
use std::marker::Model;

// A row of an answer, by its slot, its shard and its place there.
#[derive(Clone, Copy, Debug)]
pub(crate) struct RowPlace {
    pub(crate) slot: usize,
    pub(crate) leaf: usize,
    pub(crate) row: usize,
}

/// What was given of a request, where not each need may be given. Contracts see what is `Known`.
#[derive(Drop)]
pub struct Part<P: PinHolder, H: LeafHolder> {
    pub(crate) sources: Sources<P>,
    pub(crate) names: Vec<Name>,
    pub(crate) leaves: Vec<GivenLeaf<H>>,
}

impl<P: PinHolder, H: LeafHolder> Model for Part<P, H> {
    ghost use Rattle.closure_plan.specs.Plan.{Known, IsReached};

    ghost Value = { Known P H };

    ghost view = { λ p. record {
      request = p.sources.request;
      names = p.names.items;
      pins = p.sources.pins;
      leaves = p.leaves.items;
    } };

    ghost invariant = { λ p. IsReached P.contents H.contents (record {
      request = p.sources.request;
      names = p.names.items;
      pins = p.sources.pins;
      leaves = p.leaves.items;
    }) };
}

impl<P: PinHolder, H: LeafHolder> Part<P, H> {
    /// Says what is always so of what was given. It does nothing.
    pub fn tell(&self)
        ensures { IsReached P.contents H.contents self.now }
    {
        let _names = &self.names;
    }

    /// The request.
    pub fn request(&self) -> &Request
        ensures { result.now ≡ self.now.request }
    {
        &self.sources.request
    }

    /// What holds the index of a slot, or None where it wasn't pinned.
    pub fn pin(&self, slot: usize) -> Option<&P>
        ensures contents { option_map (λ p. P.contents p.now) result
            ≡ pin_at (pins_of P.contents self.now.pins) slot }
        ensures holder { IfSome result (λ p. slice_get self.now.pins slot ≡ Some (Some p.now)) }
    {
        self.sources.holder(slot)
    }

    /// How many shards were given.
    pub fn leaves(&self) -> usize
        ensures { result ≡ length self.now.leaves }
    {
        self.leaves.len()
    }

    /// The slot, the name and the holder of the shard of a place, in the order in which they were given,
    /// counted from 0, or None where there is none.
    pub fn leaf(&self, i: usize) -> Option<(usize, &Name, &H)>
        ensures { option_map leaf_shown result ≡ slice_get self.now.leaves i }
    {
        match self.leaves.get(i) {
            Some(leaf) => Some((leaf.slot, &leaf.name, &leaf.holder)),
            None => None,
        }
    }
}

impl<P: PinHolder, H: LeafHolder> Part<P, H> {
    // The row of a place that is there.
    fn row_at(&self, place: RowPlace) -> Option<AnswerRow<'_>>
        requires { IsThere (leaves_of H.contents self.now.leaves) place }
        ensures { option_map row_shown result
            ≡ Some (found_at self.now.request (leaves_of H.contents self.now.leaves) place) }
    {
        let leaf = &self.leaves[place.leaf];
        self.shown(place, leaf.holder.leaf().shard().row(place.row)?)
    }

    // A row of a slot, to look at.
    fn shown<'a>(&'a self, place: RowPlace, row: ShardRow<'a>) -> Option<AnswerRow<'a>>
        ensures { option_map row_shown result ≡ Some (found self.now.request place.slot
            (row_seen row.entry)) }
    {
        Some(AnswerRow {
            channel: self.sources.channel(place.slot),
            subdir: self.sources.subdir(place.slot),
            file: row.file,
            conda: row.conda,
            view: row.view,
        })
    }
}

/// A row of an answer, to look at: the channel and the subdir of its slot, and the row of the shard.
#[derive(Clone, Copy)]
pub struct AnswerRow<'a> {
    /// The name of the channel.
    pub channel: &'a str,
    /// The name of the subdir.
    pub subdir: &'a str,
    /// The name of the package file.
    pub file: &'a str,
    /// Whether it stands in `packages.conda`, and not in `packages`.
    pub conda: bool,
    /// What its record says.
    pub view: RecordView<'a>,
}

/// What a plan gave, once each of its needs was given. Contracts see what is `Answered`.
#[derive(Drop)]
pub struct Answer<P: PinHolder, H: LeafHolder> {
    pub(crate) part: Part<P, H>,
    pub(crate) rows: Vec<RowPlace>,
}

impl<P: PinHolder, H: LeafHolder> Model for Answer<P, H> {
    ghost use Rattle.std.specs.Prelude.{map};
    ghost use Rattle.closure_plan.specs.Answered.{Answered};
    ghost use Rattle.closure_plan.specs.Rows.{found_at};
    ghost use Rattle.closure_plan.specs.Plan.{leaves_of};

    ghost Value = { Answered P H };

    ghost view = { λ a. record {
      known = a.part;
      rows = map (found_at a.part.request (leaves_of H.contents a.part.leaves)) a.rows.items;
    } };

    ghost use Rattle.std.specs.List.{All};
    ghost use Rattle.closure_plan.specs.Rows.{IsThere};

    ghost invariant = { λ a. All (IsThere (leaves_of H.contents a.part.leaves)) a.rows.items };
}

impl<P: PinHolder, H: LeafHolder> Answer<P, H> {
    /// What was given. Its calls tell the request, the pins and the shards.
    pub fn part(&self) -> &Part<P, H>
        ensures { result.now ≡ self.now.known }
    {
        &self.part
    }

    /// How many rows there are.
    pub fn len(&self) -> usize
        ensures { result ≡ length self.now.rows }
    {
        self.rows.len()
    }

    /// The row of a place, counted from 0, or None where the place is not below `len`.
    pub fn row(&self, i: usize) -> Option<AnswerRow<'_>>
        ensures { option_map row_shown result ≡ slice_get self.now.rows i }
    {
        match self.rows.get(i) {
            Some(place) => self.part.row_at(*place),
            None => None,
        }
    }
}
