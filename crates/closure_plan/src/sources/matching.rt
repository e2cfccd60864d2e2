//! Which rows of a shard a request is given.

ghost use Rattle.std.specs.Prelude.{◌≡◌, slice_get, Some, true};
ghost use Rattle.std.specs.List.{list_any};
ghost use Rattle.std.specs.Option.{option_map, option_to_list};
ghost use Rattle.conda_record.specs.View.{seen};
ghost use Rattle.shard_file.specs.Seen.{row_seen};
ghost use Rattle.closure_plan.specs.Names.{is_name};
ghost use Rattle.closure_plan.specs.Given.{gives, hits, is_asked, is_left_out, name_in, named, passed, stays};
ghost use Rattle.closure_plan.specs.Roots.{asked_of, specs_at};

use crate::holders::PinHolder;
use crate::sources::Sources;
use closure_request::Format;
use conda_name::{Name, same_name};
use shard_file::{Shard, ShardRow};

impl<P: PinHolder> Sources<P> {
    // The numbers of the specs of a name, or None where no spec has it.
    pub(crate) fn asked(&self, name: &Name) -> Option<&[usize]>
        ensures { option_map (λ numbers. specs_at self.now.request.specs numbers.now) result
            ≡ asked_of self.now.request.specs name.now }
    {
        self.roots.asked(name.as_str())
    }

    // Whether the spec of a number matches a row in a slot.
    fn matches(&self, k: usize, slot: usize, row: ShardRow<'_>) -> bool
        ensures { result ≡ list_any (hits self.now.request slot (row_seen row.entry))
            (option_to_list (slice_get self.now.request.specs k)) }
    {
        match self.request.specs.get(k) {
            Some(spec) => spec.matches(row.view, self.channel(slot), self.subdir(slot), row.file),
            None => false,
        }
    }

    // Whether the spec of one of some numbers matches a row in a slot.
    fn is_matched(&self, numbers: &[usize], slot: usize, row: ShardRow<'_>) -> bool
        ensures { result ≡ list_any (hits self.now.request slot (row_seen row.entry))
            (specs_at self.now.request.specs numbers.now) }
    {
        for k in numbers {
            if self.matches(*k, slot, row) {
                return true;
            }
        }
        false
    }

    // Whether the request asks for a row of a name, of whose specs these are the numbers.
    fn is_asked(&self, slot: usize, name: &Name, asked: Option<&[usize]>, row: ShardRow<'_>) -> bool
        requires asked { option_map (λ numbers. specs_at self.now.request.specs numbers.now) asked
            ≡ asked_of self.now.request.specs name.now }
        requires name { is_name name.now (name_in (row_seen row)) ≡ true }
        ensures { result ≡ is_asked self.now.request slot name.now (row_seen row.entry) }
    {
        let _name = name;
        match asked {
            Some(numbers) => self.is_matched(numbers, slot, row),
            None => true,
        }
    }

    // Whether the request's format leaves the row of a place, which has this name.
    fn stays(&self, shard: &Shard, name: &Name, i: usize, row: ShardRow<'_>) -> bool
        requires row { slice_get shard.now.rows i ≡ Some (row_seen row) }
        requires name { is_name name.now (name_in (row_seen row)) ≡ true }
        ensures { result ≡ stays self.now.request.format (named name.now shard.now.rows)
            (row_seen row.entry) }
    {
        match self.request.format {
            Format::All => true,
            Format::PreferConda => !is_left_out(shard, name, i, row),
        }
    }

    // Whether the row of a place of a shard is given, which is that of a name, of whose specs these are
    // the numbers.
    pub(crate) fn gives(
        &self,
        slot: usize,
        name: &Name,
        asked: Option<&[usize]>,
        shard: &Shard,
        i: usize,
        row: ShardRow<'_>,
    ) -> bool
        requires asked { option_map (λ numbers. specs_at self.now.request.specs numbers.now) asked
            ≡ asked_of self.now.request.specs name.now }
        requires row { slice_get shard.now.rows i ≡ Some (row_seen row) }
        ensures { result ≡ gives self.now.request slot name.now shard.now.rows (row_seen
            row.entry) }
    {
        has_name(row, name)
            && self.stays(shard, name, i, row)
            && self.is_asked(slot, name, asked, row)
    }

    // The row of a place of a shard, where it is given; the specs of the name have these numbers.
    pub(crate) fn given<'a>(
        &self,
        slot: usize,
        name: &Name,
        asked: Option<&[usize]>,
        shard: &'a Shard,
        i: usize,
    ) -> Option<ShardRow<'a>>
        requires { option_map (λ numbers. specs_at self.now.request.specs numbers.now) asked
            ≡ asked_of self.now.request.specs name.now }
        ensures { option_map (λ row. row_seen row) result ≡ passed (gives self.now.request slot
            name.now shard.now.rows) (slice_get shard.now.rows i) }
    {
        match shard.row(i) {
            Some(row) if self.gives(slot, name, asked, shard, i, row) => Some(row),
            Some(_) | None => None,
        }
    }
}

// Whether the row of a place, which has this name, is left out where files of packages.conda are
// preferred.
fn is_left_out(shard: &Shard, name: &Name, i: usize, row: ShardRow<'_>) -> bool
    requires row { slice_get shard.now.rows i ≡ Some (row_seen row) }
    requires name { is_name name.now (name_in (row_seen row)) ≡ true }
    ensures { result ≡ is_left_out (named name.now shard.now.rows) (row_seen row.entry) }
{
    let _name = name;
    let _row = row;
    shard.twin(i).is_some()
}

// Whether the record of a row has a name, in lower case.
fn has_name(row: ShardRow<'_>, name: &Name) -> bool
    ensures { result ≡ is_name name.now (name_in (row_seen row.entry)) }
{
    same_name(row.view.name(), name)
}
