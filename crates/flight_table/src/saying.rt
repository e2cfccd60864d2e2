//! How lines come into the book of a table, how they change, and how they go.

ghost use Rattle.std.specs.Prelude.{◌≡◌, ◌<◌, ◌+◌, ℕ, [], ◌∷◌, ◌++◌, length, slice_set, Some, None};
ghost use Rattle.pass_book.specs.Lines.{HasLine};
ghost use Rattle.flight_table.specs.Facts.{new_pass};
ghost use Rattle.flight_table.specs.Lines.{of_pass, of_door, pass_in, door_in};
ghost use Rattle.flight_table.specs.Doors.{first_door, split_off, joined_door};
ghost use Rattle.flight_table.specs.Saying.{fresh_line, said_by, marked_by, is_entry, leaves};
ghost use Rattle.flight_table.specs.Tells.{Tells};

use crate::token::{Door, Saying, Told};
use flight_rows::Flights;
use link_io::{Dial, Landed};
use pass_book::{Book, Naming, NewLine, Slip};
use std::marker::Brand;

// What a new token is.
#[derive(Clone, Copy)]
pub(crate) enum Fresh {
    // The pass of a query.
    Pass(u64),
    // The first door.
    Door,
}

// What a call means for the pass that it is made with.
#[derive(Clone, Copy)]
pub(crate) enum Change {
    // The query took what is kept of this flight.
    Hits(u64),
    // It awaits this flight from now on.
    Awaits(u64),
    // It has the parcel of this flight in hand.
    Holds(u64),
    // It has no parcel in hand.
    Frees,
    // It took the owed value of this flight, which may be a wreck.
    Takes(u64, bool),
    // It found this flight lost, if it awaited it.
    Misses(u64),
    // It landed this flight with a value of this size.
    Lands(u64, Option<u64>),
    // It lost this flight.
    Loses(u64),
    // It left.
    Leaves,
}

impl Change {
    // Whether an entry of the query was written.
    fn is_entry(self) -> bool
        ensures { result ≡ is_entry self }
    {
        !matches!(self, Change::Holds(_) | Change::Frees | Change::Misses(_))
    }

    // Whether the query left.
    fn leaves(self) -> bool
        ensures { result ≡ leaves self }
    {
        matches!(self, Change::Leaves)
    }
}

// What a call means for the door that it is made with.
#[derive(Clone, Copy)]
pub(crate) enum Mark {
    // Another door is split off.
    Lightens,
    // A query opened.
    Opens,
    // A query was cancelled.
    Cancels,
    // An index was given up, or was not there.
    Refreshes(bool),
}

// ---- passes

// The pass of a query that has just opened.
pub(crate) fn begin_pass<N: Naming, D: Dial, V: Landed>(
    book: &mut Book<N, Saying>,
    flights: &Flights<D, V>,
    query: u64,
) -> Told<N>
    ensures pass { result ≡ new_pass query (length flights.now.start) flights.now.origin }
    ensures lines { book.new ≡ book.old ++ Some (of_pass result) ∷ [] }
{
    Told {
        slip: begin::<N, D, V, Brand>(book, flights, Fresh::Pass(query)),
        query,
        calls: 1,
        live: true,
    }
}

// Tells that what a pass says is its line, and changes nothing.
pub(crate) fn agree<N: Naming>(book: &mut Book<N, Saying>, told: &mut Told<N>)
    ensures lines { book.new ≡ book.old }
    ensures told { told.new ≡ told.old }
    ensures line { (n : ℕ) × HasLine book.old n (of_pass told.old) }
{
    book.agree(&mut told.slip);
}

// A pass says what it says behind a call that left the flights so.
pub(crate) fn record_change<N: Naming, D: Dial, V: Landed>(
    book: &mut Book<N, Saying>,
    flights: &Flights<D, V>,
    told: &mut Told<N>,
    change: Change,
)
    requires { Tells flights.now (said_by change flights.now told.old) }
    ensures told { told.new ≡ said_by change flights.now told.old }
    ensures line { (n : ℕ) × HasLine book.old n (of_pass told.old)
        × (book.new ≡ slice_set book.old n (Some (of_pass told.new))) }
{
    say::<N, D, V, Brand>(book, flights, &mut told.slip, change);
    if change.is_entry() {
        told.calls = counted(flights, told.calls);
    }
    if change.leaves() {
        told.live = false;
    }
}

// One call more; the journal has its entry.
fn counted<D: Dial, V: Landed>(flights: &Flights<D, V>, calls: u64) -> u64
    requires { calls < length flights.now.journal }
    ensures { result ≡ calls + 1 }
{
    let written = flights.journal().len();
    if written == 0 { calls } else { calls + 1 }
}

// The line of a pass goes.
pub(crate) fn end_pass<N: Naming>(book: &mut Book<N, Saying>, told: Told<N>)
    ensures line { (n : ℕ) × HasLine book.old n (of_pass told)
        × (book.new ≡ slice_set book.old n None) }
{
    let Told { slip, .. } = told;
    book.take_back(slip);
}

// ---- doors

// The first door.
pub(crate) fn begin_door<N: Naming, D: Dial, V: Landed>(
    book: &mut Book<N, Saying>,
    flights: &Flights<D, V>,
) -> Door<N>
    ensures door { result ≡ first_door flights.now.keep flights.now.start flights.now.origin }
    ensures lines { book.new ≡ book.old ++ Some (of_door result) ∷ [] }
{
    Door {
        slip: begin::<N, D, V, Brand>(book, flights, Fresh::Door),
    }
}

// Tells that what a door says is its line, and changes nothing.
pub(crate) fn agree_door<N: Naming>(book: &mut Book<N, Saying>, door: &mut Door<N>)
    ensures lines { book.new ≡ book.old }
    ensures door { door.new ≡ door.old }
    ensures line { (n : ℕ) × HasLine book.old n (of_door door.old) }
{
    book.agree(&mut door.slip);
}

// What a door says behind a call.
pub(crate) fn mark_door<N: Naming>(book: &mut Book<N, Saying>, door: &mut Door<N>, mark: Mark)
    ensures door { door.new ≡ marked_by mark door.old }
    ensures line { (n : ℕ) × HasLine book.old n (of_door door.old)
        × (book.new ≡ slice_set book.old n (Some (of_door door.new))) }
{
    remark::<N, Brand>(book, &mut door.slip, mark);
}

// A door of weight 1 with no numbers, of the table of another one.
pub(crate) fn split<N: Naming>(book: &mut Book<N, Saying>, door: &Door<N>) -> Door<N>
    ensures door { result ≡ split_off door.now }
    ensures lines { book.new ≡ book.old ++ Some (of_door result) ∷ [] }
{
    Door {
        slip: split_named::<N, Brand>(book, &door.slip),
    }
}

// A door takes the share and the numbers of another one, whose line goes.
pub(crate) fn join<N: Naming>(book: &mut Book<N, Saying>, door: &mut Door<N>, other: Door<N>)
    ensures door { door.new ≡ joined_door door.old other }
    ensures line { (n : ℕ) × (m : ℕ) × HasLine book.old n (of_door door.old)
        × HasLine (slice_set book.old n (Some (of_door door.new))) m (of_door other)
        × (book.new ≡ slice_set (slice_set book.old n (Some (of_door door.new))) m None) }
{
    let Door { slip } = other;
    join_named::<N, Brand>(book, &mut door.slip, &slip);
    book.take_back(slip);
}

// ---- lines that are picked

fn begin<N: Naming, D: Dial, V: Landed, W: NewLine<Saying>>(
    book: &mut Book<N, Saying>,
    flights: &Flights<D, V>,
    fresh: Fresh,
) -> Slip<N, Saying>
    requires { W.line ≡ fresh_line fresh flights.now }
    ensures lines { book.new ≡ book.old ++ Some (fresh_line fresh flights.now) ∷ [] }
    ensures slip { result ≡ (length book.old, fresh_line fresh flights.now) }
{
    let _flights = flights;
    let _fresh = fresh;
    book.issue::<W>()
}

fn say<N: Naming, D: Dial, V: Landed, W: NewLine<Saying>>(
    book: &mut Book<N, Saying>,
    flights: &Flights<D, V>,
    slip: &mut Slip<N, Saying>,
    change: Change,
)
    requires { W.line ≡ of_pass (said_by change flights.now (pass_in slip.old.1)) }
    ensures lines { book.new ≡ slice_set book.old slip.old.0
        (Some (of_pass (said_by change flights.now (pass_in slip.old.1)))) }
    ensures slip { slip.new
        ≡ (slip.old.0, of_pass (said_by change flights.now (pass_in slip.old.1))) }
    ensures agrees { HasLine book.old slip.old.0 slip.old.1 }
{
    let _flights = flights;
    let _change = change;
    book.set::<W>(slip);
}

fn remark<N: Naming, W: NewLine<Saying>>(
    book: &mut Book<N, Saying>,
    slip: &mut Slip<N, Saying>,
    mark: Mark,
)
    requires { W.line ≡ of_door (marked_by mark (door_in slip.old.1)) }
    ensures lines { book.new ≡ slice_set book.old slip.old.0
        (Some (of_door (marked_by mark (door_in slip.old.1)))) }
    ensures slip { slip.new ≡ (slip.old.0, of_door (marked_by mark (door_in slip.old.1))) }
    ensures agrees { HasLine book.old slip.old.0 slip.old.1 }
{
    let _mark = mark;
    book.set::<W>(slip);
}

fn split_named<N: Naming, W: NewLine<Saying>>(
    book: &mut Book<N, Saying>,
    slip: &Slip<N, Saying>,
) -> Slip<N, Saying>
    requires { W.line ≡ of_door (split_off (door_in slip.now.1)) }
    ensures lines { book.new ≡ book.old ++ Some (of_door (split_off (door_in slip.now.1))) ∷ [] }
    ensures slip { result ≡ (length book.old, of_door (split_off (door_in slip.now.1))) }
{
    let _slip = slip;
    book.issue::<W>()
}

fn join_named<N: Naming, W: NewLine<Saying>>(
    book: &mut Book<N, Saying>,
    slip: &mut Slip<N, Saying>,
    other: &Slip<N, Saying>,
)
    requires { W.line ≡ of_door (joined_door (door_in slip.old.1) (door_in other.now.1)) }
    ensures lines { book.new ≡ slice_set book.old slip.old.0
        (Some (of_door (joined_door (door_in slip.old.1) (door_in other.now.1)))) }
    ensures slip { slip.new ≡
        (slip.old.0, of_door (joined_door (door_in slip.old.1) (door_in other.now.1))) }
    ensures agrees { HasLine book.old slip.old.0 slip.old.1 }
{
    let _other = other;
    book.set::<W>(slip);
}
