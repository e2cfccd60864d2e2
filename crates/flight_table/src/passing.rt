//! The calls of a table that are made with a pass.

ghost use Rattle.std.specs.Prelude.{◌≡◌, ◌≢◌, ◌∷◌, [], ℕ, true, None, Some, IfOk, OnErr, length};
ghost use Rattle.link_io.specs.Target.{IsPlain};
ghost use Rattle.link_io.specs.declared.target.Target.{Target};
ghost use Rattle.flight_journal.specs.declared.entry.Entry.TheVariants.{Cancelled, Closed, Lost};
ghost use Rattle.flight_journal.specs.State.{WaitsIn};
ghost use Rattle.flight_journal.specs.Journal.{after};
ghost use Rattle.flight_journal.specs.Count.{Among};
ghost use Rattle.flight_rows.specs.Rows.{IsAimed, Comes};
ghost use Rattle.flight_rows.specs.Serves.{Asks, Serves, Writes, HandsStay, HandMoves, Lands, Leaves};
ghost use Rattle.flight_table.specs.Facts.{left_pass, freed_pass, lost_pass, landed_pass};
ghost use Rattle.flight_table.specs.Doors.{TellsDoor, cancelling_door};
ghost use Rattle.flight_table.specs.Saying.{asked_change, entered_in, taken_change};
ghost use Rattle.flight_table.specs.Follows.{Follows, LeavesTable, Parts, AskSays, TakeSays, HasParcel, HasValue};

use crate::entered;
use crate::saying::{Change, Mark, agree, end_pass, mark_door, record_change};
use crate::table::Table;
use crate::token::{Door, Pass};
use flight_rows::{Asked, Drive};
use link_io::{Conn, Dial, Landed, Parcel, Target};
use pass_book::Naming;
use std::alloc::AllocError;
use std::sync::Arc;

impl<N: Naming, D: Dial, V: Landed> Table<N, D, V> {
    /// Asks for what a target names: a kept value, else a flight that the query awaits from then on,
    /// which is dialed where none flies for the key yet.
    ///
    /// `AllocError` where there is no memory for it or for what has to be written of it later, and
    /// where the dialer had none.
    pub fn ask(&mut self, pass: &mut Pass<N>, target: &Target) -> Result<Asked<V>, AllocError>
        requires live { pass.old.live ≡ true }
        requires plain { IsPlain target.now }
        requires apart { (f : ℕ) (t : Target) → Among (f, t) pass.old.awaits →
            WaitsIn (after self.old.journal) pass.old.query f → t.key ≢ target.now.key }
        ensures ok { IfOk result (Asks
            (Comes V.key V.size V.number V.from (length self.old.start) self.old.origin)
            pass.old.query target.now self.old self.new) }
        ensures says { IfOk result (AskSays
            (Comes V.key V.size V.number V.from pass.old.base pass.old.origin)
            target.now.key pass.old pass.new) }
        ensures err { OnErr result ((self.new ≡ self.old) × (pass.new ≡ pass.old)) }
        ensures follows { Follows self.old self.new pass.old pass.new }
    {
        self.flights.tell();
        agree(&mut self.book, &mut pass.told);
        pass.entered.reserve(1)?;
        let asked = self.flights.ask(pass.told.query(), target)?;
        self.flights.tell();
        record_change(
            &mut self.book,
            &self.flights,
            &mut pass.told,
            asked_change(&asked),
        );
        if let Some(f) = entered_in(&asked) {
            entered::put(&mut pass.entered, f);
        }
        Ok(asked)
    }

    /// The parcel of a flight, or its value.
    pub fn take(&mut self, pass: &mut Pass<N>, f: u64) -> Drive<D::Link, V>
        requires live { pass.old.live ≡ true }
        requires idle { pass.old.hand ≡ None }
        ensures serves { Serves
            (IsAimed D.Link.facts D.Link.from (length self.old.start) self.old.origin f)
            (Comes V.key V.size V.number V.from (length self.old.start) self.old.origin f)
            pass.old.query f self.old self.new result }
        ensures says { TakeSays
            (IsAimed D.Link.facts D.Link.from pass.old.base pass.old.origin)
            (Comes V.key V.size V.number V.from pass.old.base pass.old.origin)
            f pass.old pass.new result }
        ensures follows { Follows self.old self.new pass.old pass.new }
    {
        self.flights.tell();
        agree(&mut self.book, &mut pass.told);
        let drive = self.flights.take(pass.told.query(), f);
        self.flights.tell();
        if let Some(change) = taken_change(&drive, f) {
            record_change(&mut self.book, &self.flights, &mut pass.told, change);
        }
        drive
    }

    /// The parcel goes back to its flight.
    pub fn put_back(&mut self, pass: &mut Pass<N>, f: u64, parcel: Parcel<D::Link>)
        requires hand { pass.old.hand ≡ Some f }
        requires aimed { HasParcel
            (IsAimed D.Link.facts D.Link.from pass.old.base pass.old.origin) f pass.old parcel }
        ensures writes { Writes [] self.old self.new }
        ensures hand { HandMoves f None self.old self.new }
        ensures is { pass.new ≡ freed_pass pass.old }
        ensures follows { Follows self.old self.new pass.old pass.new }
    {
        self.flights.tell();
        agree(&mut self.book, &mut pass.told);
        self.flights.put_back(pass.told.query(), f, parcel);
        self.flights.tell();
        record_change(&mut self.book, &self.flights, &mut pass.told, Change::Frees);
    }

    /// The flight whose parcel the query has in hand lands: it came to this value, which is owed to each
    /// other query that waits in it. A value with a size is kept, as the most recently used, and the
    /// least recently used are evicted while the sizes exceed the budget. It takes no memory and is
    /// never refused.
    pub fn land(&mut self, pass: &mut Pass<N>, f: u64, value: Arc<V>)
        requires hand { pass.old.hand ≡ Some f }
        requires comes { HasValue
            (Comes V.key V.size V.number V.from pass.old.base pass.old.origin)
            f pass.old (V.size value.value) value.value }
        ensures writes { Lands pass.old.query f (V.size value.value) self.old self.new }
        ensures hand { HandMoves f None self.old self.new }
        ensures lands { Parts f (λ rest. landed_pass f (V.size value.value) rest pass.old)
            pass.old pass.new }
        ensures follows { Follows self.old self.new pass.old pass.new }
    {
        self.flights.tell();
        agree(&mut self.book, &mut pass.told);
        let size = size_of(&value);
        self.flights.land(pass.told.query(), f, value);
        self.flights.tell();
        record_change(
            &mut self.book,
            &self.flights,
            &mut pass.told,
            Change::Lands(f, size),
        );
    }

    /// The flight whose parcel the query has in hand is lost: it came to nothing, for want of memory.
    /// It takes no memory and is never refused.
    pub fn lose(&mut self, pass: &mut Pass<N>, f: u64)
        requires hand { pass.old.hand ≡ Some f }
        ensures writes { Writes (Lost pass.old.query f ∷ []) self.old self.new }
        ensures hand { HandMoves f None self.old self.new }
        ensures loses { Parts f (λ rest. lost_pass rest pass.old) pass.old pass.new }
        ensures follows { Follows self.old self.new pass.old pass.new }
    {
        self.flights.tell();
        agree(&mut self.book, &mut pass.told);
        self.flights.lose(pass.told.query(), f);
        self.flights.tell();
        record_change(
            &mut self.book,
            &self.flights,
            &mut pass.told,
            Change::Loses(f),
        );
    }

    /// The query closes: how many entries name it, this one among them. It awaits nothing any more, and
    /// each flight that then nobody awaits is abandoned, in ascending order. It takes no memory and is
    /// never refused.
    pub fn close(&mut self, pass: &mut Pass<N>) -> u64
        requires live { pass.old.live ≡ true }
        requires idle { pass.old.hand ≡ None }
        ensures writes { Leaves (Closed pass.old.query) self.old self.new }
        ensures hands { HandsStay self.old self.new }
        ensures is { pass.new ≡ left_pass pass.old }
        ensures calls { result ≡ pass.new.calls }
        ensures follows { Follows self.old self.new pass.old pass.new }
    {
        self.flights.tell();
        agree(&mut self.book, &mut pass.told);
        self.flights.close(pass.told.query(), &pass.entered);
        self.flights.tell();
        record_change(
            &mut self.book,
            &self.flights,
            &mut pass.told,
            Change::Leaves,
        );
        pass.told.calls()
    }

    /// The query is cancelled. All else is as with `close`.
    pub fn cancel(&mut self, door: &mut Door<N>, pass: Pass<N>)
        requires live { pass.live ≡ true }
        requires idle { pass.hand ≡ None }
        ensures writes { Leaves (Cancelled pass.query) self.old self.new }
        ensures hands { HandsStay self.old self.new }
        ensures leaves { LeavesTable self.old self.new pass }
        ensures door { (door.new ≡ cancelling_door door.old)
            × TellsDoor self.old door.old × TellsDoor self.new door.new }
    {
        let Pass { mut told, entered } = pass;
        self.flights.tell();
        agree(&mut self.book, &mut told);
        self.flights.cancel(told.query(), &entered);
        self.flights.tell();
        end_pass(&mut self.book, told);
        mark_door(&mut self.book, door, Mark::Cancels);
    }
}

// How many bytes a value is kept with.
fn size_of<V: Landed>(value: &Arc<V>) -> Option<u64>
    ensures { result ≡ V.size value.now.value }
{
    value.size()
}

// What an answer of `ask` means for the pass.
fn asked_change<V: Landed>(asked: &Asked<V>) -> Change
    ensures { result ≡ asked_change asked.now }
{
    match asked {
        Asked::Kept(f, _) => Change::Hits(*f),
        Asked::Joined(f) => Change::Awaits(*f),
        Asked::Began(f) => Change::Awaits(*f),
    }
}

// The flight that the query awaits from then on.
fn entered_in<V: Landed>(asked: &Asked<V>) -> Option<u64>
    ensures { result ≡ entered_in asked.now }
{
    match asked {
        Asked::Kept(_, _) => None,
        Asked::Joined(f) => Some(*f),
        Asked::Began(f) => Some(*f),
    }
}

// What an answer of `take` means for the pass.
fn taken_change<L: Conn, V: Landed>(drive: &Drive<L, V>, f: u64) -> Option<Change>
    ensures { result ≡ taken_change V.size f drive.now }
{
    match drive {
        Drive::Parcel(_) => Some(Change::Holds(f)),
        Drive::Busy => None,
        Drive::Ended(value) => Some(Change::Takes(f, size_of(value).is_none())),
        Drive::Again => Some(Change::Misses(f)),
        Drive::Memory => None,
    }
}
