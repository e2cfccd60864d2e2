//! Taking a flight's parcel or value, and putting a parcel back.

ghost use Rattle.std.specs.Prelude.{◌≡◌, ◌∷◌, [], ℕ, IsTrue, Some, None, length};
ghost use Rattle.link_io.specs.declared.target.Target.{Target};
ghost use Rattle.flight_journal.specs.State.{IsOwed, Flies, IsOpen};
ghost use Rattle.flight_journal.specs.Journal.{after};
ghost use Rattle.flight_rows.specs.Rows.{IsAimed, Comes};
ghost use Rattle.flight_rows.specs.Serves.{Serves, Writes, HandMoves, IsAway, IsHere};
ghost use Rattle.flight_rows.specs.Sight.{hand_in};
ghost use Rattle.flight_rows.specs.Places.{Finds};

use crate::row::{At, Place, copy_value, part_row, put_at, take_parcel};
use crate::table::{Drive, Flights};
use flight_journal::Entry;
use link_io::{Conn, Dial, Landed, Parcel};

impl<D: Dial, V: Landed> Flights<D, V> {
    /// The parcel of a flight, or its value.
    pub fn take(&mut self, query: u64, f: u64) -> Drive<D::Link, V>
        requires open { IsOpen (after self.old.journal) query }
        ensures { Serves
            (IsAimed D.Link.facts D.Link.from (length self.old.start) self.old.origin f)
            (Comes V.key V.size V.number V.from (length self.old.start) self.old.origin f)
            query f self.old self.new result }
    {
        match self.place(query, f) {
            Place::Stranger => Drive::Again,
            Place::Waits => Drive::Busy,
            Place::Ready => self.take_here(query, f),
            Place::Owed => self.take_value(query, f),
        }
    }

    /// Whether `take` would answer Busy.
    pub fn is_busy(&self, query: u64, f: u64) -> bool
        ensures yes { IsTrue result → IsAway query f self.now }
        ensures no { IsAway query f self.now → IsTrue result }
    {
        match self.place(query, f) {
            Place::Waits => true,
            Place::Stranger => false,
            Place::Ready => false,
            Place::Owed => false,
        }
    }

    // Where the query finds the flight.
    fn place(&self, query: u64, f: u64) -> Place
        ensures { Finds query f self.now result }
    {
        match self.rows.get(&f) {
            Some(row) => row.place(query),
            None => Place::Stranger,
        }
    }

    /// The parcel goes back to its flight.
    pub fn put_back(&mut self, query: u64, f: u64, parcel: Parcel<D::Link>)
        requires held { hand_in self.old.hands f ≡ Some query }
        requires aimed { (t : Target) → Flies (after self.old.journal) f t →
            IsAimed D.Link.facts D.Link.from (length self.old.start) self.old.origin f t parcel }
        ensures writes { Writes [] self.old self.new }
        ensures hand { HandMoves f None self.old self.new }
    {
        put_at(&mut self.rows, f, At::Here(parcel));
    }

    // The parcel, which stands here.
    fn take_here(&mut self, query: u64, f: u64) -> Drive<D::Link, V>
        requires { IsHere query f self.old }
        ensures { Serves
            (IsAimed D.Link.facts D.Link.from (length self.old.start) self.old.origin f)
            (Comes V.key V.size V.number V.from (length self.old.start) self.old.origin f)
            query f self.old self.new result }
    {
        match take_parcel(&mut self.rows, f, query) {
            Some(parcel) => Drive::Parcel(parcel),
            None => unreachable!(),
        }
    }

    // The value, which is owed.
    fn take_value(&mut self, query: u64, f: u64) -> Drive<D::Link, V>
        requires open { IsOpen (after self.old.journal) query }
        requires owed { IsOwed (after self.old.journal) query f }
        ensures { Serves
            (IsAimed D.Link.facts D.Link.from (length self.old.start) self.old.origin f)
            (Comes V.key V.size V.number V.from (length self.old.start) self.old.origin f)
            query f self.old self.new result }
    {
        let Ok(value) = copy_value(&self.rows, f) else {
            return Drive::Memory;
        };
        part_row(&mut self.rows, f, query);
        self.owed -= 1;
        self.journal.write(Entry::Taken(query, f));
        Drive::Ended(value)
    }
}
