//! A table that was taken apart, to which each token tells what it says.

ghost use Rattle.std.specs.Prelude.{◌≡◌, ◌≢◌, ◌++◌, ℕ};
ghost use Rattle.pass_book.specs.Lines.{HasLine};
ghost use Rattle.flight_journal.specs.Count.{begun_in};
ghost use Rattle.flight_rows.specs.Sight.{IsSightSound};
ghost use Rattle.flight_table.specs.Facts.{Facts};
ghost use Rattle.flight_table.specs.Lines.{of_pass};
ghost use Rattle.flight_table.specs.Tells.{Tells};
ghost use Rattle.flight_table.specs.Doors.{TellsDoor};

use crate::saying::{agree_door, end_pass};
use crate::table::Table;
use crate::token::{Door, Pass, Saying};
use flight_journal::Journal;
use flight_rows::Flights;
use link_io::{Dial, Landed};
use pass_book::{Book, Naming};
use std::marker::Model;
use std::snapshot::Snapshot;

/// The book and the journal of a table that was taken apart.
///
/// Contracts see what the flights were, and the lines that are left: all of them are so of it.
#[derive(Drop)]
pub struct Closing<N: Naming, D: Dial, V: Landed> {
    book: Book<N, Saying>,
    journal: Journal,
    was: Snapshot<Flights<D, V>>,
}

impl<N: Naming, D: Dial, V: Landed> Model for Closing<N, D, V> {
    ghost use Rattle.std.specs.Prelude.{◌≡◌};
    ghost use Rattle.flight_rows.specs.Sight.{IsSightSound};
    ghost use Rattle.flight_table.specs.Lines.{Apart, AreSo};

    ghost Value = { Apart };

    ghost view = { λ c. record { was = c.was.value; lines = c.book } };

    ghost invariant = { λ c. AreSo c.was.value c.book × (c.journal.entries ≡ c.was.value.journal) × IsSightSound c.was.value };
}

impl<N: Naming, D: Dial, V: Landed> Table<N, D, V> {
    /// The dialer, and the rest of the table, of which nothing is taken any more.
    pub fn into_parts(self) -> (D, Closing<N, D, V>)
        ensures was { result.1.was ≡ self }
        ensures sound { IsSightSound self }
        ensures dialed { D.dialed result.0 ≡ self.start ++ begun_in self.journal }
        ensures origin { D.origin result.0 ≡ self.origin }
    {
        let Table { book, flights, .. } = self;
        let was = Snapshot::of(&flights);
        let (dial, journal) = flights.into_parts();
        (dial, Closing { book, journal, was })
    }
}

impl<N: Naming, D: Dial, V: Landed> Closing<N, D, V> {
    /// The journal.
    pub fn journal(&self) -> &Journal
        ensures { result.now.entries ≡ self.now.was.journal }
    {
        &self.journal
    }

    /// Takes a pass, open or closed, and tells that all it says is so. No line that is left is one of its
    /// query.
    pub fn tell(&mut self, pass: Pass<N>)
        ensures same { self.new.was ≡ self.old.was }
        ensures so { Tells self.old.was pass }
        ensures stood { (n : ℕ) × HasLine self.old.lines n (of_pass pass) }
        ensures fewer { (n : ℕ) (p : Facts) → HasLine self.new.lines n (of_pass p) →
            HasLine self.old.lines n (of_pass p) × (p.query ≢ pass.query) }
    {
        let Pass { told, .. } = pass;
        end_pass(&mut self.book, told);
    }

    /// Takes a door, and tells that what it says is so: where it is whole, its three numbers are those of
    /// the journal.
    pub fn tell_door(&mut self, mut door: Door<N>)
        ensures same { self.new ≡ self.old }
        ensures so { TellsDoor self.old.was door }
    {
        agree_door(&mut self.book, &mut door);
    }

    /// The journal.
    pub fn into_journal(self) -> Journal
        ensures journal { result.entries ≡ self.was.journal }
        ensures sound { IsSightSound self.was }
    {
        let Closing { journal, .. } = self;
        journal
    }
}
