//! `Table`: what it is made of, its doors, and how it is taken apart.

ghost use Rattle.std.specs.Prelude.{◌≡◌, ◌≢◌, ◌≤◌, ◌++◌, ◌∷◌, [], ℕ, true, IfOk, OnErr};
ghost use Rattle.link_io.specs.declared.target.Target.{Target};
ghost use Rattle.pass_book.specs.Lines.{HasLine};
ghost use Rattle.flight_journal.specs.declared.entry.Entry.TheVariants.{Opened, Refreshed};
ghost use Rattle.flight_journal.specs.Journal.{after};
ghost use Rattle.flight_rows.specs.Sight.{IsSightSound};
ghost use Rattle.flight_rows.specs.Serves.{Writes, HandsStay, IsAway, Refreshes};
ghost use Rattle.flight_table.specs.Facts.{new_pass};
ghost use Rattle.flight_table.specs.Doors.{TellsDoor, first_door, lighter_door, split_off, joined_door, opening_door, refreshing_door};
ghost use Rattle.flight_table.specs.Follows.{Enters, Stays};

use crate::saying::{Mark, agree_door, begin_door, begin_pass, join, mark_door, split};
use crate::token::{Door, Pass, Saying};
use flight_journal::Journal;
use flight_rows::Flights;
use link_io::{Dial, HttpUrl, Landed};
use pass_book::{Book, Naming, Unnamed};
use std::alloc::{AllocError, Global};
use std::marker::Model;

/// The flights of one table, and a book with a line for each of its passes and doors.
///
/// Contracts see it as its flights (`flight_rows`). All lines are so of it, at any time.
#[derive(Drop)]
pub struct Table<N: Naming, D: Dial, V: Landed> {
    pub(crate) alloc: Global,
    pub(crate) book: Book<N, Saying>,
    pub(crate) flights: Flights<D, V>,
}

impl<N: Naming, D: Dial, V: Landed> Model for Table<N, D, V> {
    ghost use Rattle.flight_rows.specs.Sight.{Sight};
    ghost use Rattle.flight_table.specs.Lines.{AreSo};

    ghost Value = { Sight };

    ghost view = { λ t. t.flights };

    ghost invariant = { λ t. AreSo t.flights t.book };
}

impl<N: Naming, D: Dial, V: Landed> Table<N, D, V> {
    /// A table without flights, with a budget in bytes for what is kept, and its door. It takes no
    /// memory: that of its book comes with `unnamed`, and names it.
    pub fn new(
        alloc: Global,
        unnamed: Unnamed<Saying>,
        dial: D,
        budget: u64,
    ) -> (Table<N, D, V>, Door<N>)
        requires { unnamed ≡ N.table }
        ensures table { result.0 ≡ record {
          journal = [];
          keep = budget;
          start = D.dialed dial;
          dialed = D.dialed dial;
          origin = D.origin dial;
          hands = [];
        } }
        ensures door { result.1 ≡ first_door budget (D.dialed dial) (D.origin dial) }
    {
        let mut book = Book::open(unnamed);
        let flights = Flights::new(alloc, dial, budget);
        let door = begin_door(&mut book, &flights);
        let table = Table {
            alloc,
            book,
            flights,
        };
        (table, door)
    }

    /// A door of weight 1 without numbers, by which the given one is lighter.
    pub fn split_door(&mut self, door: &mut Door<N>) -> Door<N>
        requires { 2 ≤ door.old.weight }
        ensures table { self.new ≡ self.old }
        ensures rest { door.new ≡ lighter_door door.old }
        ensures part { result ≡ split_off door.old }
    {
        agree_door(&mut self.book, door);
        let part = split(&mut self.book, door);
        mark_door(&mut self.book, door, Mark::Lightens);
        part
    }

    /// Gives the weight and the numbers of a door to another one.
    pub fn join_door(&mut self, door: &mut Door<N>, other: Door<N>)
        ensures table { self.new ≡ self.old }
        ensures both { door.new ≡ joined_door door.old other }
    {
        join(&mut self.book, door, other);
    }

    /// The next query opens: its pass.
    ///
    /// `AllocError` where there is no memory for its entries.
    pub fn enter(&mut self, door: &mut Door<N>) -> Result<Pass<N>, AllocError>
        ensures writes { IfOk result (λ p. Writes (Opened p.query ∷ []) self.old self.new
            × HandsStay self.old self.new) }
        ensures pass { IfOk result (λ p. p ≡ new_pass p.query p.base p.origin) }
        ensures enters { IfOk result (λ p. Enters self.old self.new p) }
        ensures door { IfOk result (λ p. (door.new ≡ opening_door door.old)
            × TellsDoor self.old door.old × TellsDoor self.new door.new) }
        ensures err { OnErr result ((self.new ≡ self.old) × (door.new ≡ door.old)) }
    {
        self.flights.tell();
        agree_door(&mut self.book, door);
        let query = self.flights.enter()?;
        self.flights.tell();
        let told = begin_pass(&mut self.book, &self.flights, query);
        mark_door(&mut self.book, door, Mark::Opens);
        Ok(Pass {
            told,
            entered: Vec::new(self.alloc),
        })
    }

    /// Gives up the kept index of an address, and says whether one was kept. Its value is still owed to
    /// those that it was owed to. It takes no memory and is never refused.
    pub fn refresh(&mut self, door: &mut Door<N>, url: HttpUrl) -> bool
        ensures writes { Refreshes url self.old self.new result }
        ensures stays { Stays self.old self.new }
        ensures door { (door.new ≡ refreshing_door result door.old)
            × TellsDoor self.old door.old × TellsDoor self.new door.new }
    {
        self.flights.tell();
        let given_up = self.flights.refresh(url);
        self.flights.tell();
        mark_door(&mut self.book, door, Mark::Refreshes(given_up));
        given_up
    }

    /// Whether `take` would answer Busy.
    pub fn is_busy(&self, pass: &Pass<N>, f: u64) -> bool
        ensures yes { result ≡ true → IsAway pass.now.query f self.now }
        ensures no { IsAway pass.now.query f self.now → result ≡ true }
    {
        self.flights.is_busy(pass.query(), f)
    }

    /// The journal.
    pub fn journal(&self) -> &Journal
        ensures { result.now.entries ≡ self.now.journal }
    {
        self.flights.journal()
    }

    /// Tells what is always so of the flights, and does nothing.
    pub fn tell(&self)
        ensures { IsSightSound self.now }
    {
        self.flights.tell();
    }
}
