//! `Flights`: what a table holds, and how it begins.

ghost use Rattle.std.specs.Prelude.{◌≡◌, ◌++◌, ◌∷◌, [], length, IfOk, OnErr};
ghost use Rattle.flight_journal.specs.Journal.{after};
ghost use Rattle.flight_journal.specs.declared.entry.Entry.TheVariants.{Opened};
ghost use Rattle.flight_rows.specs.Sight.{IsSightSound};

use crate::row::Row;
use flight_journal::{Entry, Journal};
use link_io::{Conn, Dial, Key, Landed, Parcel};
use shard_cache::Recency;
use std::alloc::{AllocError, Global};
use std::collections::BTreeMap;
use std::marker::Model;
use std::snapshot::Snapshot;
use std::sync::Arc;

/// What `take` gives.
#[derive(Drop)]
pub enum Drive<L: Conn, V: Landed> {
    /// The parcel, which stood in the table and is now in the query's hand.
    Parcel(Parcel<L>),
    /// Another query has the parcel in hand.
    Busy,
    /// The flight has landed with this value, which was owed to the query.
    Ended(Arc<V>),
    /// The query awaits nothing of this flight: it has to ask again.
    Again,
    /// There is no memory for the copy of an owed value, which is still owed.
    Memory,
}

/// Flights, and the journal of all that happened to them.
#[derive(Drop)]
pub struct Flights<D: Dial, V: Landed> {
    pub(crate) alloc: Global,
    pub(crate) dial: D,
    pub(crate) start: Snapshot<D>,
    pub(crate) journal: Journal,
    pub(crate) opened: u64,
    pub(crate) begun: u64,
    // Entries that are still to be written: the journal has room for them.
    pub(crate) owed: usize,
    pub(crate) rows: BTreeMap<u64, Row<D::Link, V>>,
    pub(crate) keys: BTreeMap<Key, u64>,
    pub(crate) recent: Recency,
}

impl<D: Dial, V: Landed> Model for Flights<D, V> {
    ghost use Rattle.flight_rows.specs.Sight.{Sight};

    ghost Value = { Sight };

    ghost use Rattle.std.specs.Prelude.{length};
    ghost use Rattle.flight_journal.specs.Journal.{after, IsSettled};
    ghost use Rattle.flight_rows.specs.Rows.{Keeps, IsAimed, Comes, hands_of};

    ghost view = { λ t. record { journal = t.journal.entries; keep = t.recent.budget; start = D.dialed t.start.value; dialed = D.dialed t.dial; origin = D.origin t.dial; hands = hands_of t.rows.entries } };

    ghost invariant = { λ t. Keeps (IsAimed D.Link.facts D.Link.from (length (D.dialed t.start.value)) (D.origin t.dial)) (Comes V.key V.size V.number V.from (length (D.dialed t.start.value)) (D.origin t.dial)) ⟦<Key as Ord>⟧.cmp t.recent.budget (D.dialed t.start.value) (D.dialed t.dial) t.journal.entries t.journal.room t.rows t.keys t.recent.order t.recent.rows t.opened t.begun t.owed × IsSettled t.recent.budget (after t.journal.entries) };
}

impl<D: Dial, V: Landed> Flights<D, V> {
    /// No flight and no query, with a budget in bytes for what is kept. It takes no memory.
    pub fn new(alloc: Global, dial: D, budget: u64) -> Flights<D, V>
        ensures { result ≡ record {
          journal = [];
          keep = budget;
          start = D.dialed dial;
          dialed = D.dialed dial;
          origin = D.origin dial;
          hands = [];
        } }
    {
        Flights {
            alloc,
            start: Snapshot::of(&dial),
            dial,
            journal: Journal::new(alloc),
            opened: 0,
            begun: 0,
            owed: 0,
            rows: BTreeMap::new(alloc),
            keys: BTreeMap::new(alloc),
            recent: Recency::new(alloc, budget),
        }
    }

    /// The next query opens: its number, counted from 0.
    ///
    /// `AllocError` where there is no memory for its entries.
    pub fn enter(&mut self) -> Result<u64, AllocError>
        ensures ok { IfOk result (λ q. self.new ≡
            record self.old { journal = self.old.journal ++ Opened q ∷ [] }) }
        ensures number { IfOk result (λ q. q ≡ length (after self.old.journal).live) }
        ensures err { OnErr result (self.new ≡ self.old) }
    {
        self.journal.reserve(self.owed.saturating_add(2))?;
        let query = self.opened;
        self.opened += 1;
        self.owed += 1;
        self.journal.write(Entry::Opened(query));
        Ok(query)
    }

    /// Tells what is always so, and does nothing.
    pub fn tell(&self)
        ensures { IsSightSound self.now }
    {
        let _journal = &self.journal;
    }

    /// The journal.
    pub fn journal(&self) -> &Journal
        ensures { result.now.entries ≡ self.now.journal }
    {
        &self.journal
    }

    /// The dialer and the journal, of which nothing is taken any more.
    pub fn into_parts(self) -> (D, Journal)
        ensures dialed { D.dialed result.0 ≡ self.dialed }
        ensures origin { D.origin result.0 ≡ self.origin }
        ensures journal { result.1.entries ≡ self.journal }
        ensures sound { IsSightSound self }
    {
        let Flights { dial, journal, .. } = self;
        (dial, journal)
    }
}
