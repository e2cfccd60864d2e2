//! How a query leaves: it closes, or it is cancelled.

ghost use Rattle.std.specs.Prelude.{◌≡◌, ◌≢◌, ◌⊎◌, ◌<◌, ℕ, Some, true, length, slice_index};
ghost use Rattle.std.specs.List.Sorted.{IsStrictlyIncreasing};
ghost use Rattle.flight_journal.specs.declared.entry.Entry.TheVariants.{Cancelled, Closed};
ghost use Rattle.flight_journal.specs.State.{WaitsIn, IsOwed, IsOpen, is_one_of};
ghost use Rattle.flight_journal.specs.Journal.{after};
ghost use Rattle.flight_rows.specs.Sight.{hand_in};
ghost use Rattle.flight_rows.specs.Serves.{IsLeaving, Leaves, HandsStay};

use crate::row::{end_row, is_alone, part_each};
use crate::table::Flights;
use flight_journal::Entry;
use link_io::{Dial, Landed, keys_are_told_apart};

impl<D: Dial, V: Landed> Flights<D, V> {
    /// The query closes. It waits nowhere any more and is owed nothing, and each flight that then
    /// nobody awaits is abandoned. It takes no memory and is never refused.
    ///
    /// The flights in which it waits or that are owed to it are among those given, which ascend.
    pub fn close(&mut self, query: u64, flights: &[u64])
        requires open { IsOpen (after self.old.journal) query }
        requires idle { (f : ℕ) → hand_in self.old.hands f ≢ Some query }
        requires rising { IsStrictlyIncreasing flights.now }
        requires awaited { (f : ℕ) →
            WaitsIn (after self.old.journal) query f ⊎ IsOwed (after self.old.journal) query f →
            is_one_of f flights.now ≡ true }
        ensures writes { Leaves (Closed query) self.old self.new }
        ensures hands { HandsStay self.old self.new }
    {
        self.leave(query, flights, Entry::Closed(query));
    }

    /// The query is cancelled. All else is as with `close`.
    pub fn cancel(&mut self, query: u64, flights: &[u64])
        requires open { IsOpen (after self.old.journal) query }
        requires idle { (f : ℕ) → hand_in self.old.hands f ≢ Some query }
        requires rising { IsStrictlyIncreasing flights.now }
        requires awaited { (f : ℕ) →
            WaitsIn (after self.old.journal) query f ⊎ IsOwed (after self.old.journal) query f →
            is_one_of f flights.now ≡ true }
        ensures writes { Leaves (Cancelled query) self.old self.new }
        ensures hands { HandsStay self.old self.new }
    {
        self.leave(query, flights, Entry::Cancelled(query));
    }

    // The query leaves, by this entry.
    fn leave(&mut self, query: u64, flights: &[u64], entry: Entry)
        requires leaving { IsLeaving query entry }
        requires open { IsOpen (after self.old.journal) query }
        requires idle { (f : ℕ) → hand_in self.old.hands f ≢ Some query }
        requires rising { IsStrictlyIncreasing flights.now }
        requires awaited { (f : ℕ) →
            WaitsIn (after self.old.journal) query f ⊎ IsOwed (after self.old.journal) query f →
            is_one_of f flights.now ≡ true }
        ensures writes { Leaves entry self.old self.new }
        ensures hands { HandsStay self.old self.new }
    {
        keys_are_told_apart();
        part_each(&mut self.rows, flights, query);
        self.owed -= 1;
        self.journal.write(entry);
        for i in 0..flights.len() {
            let f = flights[i];
            if !is_alone(&self.rows, f) {
                continue;
            }
            end_row(&mut self.rows, &mut self.keys, f);
            self.owed -= 1;
            self.journal.write(Entry::Abandoned(f));
        }
    }
}
