//! How a flight ends: it lands with a value, or it is lost.

ghost use Rattle.std.specs.Prelude.{◌≡◌, ◌∷◌, [], ℕ, List, Some, None, length};
ghost use Rattle.link_io.specs.declared.target.Target.{Target};
ghost use Rattle.flight_journal.specs.declared.entry.Entry.TheVariants.{Lost};
ghost use Rattle.flight_journal.specs.State.{Flies, IsOpen};
ghost use Rattle.flight_journal.specs.Journal.{after};
ghost use Rattle.flight_rows.specs.Rows.{Comes};
ghost use Rattle.flight_rows.specs.Serves.{Writes, HandMoves, Lands};
ghost use Rattle.flight_rows.specs.Sight.{hand_in};

use crate::row::{end_row, evict_row, land_row};
use crate::table::Flights;
use flight_journal::Entry;
use link_io::{Dial, Landed, keys_are_told_apart};
use std::sync::Arc;

impl<D: Dial, V: Landed> Flights<D, V> {
    /// The flight is lost: it came to nothing, for want of memory. It takes no memory and is never
    /// refused.
    pub fn lose(&mut self, query: u64, f: u64)
        requires open { IsOpen (after self.old.journal) query }
        requires held { hand_in self.old.hands f ≡ Some query }
        ensures writes { Writes (Lost query f ∷ []) self.old self.new }
        ensures hand { HandMoves f None self.old self.new }
    {
        keys_are_told_apart();
        end_row(&mut self.rows, &mut self.keys, f);
        self.owed -= 1;
        self.journal.write(Entry::Lost(query, f));
    }

    /// The flight lands: it came to this value, which is owed to each other query that waits in it. A
    /// value with a size is kept, as the most recently used, and the least recently used are evicted
    /// while the sizes exceed the budget. It takes no memory and is never refused.
    pub fn land(&mut self, query: u64, f: u64, value: Arc<V>)
        requires open { IsOpen (after self.old.journal) query }
        requires held { hand_in self.old.hands f ≡ Some query }
        requires comes { (t : Target) → Flies (after self.old.journal) f t →
            Comes V.key V.size V.number V.from (length self.old.start) self.old.origin f t
            (V.size value.value) value.value }
        ensures writes { Lands query f (V.size value.value) self.old self.new }
        ensures hand { HandMoves f None self.old self.new }
    {
        match size_of(&value) {
            Some(size) => self.land_kept(query, f, value, size),
            None => self.land_wreck(query, f, value),
        }
    }

    // The flight lands with a value that has no size, and is not kept.
    fn land_wreck(&mut self, query: u64, f: u64, value: Arc<V>)
        requires open { IsOpen (after self.old.journal) query }
        requires held { hand_in self.old.hands f ≡ Some query }
        requires comes { (t : Target) → Flies (after self.old.journal) f t →
            Comes V.key V.size V.number V.from (length self.old.start) self.old.origin f t
            None value.value }
        ensures writes { Lands query f None self.old self.new }
        ensures hand { HandMoves f None self.old self.new }
    {
        keys_are_told_apart();
        land_row(&mut self.rows, f, query, value);
        evict_row(&mut self.rows, &mut self.keys, f);
        self.owed -= 1;
        self.journal.write(Entry::Landed(query, f, None));
    }

    // The flight lands with a value that has a size, and is kept.
    fn land_kept(&mut self, query: u64, f: u64, value: Arc<V>, size: u64)
        requires open { IsOpen (after self.old.journal) query }
        requires held { hand_in self.old.hands f ≡ Some query }
        requires comes { (t : Target) → Flies (after self.old.journal) f t →
            Comes V.key V.size V.number V.from (length self.old.start) self.old.origin f t
            (Some size) value.value }
        ensures writes { Lands query f (Some size) self.old self.new }
        ensures hand { HandMoves f None self.old self.new }
    {
        keys_are_told_apart();
        self.recent.tell();
        land_row(&mut self.rows, f, query, value);
        self.recent.add(f, size);
        self.owed -= 1;
        self.journal.write(Entry::Landed(query, f, Some(size)));
        while self.recent.total() > u128::from(self.recent.budget()) {
            let Some(g) = self.recent.oldest() else {
                unreachable!()
            };
            self.recent.remove(g);
            evict_row(&mut self.rows, &mut self.keys, g);
            self.owed -= 1;
            self.journal.write(Entry::Evicted(g));
        }
    }
}

// How many bytes a value is kept with.
fn size_of<V: Landed>(value: &Arc<V>) -> Option<u64>
    ensures { result ≡ V.size value.now.value }
{
    value.size()
}
