//! Giving up a kept index, so that a fresh one is fetched.

ghost use Rattle.std.specs.Prelude.{◌∷◌, [], ℕ, List};
ghost use Rattle.link_io.specs.declared.target.Key.TheVariants.{Index};
ghost use Rattle.flight_journal.specs.declared.entry.Entry.TheVariants.{Refreshed};
ghost use Rattle.flight_rows.specs.Serves.{Writes, HandsStay, IsKeptFor, Refreshes};

use crate::asking::Found;
use crate::row::evict_row;
use crate::table::Flights;
use flight_journal::Entry;
use link_io::{Dial, HttpUrl, Key, Landed, keys_are_told_apart};

impl<D: Dial, V: Landed> Flights<D, V> {
    /// Gives up the kept index of an address, and says whether one was kept. Its value is still owed to
    /// those that it was owed to. It takes no memory and is never refused.
    pub fn refresh(&mut self, url: HttpUrl) -> bool
        ensures { Refreshes url self.old self.new result }
    {
        self.tell();
        let key = Key::Index(url);
        match self.find(&key) {
            Found::Kept(f) => {
                self.give_up(f);
                true
            }
            Found::Flying(_) => false,
            Found::Free => false,
        }
    }

    // A kept index is kept no more.
    fn give_up(&mut self, f: u64)
        requires kept { (url : List ℕ) × IsKeptFor f (Index url) self.old }
        ensures writes { Writes (Refreshed f ∷ []) self.old self.new }
        ensures hands { HandsStay self.old self.new }
    {
        keys_are_told_apart();
        self.recent.remove(f);
        evict_row(&mut self.rows, &mut self.keys, f);
        self.owed -= 1;
        self.journal.write(Entry::Refreshed(f));
    }
}
