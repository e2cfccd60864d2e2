//! `Journal`, the entries in the order in which they were written.

ghost use Rattle.std.specs.Prelude.{◌≡◌, ◌<◌, ◌≤◌, ◌+◌, ◌^◌, ◌++◌, ◌∷◌, [], length, slice_get, OnOk, OnErr};
ghost use Rattle.std.specs.Option.{option_copied};

use crate::entry::Entry;
use std::alloc::{AllocError, Global};
use std::marker::Model;

/// Entries in the order in which they were written.
#[derive(Drop)]
pub struct Journal {
    entries: Vec<Entry>,
}

impl Model for Journal {
    ghost use Rattle.std.specs.Prelude.{vec_capacity};
    ghost use Rattle.flight_journal.specs.Written.{Written};

    ghost Value = { Written };

    ghost view = { λ journal. record { entries = journal.entries.items; room = vec_capacity journal.entries } };
}

impl Journal {
    /// No entry. It takes no memory.
    pub fn new(alloc: Global) -> Journal
        ensures { result.entries ≡ [] }
    {
        Journal {
            entries: Vec::new(alloc),
        }
    }

    /// How many entries were written.
    pub fn len(&self) -> usize
        ensures { result ≡ length self.now.entries }
    {
        self.entries.len()
    }

    /// The entry at a place, counted from 0. None exactly where the place is not below `len`.
    pub fn get(&self, place: usize) -> Option<&Entry>
        ensures { option_copied result ≡ slice_get self.now.entries place }
    {
        self.entries.get(place)
    }

    /// Takes the memory for so many entries more.
    ///
    /// `AllocError` where there is none.
    pub fn reserve(&mut self, more: usize) -> Result<(), AllocError>
        ensures entries { self.new.entries ≡ self.old.entries }
        ensures ok { OnOk result (length self.new.entries + more ≤ self.new.room) }
        ensures kept { self.old.room ≤ self.new.room }
        ensures bound { OnOk result (self.new.room < 2 ^ 63) }
    {
        self.entries.reserve(more)
    }

    /// Writes an entry behind all others. It takes no memory.
    pub fn write(&mut self, entry: Entry)
        requires { length self.old.entries < self.old.room }
        ensures entries { self.new.entries ≡ self.old.entries ++ entry ∷ [] }
        ensures room { self.new.room ≡ self.old.room }
    {
        self.entries.push_reserved(entry);
    }
}
