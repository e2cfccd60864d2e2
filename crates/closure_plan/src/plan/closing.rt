//! Leaving out names of which no shard is owed any more.

ghost use Rattle.std.specs.Prelude.{◌≡◌};

use crate::holders::{LeafHolder, PinHolder};
use crate::plan::Plan;
use crate::plan::order::search;

impl<P: PinHolder, H: LeafHolder> Plan<P, H> {
    // Leaves out each name of which no shard is owed.
    pub(crate) fn close_all(&mut self)
        ensures { self.new ≡ self.old }
    {
        let count = self.owing.len();
        for i in 0..count {
            self.close_at(count - 1 - i);
        }
    }

    // Leaves out the name of a number, where none is owed.
    pub(crate) fn close(&mut self, n: usize)
        ensures { self.new ≡ self.old }
    {
        if let Ok(i) = search(&self.names, &self.owing, self.name_or_empty(n).as_bytes()) {
            self.close_at(i);
        }
    }

    // Leaves out the name at a place, where none is owed.
    fn close_at(&mut self, i: usize)
        ensures { self.new ≡ self.old }
    {
        if i < self.owing.len() {
            let n = self.owing[i];
            if self.has_each(n) {
                self.owing.remove(i);
            }
        }
    }
}
