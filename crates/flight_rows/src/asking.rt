//! Asking for a key: a kept value, a flight that is joined, or one that begins.

ghost use Rattle.std.specs.Prelude.{◌≡◌, ◌≢◌, ◌++◌, ◌∷◌, [], ℕ, true, false, length, IfOk, OnOk, OnErr};
ghost use Rattle.shard_cache.specs.Recency.{is_listed};
ghost use Rattle.link_io.specs.Target.{IsPlain};
ghost use Rattle.link_io.specs.declared.target.Target.{Target};
ghost use Rattle.flight_journal.specs.declared.entry.Entry.TheVariants.{Joined, Began, Hit};
ghost use Rattle.flight_journal.specs.State.{WaitsIn, Flies, IsKept, IsOpen};
ghost use Rattle.flight_journal.specs.Journal.{after, IsFreeKey};
ghost use Rattle.flight_rows.specs.declared.asking.Found.TheVariants.{Flying, Kept};
ghost use Rattle.flight_rows.specs.Places.{FindsKey};
ghost use Rattle.flight_rows.specs.Rows.{Comes};
ghost use Rattle.flight_rows.specs.Serves.{Asks, HasKept, Writes, HandsStay};
ghost use Rattle.flight_rows.specs.Changes.{IsFirstRow};

use crate::row::{At, Row, add_both, copy_value, drop_both, push_query, put_at};
use crate::table::Flights;
use flight_journal::Entry;
use http_head::nothing_is_decided_before_the_first_byte;
use link_io::{Conn, Dial, Key, Landed, Parcel, Target, keys_are_told_apart};
use std::alloc::{AllocError, Global};
use std::sync::Arc;

/// What `ask` gives.
#[derive(Drop)]
pub enum Asked<V: Landed> {
    /// The key is kept: its flight, and a copy of the value.
    Kept(u64, Arc<V>),
    /// The key flies: the query waits in this flight from now on.
    Joined(u64),
    /// A flight for the key began, in which the query waits.
    Began(u64),
}

// What a key leads to.
#[derive(Clone, Copy)]
pub(crate) enum Found {
    // No flight that flies or is kept has it.
    Free,
    // This flight flies for it.
    Flying(u64),
    // This flight is kept for it.
    Kept(u64),
}

impl<D: Dial, V: Landed> Flights<D, V> {
    /// Asks for what a target names: a kept value, else a flight that the query waits in from then on,
    /// which is dialed where none flies for the key yet.
    ///
    /// `AllocError` where there is no memory for it or for what has to be written of it later, and
    /// where the dialer had none.
    pub fn ask(&mut self, query: u64, target: &Target) -> Result<Asked<V>, AllocError>
        requires open { IsOpen (after self.old.journal) query }
        requires plain { IsPlain target.now }
        requires apart { (f : ℕ) (t : Target) → WaitsIn (after self.old.journal) query f →
            Flies (after self.old.journal) f t → t.key ≢ target.now.key }
        ensures ok { IfOk result (Asks
            (Comes V.key V.size V.number V.from (length self.old.start) self.old.origin)
            query target.now self.old self.new) }
        ensures err { OnErr result (self.new ≡ self.old) }
    {
        match self.find(&target.key) {
            Found::Kept(f) => {
                let value = self.hit(query, f)?;
                Ok(Asked::Kept(f, value))
            }
            Found::Flying(f) => {
                self.join(query, f)?;
                Ok(Asked::Joined(f))
            }
            Found::Free => {
                let f = self.begin(query, target)?;
                Ok(Asked::Began(f))
            }
        }
    }

    // What the key leads to.
    pub(crate) fn find(&self, key: &Key) -> Found
        ensures { FindsKey key.now (after self.now.journal) result }
    {
        match self.keys.get(key) {
            Some(f) => self.found(key, *f),
            None => Found::Free,
        }
    }

    // A flight that a key leads to.
    fn found(&self, key: &Key, f: u64) -> Found
        requires { (is_listed f (after self.now.journal).kept ≡ true →
            FindsKey key.now (after self.now.journal) (Kept f))
            × (is_listed f (after self.now.journal).kept ≡ false →
            FindsKey key.now (after self.now.journal) (Flying f)) }
        ensures { FindsKey key.now (after self.now.journal) result }
    {
        if self.is_kept(f) {
            Found::Kept(f)
        } else {
            Found::Flying(f)
        }
    }

    // Whether a flight is kept.
    fn is_kept(&self, f: u64) -> bool
        ensures { result ≡ is_listed f (after self.now.journal).kept }
    {
        match self.rows.get(&f) {
            Some(row) => row.kept,
            None => false,
        }
    }

    // The value of a kept flight, which becomes the most recently used.
    fn hit(&mut self, query: u64, f: u64) -> Result<Arc<V>, AllocError>
        requires open { IsOpen (after self.old.journal) query }
        requires kept { (t : Target) × IsKept (after self.old.journal) f t }
        ensures ok { IfOk result (λ v. Writes (Hit query f ∷ []) self.old self.new
            × HandsStay self.old self.new
            × HasKept (Comes V.key V.size V.number V.from (length self.old.start) self.old.origin f)
            f self.old v.value) }
        ensures err { OnErr result (self.new ≡ self.old) }
    {
        self.journal.reserve(self.owed.saturating_add(1))?;
        let value = copy_value(&self.rows, f)?;
        self.recent.touch(f);
        self.journal.write(Entry::Hit(query, f));
        Ok(value)
    }

    // A query waits in a flight that flies already.
    fn join(&mut self, query: u64, f: u64) -> Result<(), AllocError>
        requires open { IsOpen (after self.old.journal) query }
        requires flies { (t : Target) × Flies (after self.old.journal) f t }
        requires apart { ¬ WaitsIn (after self.old.journal) query f }
        ensures ok { OnOk result (self.new ≡
            record self.old { journal = self.old.journal ++ Joined query f ∷ [] }) }
        ensures err { OnErr result (self.new ≡ self.old) }
    {
        self.journal.reserve(self.owed.saturating_add(2))?;
        push_query(&mut self.rows, f, query)?;
        self.owed += 1;
        self.journal.write(Entry::Joined(query, f));
        Ok(())
    }

    // A flight begins: its target is dialed.
    fn begin(&mut self, query: u64, target: &Target) -> Result<u64, AllocError>
        requires open { IsOpen (after self.old.journal) query }
        requires free { IsFreeKey (after self.old.journal) target.now.key }
        requires plain { IsPlain target.now }
        ensures ok { IfOk result (λ f. Writes (Began query f target.now ∷ []) self.old self.new
            × HandsStay self.old self.new × (f ≡ length (after self.old.journal).flights)) }
        ensures err { OnErr result (self.new ≡ self.old) }
    {
        keys_are_told_apart();
        nothing_is_decided_before_the_first_byte();
        self.journal.reserve(self.owed.saturating_add(3))?;
        let f = self.begun;
        let made = prepare(self.alloc, query, target)?;
        self.recent.reserve_row()?;
        add_both(&mut self.rows, &mut self.keys, f, made.row, made.key)?;
        match self.dial.dial(self.alloc, target) {
            Ok(link) => {
                let parcel = Parcel::new(self.alloc, made.carried, link);
                put_at(&mut self.rows, f, At::Here(parcel));
            }
            Err(error) => {
                drop_both(&mut self.rows, &mut self.keys, f, &target.key);
                return Err(error);
            }
        }
        self.begun += 1;
        self.owed += 2;
        self.journal.write(Entry::Began(query, f, made.noted));
        Ok(f)
    }
}

// What a flight that begins is made of: a row, its key, and its target for the journal and the parcel.
#[derive(Drop)]
struct Prepared<L: Conn, V: Landed> {
    row: Row<L, V>,
    key: Key,
    noted: Target,
    carried: Target,
}

// What a flight for a target is made of, which a query begins.
fn prepare<L: Conn, V: Landed>(
    alloc: Global,
    query: u64,
    target: &Target,
) -> Result<Prepared<L, V>, AllocError>
    ensures row { IfOk result (λ made. IsFirstRow query target.now made.row) }
    ensures key { IfOk result (λ made. made.key ≡ target.now.key) }
    ensures noted { IfOk result (λ made. made.noted ≡ target.now) }
    ensures carried { IfOk result (λ made. made.carried ≡ target.now) }
{
    Ok(Prepared {
        row: Row::new(alloc, query, target)?,
        key: target.key.copy(alloc)?,
        noted: target.copy(alloc)?,
        carried: target.copy(alloc)?,
    })
}
