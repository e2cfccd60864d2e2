//! What the table holds of a flight, and each way in which a row changes.

ghost use Rattle.std.specs.Prelude.{◌≡◌, ◌++◌, ◌∷◌, [], OnOk, OnErr, IsSome, Some, None};
ghost use Rattle.std.specs.Ordering.{nat_cmp};
ghost use Rattle.std.specs.BTreeMap.{get};
ghost use Rattle.std.specs.Prelude.{IfOk, IsTrue, true, false, ℕ, ◌<◌, ◌≤◌, ◌≢◌};
ghost use Rattle.std.specs.Map.{remove_entry};
ghost use Rattle.std.specs.BTreeMap.{insert_entry, is_at, Updates};
ghost use Rattle.flight_journal.specs.State.{is_one_of, all_but};
ghost use Rattle.flight_rows.specs.Places.{IsPlace};
ghost use Rattle.flight_rows.specs.Changes.{IsFirstRow, Changes, Evicts, HasCome, IsValueAt, IsSpent, IsLone, Parts, Takes};
ghost use Rattle.std.specs.List.Sorted.{IsStrictlyIncreasing};
ghost use Rattle.std.specs.Prelude.{length, slice_index};

use link_io::{Conn, Key, Landed, Parcel, Target};
use std::alloc::{AllocError, Global};
use std::collections::BTreeMap;
use std::mem;
use std::sync::Arc;

// Where a flight's parcel or value is.
#[derive(Drop)]
pub(crate) enum At<L: Conn, V: Landed> {
    // The parcel stands here.
    Here(Parcel<L>),
    // The query has the parcel in hand.
    Away(u64),
    // The flight has landed.
    Came(Arc<V>),
}

// A flight that flies, is kept or is owed to somebody.
#[derive(Drop)]
pub(crate) struct Row<L: Conn, V: Landed> {
    pub(crate) target: Target,
    pub(crate) queries: Vec<u64>,
    pub(crate) at: At<L, V>,
    pub(crate) kept: bool,
}

// One query more awaits the flight.
pub(crate) fn push_query<L: Conn, V: Landed>(
    rows: &mut BTreeMap<u64, Row<L, V>>,
    f: u64,
    query: u64,
) -> Result<(), AllocError>
    requires { IsSome (get nat_cmp rows.old f) }
    ensures ok { OnOk result (Changes f (λ r s. (s.target ≡ r.target)
        × (s.queries.items ≡ r.queries.items ++ query ∷ []) × (s.at ≡ r.at) × (s.kept ≡ r.kept))
        rows.old rows.new) }
    ensures err { OnErr result (Changes f (λ r s. (s.target ≡ r.target)
        × (s.queries.items ≡ r.queries.items) × (s.at ≡ r.at) × (s.kept ≡ r.kept))
        rows.old rows.new) }
{
    let Some(row) = rows.get_mut(&f) else {
        unreachable!()
    };
    row.queries.push(query)?;
    Ok(())
}

// The query takes the parcel, if it stands here.
pub(crate) fn take_parcel<L: Conn, V: Landed>(
    rows: &mut BTreeMap<u64, Row<L, V>>,
    f: u64,
    query: u64,
) -> Option<Parcel<L>>
    requires { IsSome (get nat_cmp rows.old f) }
    ensures { Changes f (λ r s. (s.target ≡ r.target) × (s.queries ≡ r.queries)
        × (s.kept ≡ r.kept) × Takes query r.at s.at result)
        rows.old rows.new }
{
    let Some(row) = rows.get_mut(&f) else {
        unreachable!()
    };
    row.at.take(query)
}

impl<L: Conn, V: Landed> At<L, V> {
    // The query takes the parcel, if it stands here.
    fn take(&mut self, query: u64) -> Option<Parcel<L>>
        ensures { Takes query self.old self.new result }
    {
        if !matches!(self, At::Here(_)) {
            return None;
        }
        match mem::replace(self, At::Away(query)) {
            At::Here(parcel) => Some(parcel),
            _ => unreachable!(),
        }
    }
}

// A parcel or a value goes to its flight.
pub(crate) fn put_at<L: Conn, V: Landed>(rows: &mut BTreeMap<u64, Row<L, V>>, f: u64, at: At<L, V>)
    requires { IsSome (get nat_cmp rows.old f) }
    ensures { Changes f (λ r s. s ≡ record r { at = at }) rows.old rows.new }
{
    let Some(row) = rows.get_mut(&f) else {
        unreachable!()
    };
    row.at = at;
}

// A row and its key, or neither.
pub(crate) fn add_both<L: Conn, V: Landed>(
    rows: &mut BTreeMap<u64, Row<L, V>>,
    keys: &mut BTreeMap<Key, u64>,
    f: u64,
    row: Row<L, V>,
    key: Key,
) -> Result<(), AllocError>
    requires row { get nat_cmp rows.old f ≡ None }
    ensures rows { OnOk result (rows.new.entries ≡ insert_entry nat_cmp rows.old.entries f row) }
    ensures keys { OnOk result (keys.new.entries ≡
        insert_entry ⟦<Key as Ord>⟧.cmp keys.old.entries key f) }
    ensures rows_at { OnOk result (Updates nat_cmp rows.old rows.new f (Some row)) }
    ensures keys_at { OnOk result (Updates ⟦<Key as Ord>⟧.cmp keys.old keys.new key (Some f)) }
    ensures rows_stay { OnErr result (rows.new.entries ≡ rows.old.entries) }
    ensures keys_stay { OnErr result (keys.new.entries ≡ keys.old.entries) }
{
    rows.insert(f, row)?;
    if let Err(failed) = keys.insert(key, f) {
        rows.remove(&f);
        return Err(failed.into());
    }
    Ok(())
}

// The row of a flight goes, and its key.
pub(crate) fn drop_both<L: Conn, V: Landed>(
    rows: &mut BTreeMap<u64, Row<L, V>>,
    keys: &mut BTreeMap<Key, u64>,
    f: u64,
    key: &Key,
)
    ensures rows { rows.new.entries ≡ remove_entry (is_at (nat_cmp f)) rows.old.entries }
    ensures keys { keys.new.entries ≡
        remove_entry (is_at (⟦<Key as Ord>⟧.cmp key.now)) keys.old.entries }
{
    rows.remove(&f);
    keys.remove(key);
}

impl<L: Conn, V: Landed> Row<L, V> {
    // The row of a flight that the query begins. Its parcel is still to be put in.
    pub(crate) fn new(alloc: Global, query: u64, target: &Target) -> Result<Row<L, V>, AllocError>
        ensures { IfOk result (IsFirstRow query target.now) }
    {
        let mut queries = Vec::new(alloc);
        queries.push(query)?;
        Ok(Row {
            target: target.copy(alloc)?,
            queries,
            at: At::Away(query),
            kept: false,
        })
    }
}

// Where a query finds a flight.
#[derive(Clone, Copy)]
pub(crate) enum Place {
    // Neither does it wait there, nor is the value owed to it.
    Stranger,
    // It waits there, and another query has the parcel.
    Waits,
    // It waits there, and the parcel stands in the table.
    Ready,
    // The value is owed to it.
    Owed,
}

impl<L: Conn, V: Landed> Row<L, V> {
    // Where the query finds the flight.
    pub(crate) fn place(&self, query: u64) -> Place
        ensures { IsPlace query self.now result }
    {
        if is_among(query, &self.queries) {
            match self.at {
                At::Here(_) => Place::Ready,
                At::Away(_) => Place::Waits,
                At::Came(_) => Place::Owed,
            }
        } else {
            Place::Stranger
        }
    }
}

// Whether the query is one of these.
fn is_among(query: u64, queries: &[u64]) -> bool
    ensures { result ≡ is_one_of query queries.now }
{
    queries.iter().any(|other| *other == query)
}

// The row of a flight goes, and its key with it.
pub(crate) fn end_row<L: Conn, V: Landed>(
    rows: &mut BTreeMap<u64, Row<L, V>>,
    keys: &mut BTreeMap<Key, u64>,
    f: u64,
)
    requires { IsSome (get nat_cmp rows.old f) }
    ensures { (r : _) × (get nat_cmp rows.old f ≡ Some r)
        × Updates nat_cmp rows.old rows.new f None
        × Updates ⟦<Key as Ord>⟧.cmp keys.old keys.new r.target.key None }
{
    let Some(row) = rows.remove(&f) else {
        unreachable!()
    };
    keys.remove(&row.target.key);
}

// A flight is kept no more: its key is free, and its row goes where its value is owed to nobody.
pub(crate) fn evict_row<L: Conn, V: Landed>(
    rows: &mut BTreeMap<u64, Row<L, V>>,
    keys: &mut BTreeMap<Key, u64>,
    f: u64,
)
    requires { IsSome (get nat_cmp rows.old f) }
    ensures { Evicts f rows.old rows.new
        × ((r : _) × (get nat_cmp rows.old f ≡ Some r)
        × Updates ⟦<Key as Ord>⟧.cmp keys.old keys.new r.target.key None) }
{
    let Some(row) = rows.get_mut(&f) else {
        unreachable!()
    };
    keys.remove(&row.target.key);
    row.kept = false;
    if row.queries.is_empty() {
        rows.remove(&f);
    }
}
// The flight has landed: the value is owed to the other queries, and kept.
pub(crate) fn land_row<L: Conn, V: Landed>(
    rows: &mut BTreeMap<u64, Row<L, V>>,
    f: u64,
    query: u64,
    value: Arc<V>,
)
    requires { IsSome (get nat_cmp rows.old f) }
    ensures { Changes f (λ r s. (s.target ≡ r.target)
        × (s.queries.items ≡ all_but query r.queries.items)
        × (s.at ≡ At.Came value) × (s.kept ≡ true))
        rows.old rows.new }
{
    let Some(row) = rows.get_mut(&f) else {
        unreachable!()
    };
    part_from(&mut row.queries, query);
    row.at = At::Came(value);
    row.kept = true;
}

// The other queries alone.
fn part_from(queries: &mut Vec<u64>, query: u64)
    ensures { queries.new.items ≡ all_but query queries.old.items }
{
    queries.retain(|other| *other != query);
}

// The query awaits the flight no more; a row that then nobody needs goes.
pub(crate) fn part_row<L: Conn, V: Landed>(rows: &mut BTreeMap<u64, Row<L, V>>, f: u64, query: u64)
    ensures here { Parts query (get nat_cmp rows.old f) (get nat_cmp rows.new f) }
    ensures others { (g : ℕ) → g ≢ f → get nat_cmp rows.new g ≡ get nat_cmp rows.old g }
{
    let Some(row) = rows.get_mut(&f) else {
        return;
    };
    part_from(&mut row.queries, query);
    if row.is_spent() {
        rows.remove(&f);
    }
}

impl<L: Conn, V: Landed> Row<L, V> {
    // Whether nobody needs the row: the flight has landed, and is owed to nobody and not kept.
    fn is_spent(&self) -> bool
        ensures { IsTrue result → IsSpent self.now }
    {
        match self.at {
            At::Came(_) => self.queries.is_empty() && !self.kept,
            _ => false,
        }
    }
}

// The query awaits none of these flights any more.
pub(crate) fn part_each<L: Conn, V: Landed>(
    rows: &mut BTreeMap<u64, Row<L, V>>,
    flights: &[u64],
    query: u64,
)
    requires rising { IsStrictlyIncreasing flights.now }
    ensures parted { (n : ℕ) → n < length flights.now →
        Parts query (get nat_cmp rows.old (slice_index flights.now n))
        (get nat_cmp rows.new (slice_index flights.now n)) }
    ensures others { (g : ℕ) → ((n : ℕ) → n < length flights.now → slice_index flights.now n ≢ g) →
        get nat_cmp rows.new g ≡ get nat_cmp rows.old g }
{
    for i in 0..flights.len() {
        part_row(rows, flights[i], query);
    }
}

// Whether a flight's parcel stands in its row, and nobody awaits it.
pub(crate) fn is_alone<L: Conn, V: Landed>(rows: &BTreeMap<u64, Row<L, V>>, f: u64) -> bool
    ensures yes { IsTrue result → (r : _) × (get nat_cmp rows.now f ≡ Some r) × IsLone r }
    ensures no { (r : _) → get nat_cmp rows.now f ≡ Some r → IsLone r → IsTrue result }
{
    match rows.get(&f) {
        Some(row) => row.is_lone(),
        None => false,
    }
}

impl<L: Conn, V: Landed> Row<L, V> {
    // Whether the parcel stands here, and nobody awaits it.
    fn is_lone(&self) -> bool
        ensures yes { IsTrue result → IsLone self.now }
        ensures no { IsLone self.now → IsTrue result }
    {
        match self.at {
            At::Here(_) => self.queries.is_empty(),
            _ => false,
        }
    }
}

// A copy of the value that the flight came to.
pub(crate) fn copy_value<L: Conn, V: Landed>(
    rows: &BTreeMap<u64, Row<L, V>>,
    f: u64,
) -> Result<Arc<V>, AllocError>
    requires { HasCome f rows.now }
    ensures { IfOk result (λ v. IsValueAt f rows.now v.value) }
{
    let Some(row) = rows.get(&f) else {
        unreachable!()
    };
    match &row.at {
        At::Came(value) => Arc::try_clone(value),
        _ => unreachable!(),
    }
}
