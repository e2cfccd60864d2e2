//! `Recency`, the rows in order of use, and its calls.

ghost use Rattle.std.specs.Prelude.{◌≡◌, ◌+◌, ◌<◌, ◌≤◌, ◌∷◌, ◌++◌, [], true, false, length, IfSome, OnOk, OnErr};
ghost use Rattle.shard_cache.specs.Recency.{listing, is_listed, without, only, total_of, oldest_of, AreListedOnce, AreBelow};

use crate::links::Links;
use std::alloc::{AllocError, Global};
use std::marker::Model;

/// Rows with their sizes, the most recently used first, and a budget for the sizes together.
///
/// A row is a number below `rows`. Each call changes a fixed number of places, whatever is listed.
#[derive(Drop)]
pub struct Recency {
    links: Links,
    listed: u64,
    total: u128,
    budget: u64,
}

impl Model for Recency {
    ghost use Rattle.std.specs.Prelude.{vec_len};
    ghost use Rattle.shard_cache.specs.Recency.{Listing, listing, listing_code};

    ghost Value = { Listing };

    ghost coded = { listing_code };

    ghost use Rattle.shard_cache.specs.Linked.{order_of, IsCounted};

    ghost view = { λ r. listing (order_of r.links) (vec_len r.links.nodes) r.budget };

    ghost invariant = { λ r. IsCounted r.links r.listed r.total };
}

impl Recency {
    /// No rows, with this budget. It takes no memory.
    pub fn new(alloc: Global, budget: u64) -> Recency
        ensures { result ≡ listing [] 0 budget }
    {
        Recency {
            links: Links::new(alloc),
            listed: 0,
            total: 0,
            budget,
        }
    }

    /// Takes the memory of one row more, the next number. No other call takes memory.
    ///
    /// `AllocError` where there is none.
    pub fn reserve_row(&mut self) -> Result<(), AllocError>
        ensures ok { OnOk result (self.new ≡ record self.old { rows = self.old.rows + 1 }) }
        ensures err { OnErr result (self.new ≡ self.old) }
    {
        self.links.grow()
    }

    /// Lists a row with its size, as the most recently used.
    pub fn add(&mut self, row: u64, size: u64)
        requires unlisted { is_listed row self.old.order ≡ false }
        requires below { row < self.old.rows }
        requires spare { length self.old.order < self.old.rows }
        ensures { self.new ≡ record self.old { order = (row, size) ∷ self.old.order } }
    {
        self.links.put_first(row, size);
        self.listed += 1;
        self.total += size as u128;
    }

    /// Makes a listed row the most recently used.
    pub fn touch(&mut self, row: u64)
        requires { is_listed row self.old.order ≡ true }
        ensures { self.new ≡ record self.old {
          order = only row self.old.order ++ without row self.old.order;
        } }
    {
        let same_size = self.links.unlink(row);
        self.links.put_first(row, same_size);
    }

    /// Takes a row out of the list.
    pub fn remove(&mut self, row: u64)
        requires { is_listed row self.old.order ≡ true }
        ensures { self.new ≡ record self.old { order = without row self.old.order } }
    {
        let size = self.links.unlink(row);
        self.listed -= 1;
        self.total -= size as u128;
    }

    /// The least recently used row, or None where none is listed.
    pub fn oldest(&self) -> Option<u64>
        ensures oldest { result ≡ oldest_of self.now.order }
        ensures listed { IfSome result (λ row. is_listed row self.now.order ≡ true) }
    {
        self.links.oldest
    }

    /// The sizes of the listed rows together.
    pub fn total(&self) -> u128
        ensures { result ≡ total_of self.now.order }
    {
        self.total
    }

    /// How many rows have memory and aren't listed.
    pub fn spare(&self) -> u64
        ensures { result + length self.now.order ≡ self.now.rows }
    {
        self.rows() - self.listed
    }

    /// How many rows have memory: the calls of `reserve_row` that were answered Ok.
    pub fn rows(&self) -> u64
        ensures { result ≡ self.now.rows }
    {
        self.links.nodes.len() as u64
    }

    /// The budget that was given.
    pub fn budget(&self) -> u64
        ensures { result ≡ self.now.budget }
    {
        self.budget
    }

    /// Tells what is so of every list, and does nothing.
    pub fn tell(&self)
        ensures once { AreListedOnce self.now.order }
        ensures below { AreBelow self.now.rows self.now.order }
        ensures room { length self.now.order ≤ self.now.rows }
    {
        let _ = &self.links;
    }
}
