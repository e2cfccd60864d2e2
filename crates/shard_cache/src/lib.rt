//! The rows of a cache with their sizes, in order of use.
//!
//! Contracts see a `Recency` as its list of rows and sizes, the most recently used first, with the
//! number of rows that it has memory for and its budget (`specs/Recency.antt`).
//! The layer above uses: each call is an operation on that list, and changes a fixed number of places
//! in one vector. Only `reserve_row` takes memory, so a row that was reserved is always listed.
#![tactic(auto)]

mod links;
mod recency;
#[cfg(test)]
mod tests;

pub use recency::Recency;
