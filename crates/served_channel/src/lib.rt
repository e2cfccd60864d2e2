//! What was indexed comes back: the files that an indexing puts into a store are those that a
//! server gives, each is the body of its reply, and together they say the records of the file.
//!
//! This crate has laws alone; `specs/Back.antt` says what they mean.
#![tactic(auto)]

mod laws;

pub use laws::what_was_indexed_comes_back;

#[cfg(test)]
mod tests;
