//! Tokens that know something for good: a book of lines, and slips that each have one line.
//!
//! Contracts see a `Book` as its lines by number and a `Slip` as its number and line
//! (`specs/Lines.antt`). A slip's line is the book's line under its number, whatever was done with other
//! slips in the meantime; `agree` tells it.
//! The layer above uses: a line is plain data that contracts alone see, so a token carries what its
//! owner knows of the table behind the lock. Only `Unnamed::new` takes memory.
//! The rule stands on `atomic_table` with one word, whose number nobody reads.
#![tactic(auto)]

mod book;
mod naming;
mod rule;
mod slip;
#[cfg(test)]
mod tests;
mod unnamed;

pub use book::Book;
pub use naming::{Line, Naming, NewLine};
pub use slip::Slip;
pub use unnamed::Unnamed;
