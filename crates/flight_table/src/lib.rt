//! Passes and doors: what a query knows of a table of flights from one call to the next.
//!
//! A `Table` is the flights of `flight_rows` with a book that has one line for each token. A pass says
//! facts of its query (`specs/Facts`), and `specs/Knows` says when they are so of a journal,
//! `specs/Tells` of a table; a door says facts of all queries (`specs/Doors`). The type of the table
//! keeps that all lines are so. One law carries them: entries that name another query, or none, leave
//! all that a pass says as it was (`what_a_pass_says_stays`, `what_a_pass_tells_stays`). The layer above
//! uses: each call says what its pass says behind it, and `Follows` (`specs/Follows`).
#![tactic(auto)]

mod closing;
mod entered;
mod laws;
mod passing;
mod saying;
mod table;
mod token;

pub use closing::Closing;
pub use laws::{
    a_new_pass_is_told, a_pass_that_awaits_is_told, a_pass_that_hit_is_told,
    a_pass_that_left_is_told, a_pass_that_parts_is_told, a_worked_table_is_told,
    what_a_pass_says_stays, what_a_pass_tells_stays,
};
pub use table::Table;
pub use token::{Door, Pass, Saying};
