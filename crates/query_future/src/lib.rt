//! Queries of a table of flights, as futures that are polled by hand.
//!
//! A `Query` has a plan, a pass of its table and a window of at most eight needs that it asked for. One
//! section at a time is due (`specs/Dues`); each is one turn under the table's lock, or one call on a
//! connection that the query has taken out of the table. Contracts see a query as `Queried`
//! (`specs/Queries`), and its type keeps what its pass, window, plan and ending say of each other
//! (`specs/Stands`), whatever other queries do to the table between two sections. The layers above use:
//! what a section carries over of the table (`Carries`), and that an outcome is honest or fair.
#![tactic(auto)]

mod asking;
mod deciding;
mod driving;
mod parts;
mod query;
mod taking;
mod track;
mod turning;

pub use parts::{Did, Due, Finished, Hand, Outcome, Pair, Unended, Work};
pub use query::Query;
