//! The needs of a query: where each is fetched from, and what a fetched value makes of a plan.
//!
//! A query's plan holds its indexes and shards as verdicts of flights, which the queries of a table share
//! (`holders`). Contracts say what a need is fetched as (`specs/Targets`), what is so of a plan of such
//! holders (`specs/Known`), and what a value for a need comes to: the plan has it, or the need is asked
//! for again, or the query failed (`specs/Takes`). The layer above uses that needs of different keys
//! have different targets, and that what was given once stays (`specs/Fills`).
#![tactic(auto)]

mod holders;
mod taking;
mod targets;

pub use holders::{LeafHold, PinHold};
pub use taking::{Taken, take_in};
pub use targets::target_for;
