//! The closure of a request: the records that it can reach, in whatever order indexes and shards
//! arrive (docs/FORMATS.md, "Closures").
//!
//! Contracts see a `Plan` as a `Planned`: what is known and what is marked (`specs/Plan`). The layer
//! above uses: the need to ask for next (`specs/Needs`), what a pin and a shard change
//! (`specs/Giving`), that names are those that are reached (`IsReached`), and that the rows of an
//! answer are the closure over what was given (`specs/Closure`).
#![tactic(auto)]

mod answer;
mod holders;
mod laws;
mod listing;
mod need;
mod plan;
mod roots;
mod sources;

pub use answer::{Answer, AnswerRow, Part};
pub use holders::{LeafHolder, PinHolder};
pub use laws::{
    closure_is_what_is_given, more_only_adds, needs_are_once, one_need_is_filled,
    order_changes_nothing, rounds_end, the_end_is_done, the_next_can_be_marked,
};
pub use need::Need;
pub use plan::Plan;
