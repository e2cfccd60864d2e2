//! The core: a table, queries and events on one thread.
//!
//! A `World` has a table, its one door, and a place for each request. `apply` does one event, and
//! `run_schedule` a list of them from a world without queries. What is so of a world behind each event is
//! `IsSound` (`specs/Sound`): what passes say is true of the table, each open query runs at one place,
//! and what a place came to is honest or fair.
#![tactic(auto)]

mod applying;
mod scheduling;
mod turning;
mod world;

pub use applying::apply;
pub use scheduling::run_schedule;
pub use world::{Event, Place, ScheduleRefusal, World};
