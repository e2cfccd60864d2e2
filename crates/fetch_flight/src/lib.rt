//! One fetch: its calls on a connection, and what it comes to.
//!
//! Contracts see a call by `specs/Advance`, which says what became of the parcel; and what a parcel
//! comes to as a relation between the parcel and its verdict (`specs/Verdict`): the index or the shard
//! that its body spells, or a wreck with its one cause (`specs/Cause`). A parcel has one verdict
//! (`a_parcel_comes_to_one_verdict`).
#![tactic(auto)]

mod causes;
mod flying;
mod judging;
mod laws;
mod verdicts;

pub use causes::{Cause, Malformed};
pub use flying::{Progress, STEP_ROOM, advance};
pub use judging::judge;
pub use laws::{a_parcel_comes_to_one_verdict, a_served_parcel_has_the_body};
pub use verdicts::{HeldShard, PinnedIndex, Verdict, Wreck};

#[cfg(test)]
mod tests;
