//! What a query has beside its work and what is in hand.

use crate::parts::Pair;
use closure_plan::Need;
use flight_table::Pass;
use pass_book::Naming;

/// The most pairs of a window.
pub(crate) const MOST_OF_WINDOW: usize = 8;

// The pass, the window with its cursor, what was asked for in order, and how often a need was asked for
// again.
#[derive(Drop)]
pub(crate) struct Track<N: Naming> {
    pub(crate) pass: Pass<N>,
    pub(crate) window: Vec<Pair>,
    pub(crate) cursor: usize,
    pub(crate) asked: Vec<Need>,
    pub(crate) again: u64,
}
