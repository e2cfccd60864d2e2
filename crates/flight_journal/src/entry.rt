//! What happened at a table of flights.

use link_io::Target;

/// What happened at a table of flights. Queries and flights have numbers, each counted from 0.
#[derive(Debug, PartialEq, Eq, Drop)]
pub enum Entry {
    /// The query opened. (query)
    Opened(u64),
    /// The query began a flight: its target was dialed. (query, flight, target)
    Began(u64, u64, Target),
    /// The query waits in a flight that flies already. (query, flight)
    Joined(u64, u64),
    /// The query took the value of a kept flight, which became the most recently used. (query, flight)
    Hit(u64, u64),
    /// The query took the value that a flight owed it. (query, flight)
    Taken(u64, u64),
    /// The query landed a flight with a value. One with a size is kept, one without is not.
    /// (query, flight, size in bytes)
    Landed(u64, u64, Option<u64>),
    /// The query lost a flight: it ended without a value. (query, flight)
    Lost(u64, u64),
    /// The query was cancelled. (query)
    Cancelled(u64),
    /// The query closed. (query)
    Closed(u64),
    /// A flight is kept no more, since the kept sizes exceeded the budget. (flight)
    Evicted(u64),
    /// A flight of an index is kept no more, since a fresh one is wanted. (flight)
    Refreshed(u64),
    /// A flight ended, since nobody waits in it any more. (flight)
    Abandoned(u64),
}
