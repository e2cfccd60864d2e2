//! A world of places, and what may happen to it.

use closure_request::{Channel, Request};
use fetch_flight::Verdict;
use flight_table::{Door, Pass, Table};
use link_io::Dial;
use mp_codec::Text;
use pass_book::Naming;
use query_future::{Finished, Query};

/// Where a request stands.
#[derive(Drop)]
pub enum Place<N: Naming, D: Dial> {
    /// It has not entered the table yet.
    Unopened(Request),
    /// Its query runs.
    Running(Query<N, D>),
    /// Its query ended, and this is its closed pass; with none, the table had no memory for it.
    Done(Option<Pass<N>>, Finished<D::Link>),
    /// Its query was cancelled.
    Cancelled,
}

/// A table with a place for each request of a list.
#[derive(Drop)]
pub struct World<N: Naming, D: Dial> {
    /// The table.
    pub table: Table<N, D, Verdict<D::Link>>,
    /// Its one door.
    pub door: Door<N>,
    /// The channels of the first request.
    pub channels: Vec<Channel>,
    /// Its subdirs.
    pub subdirs: Vec<Text>,
    /// The places, in the order of the requests.
    pub places: Vec<Place<N, D>>,
}

/// What happens next. Requests, channels and subdirs are counted from 0.
#[derive(Clone, Copy, Debug, PartialEq, Eq)]
pub enum Event {
    /// The request enters the table.
    Opened(usize),
    /// Its query does the section that is due.
    Turn(usize),
    /// Its query is given up.
    Cancel(usize),
    /// The kept index of a channel and a subdir of the first request is given up.
    Refresh(usize, usize),
}

/// Why a list of events did not run to its end.
#[derive(Drop)]
pub enum ScheduleRefusal<N: Naming, D: Dial> {
    /// The event of this number, counted from 0, may not happen in this world, which is the one before it.
    NotEnabled(usize, World<N, D>),
    /// There was no memory before the first event. The dialer is as it was.
    Memory(D),
}
