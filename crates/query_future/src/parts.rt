//! The parts of a query.

ghost use Rattle.std.specs.Prelude.{◌≡◌, ◌<◌};
ghost use Rattle.query_future.specs.Dues.{place_of};

use closure_plan::{Answer, Need, Part, Plan};
use fetch_flight::Verdict;
use link_io::{Conn, Parcel, Target};
use query_needs::{LeafHold, PinHold};
use std::marker::Model;
use std::sync::Arc;

/// A need that was asked for, the flight that brings its value, and the need's own target.
#[derive(Drop)]
pub struct Pair {
    /// The need.
    pub need: Need,
    /// The flight.
    pub flight: u64,
    /// The need's target.
    pub target: Target,
}

/// What a query has in hand between two sections.
#[derive(Drop)]
pub enum Hand<L: Conn> {
    /// Nothing.
    Empty,
    /// A parcel that was taken.
    Fresh(Parcel<L>),
    /// A parcel on whose connection a call was made, which decided nothing.
    Stepped(Parcel<L>),
    /// What a parcel came to, for the table and for the query.
    Judged(Arc<Verdict<L>>, Arc<Verdict<L>>),
    /// There was no memory for what a parcel came to.
    Refused,
}

/// What a query works on: its plan, or the ending that was decided.
#[derive(Drop)]
pub enum Work<L: Conn> {
    /// No ending is decided.
    Going(Plan<PinHold<L>, LeafHold<L>>),
    /// The query failed: what was given until then, the need, and its wreck.
    Failing(Part<PinHold<L>, LeafHold<L>>, Need, Arc<Verdict<L>>),
    /// Each need was given.
    Answering(Answer<PinHold<L>, LeafHold<L>>),
    /// Memory ran out.
    Memory,
}

/// The section that is due.
#[derive(Clone, Copy, Debug, PartialEq, Eq)]
pub enum Due {
    /// The next need is asked for.
    Ask,
    /// What there is of the flight at the cursor is taken.
    Take,
    /// One call is made on the connection in hand.
    Step,
    /// The parcel in hand goes back.
    Put,
    /// The value in hand lands.
    Land,
    /// The flight in hand is lost, for want of memory.
    Lose,
    /// The query closes.
    Close,
    /// The query is closed.
    Over,
}

/// What a section did.
#[derive(Clone, Copy, Debug, PartialEq, Eq)]
pub enum Did {
    /// A flight was begun or joined.
    Asked,
    /// A value was taken in.
    Value,
    /// A need is to be asked for again.
    Again,
    /// A parcel was taken in hand.
    Taken,
    /// Another query has the parcel.
    Busy,
    /// So many bytes were sent or came.
    Moved(usize),
    /// The connection waits.
    Waited,
    /// A parcel came to something, or there was no memory for it.
    Judged,
    /// The parcel was put back.
    Back,
    /// The query closed.
    Left,
    /// An ending was decided.
    Ended,
}

impl Did {
    // The place of its count.
    pub(crate) fn place(self) -> usize
        ensures place { result ≡ place_of self }
        ensures low { result < 11 }
    {
        match self {
            Did::Asked => 0,
            Did::Value => 1,
            Did::Again => 2,
            Did::Taken => 3,
            Did::Busy => 4,
            Did::Moved(_) => 5,
            Did::Waited => 6,
            Did::Judged => 7,
            Did::Back => 8,
            Did::Left => 9,
            Did::Ended => 10,
        }
    }
}

/// What a query came to.
#[derive(Drop)]
pub enum Outcome<L: Conn> {
    /// The answer.
    Ok(Answer<PinHold<L>, LeafHold<L>>),
    /// The spec of a place, counted from 0, was refused, with the number of its fault.
    Refused {
        /// The place of the spec.
        spec: u64,
        /// The number of its fault.
        kind: u8,
    },
    /// A need came to nothing.
    Failed {
        /// What was given until then.
        part: Part<PinHold<L>, LeafHold<L>>,
        /// The need.
        need: Need,
        /// Its wreck.
        wreck: Arc<Verdict<L>>,
    },
    /// Memory ran out.
    Memory,
}

/// A query that ended.
#[derive(Drop)]
pub struct Finished<L: Conn> {
    /// The number of the query, where it entered a table.
    pub query: Option<u64>,
    /// How many entries of the table's journal name it.
    pub calls: u64,
    /// How often a need was asked for again.
    pub again: u64,
    /// What it asked for, in order.
    pub asked: Vec<Need>,
    /// What it came to.
    pub outcome: Outcome<L>,
}

/// What a query had done that was given up while it ran. Contracts see a `Left`.
#[derive(Debug, Drop)]
pub struct Unended {
    pub(crate) query: u64,
    pub(crate) turns: u128,
    pub(crate) has_parcel: bool,
}

impl Model for Unended {
    ghost use Rattle.query_future.specs.Left.{Left};

    ghost Value = { Left };

    ghost view = { λ u. record { query = u.query; turns = u.turns; has_parcel = u.has_parcel } };
}

impl Unended {
    /// The number of the query.
    pub fn query(&self) -> u64
        ensures { result ≡ self.now.query }
    {
        self.query
    }

    /// How many turns it did.
    pub fn turns(&self) -> u128
        ensures { result ≡ self.now.turns }
    {
        self.turns
    }

    /// Whether it had a parcel in hand, or what became of one.
    pub fn has_parcel(&self) -> bool
        ensures { result ≡ self.now.has_parcel }
    {
        self.has_parcel
    }
}
