//! A query: its turns as sections on a table.

use crate::deciding::{due_in, is_held, outcome_of, turns_in};
use crate::parts::{Did, Due, Finished, Hand, Pair, Unended, Work};
use crate::track::{MOST_OF_WINDOW, Track};
use crate::turning::{
    Doing, ask_turn, close_turn, land_turn, lose_turn, put_turn, settle, step_turn, take_turn,
};
use closure_plan::Plan;
use closure_request::Request;
use fetch_flight::Verdict;
use flight_table::{Door, Pass, Table};
use link_io::{Conn, Dial};
use pass_book::Naming;
use query_needs::{LeafHold, PinHold};
use std::alloc::{AllocError, Global};
use std::marker::Model;
use std::mem;

/// One query of a table. Contracts see a `Queried`.
#[derive(Drop)]
pub struct Query<N: Naming, D: Dial> {
    track: Track<N>,
    doing: Doing<D::Link>,
    counts: [u64; 11],
}

impl<N: Naming, D: Dial> Model for Query<N, D> {
    ghost use Rattle.std.specs.Prelude.{◌≤◌, vec_capacity};
    ghost use Rattle.query_future.specs.Queries.{IsQuery, Queried};

    ghost Value = { Queried D.Link };

    ghost view = { λ q. record { track = record { pass = q.track.pass; window = q.track.window.items; cursor = q.track.cursor; asked = q.track.asked.items; again = q.track.again }; work = q.doing.work; hand = q.doing.hand; counts = q.counts } };

    ghost invariant = { λ q. IsQuery D.Link.facts D.Link.from (record { track = record { pass = q.track.pass; window = q.track.window.items; cursor = q.track.cursor; asked = q.track.asked.items; again = q.track.again }; work = q.doing.work; hand = q.doing.hand; counts = q.counts })
        × (8 ≤ vec_capacity q.track.window) };
}

impl<N: Naming, D: Dial> Query<N, D> {
    ghost use Rattle.std.specs.Prelude.{◌≡◌, ◌≤◌, [], true, false, not, vec_capacity, IfOk, OnErr};
    ghost use Rattle.flight_rows.specs.Sight.{Sight};
    ghost use Rattle.closure_plan.specs.Start.{IsUntouched};
    ghost use Rattle.flight_table.specs.Doors.{TellsDoor, cancelling_door, opening_door};
    ghost use Rattle.flight_table.specs.Facts.{new_pass};
    ghost use Rattle.flight_table.specs.Follows.{Enters, LeavesTable};
    ghost use Rattle.query_needs.specs.Targets.{IsFormed};
    ghost use Rattle.query_future.specs.declared.parts.Due.{Due};
    ghost use Rattle.query_future.specs.declared.parts.Hand.TheVariants.{Empty};
    ghost use Rattle.query_future.specs.Dues.{no_counts};
    ghost use Rattle.query_future.specs.Queries.{BeginsRound, Finishes, IsQuery, Leaves, Turns, due_of, is_in_hand, is_round_over};
    ghost use Rattle.query_future.specs.Steps.{StepDid, SureFrom};
    ghost use Rattle.query_future.specs.Stands.{HasRequest};

    /// Enters a table with a request, which has to be well formed.
    ///
    /// `AllocError` where there is no memory for its plan, its window or its pass.
    pub fn enter(
        alloc: Global,
        table: &mut Table<N, D, Verdict<D::Link>>,
        door: &mut Door<N>,
        request: Request,
    ) -> Result<Query<N, D>, AllocError>
        requires formed { IsFormed request }
        ensures enters { IfOk result (λ q. Enters table.old table.new q.track.pass) }
        ensures pass { IfOk result (λ q. q.track.pass ≡ new_pass q.track.pass.query
            q.track.pass.base q.track.pass.origin) }
        ensures is_query { IfOk result (λ q. IsQuery D.Link.facts D.Link.from q) }
        ensures request { IfOk result (λ q. HasRequest request q.work) }
        ensures counts { IfOk result (λ q. q.counts ≡ no_counts) }
        ensures door { IfOk result (λ _. (door.new ≡ opening_door door.old)
            × TellsDoor table.old door.old × TellsDoor table.new door.new) }
        ensures err { OnErr result ((table.new ≡ table.old) × (door.new ≡ door.old)) }
    {
        let plan = Plan::new(alloc, request)?;
        let window = Vec::with_capacity(alloc, MOST_OF_WINDOW)?;
        let pass = table.enter(door)?;
        let query = Query::begun(alloc, pass, plan, window);
        query.tell();
        Ok(query)
    }

    // A query that has asked for nothing yet.
    fn begun(
        alloc: Global,
        pass: Pass<N>,
        plan: Plan<PinHold<D::Link>, LeafHold<D::Link>>,
        window: Vec<Pair>,
    ) -> Query<N, D>
        requires formed { IsFormed plan.known.request }
        requires untouched { IsUntouched plan.known.request plan }
        requires pass { pass ≡ new_pass pass.query pass.base pass.origin }
        requires window { window.items ≡ [] }
        requires room { 8 ≤ vec_capacity window }
        ensures pass { result.track.pass ≡ pass }
        ensures request { HasRequest plan.known.request result.work }
        ensures counts { result.counts ≡ no_counts }
    {
        Query {
            track: Track {
                pass,
                window,
                cursor: 0,
                asked: Vec::new(alloc),
                again: 0,
            },
            doing: Doing {
                work: Work::Going(plan),
                hand: Hand::Empty,
            },
            counts: [0; 11],
        }
    }

    /// The section that is due.
    pub fn due(&self) -> Due
        ensures { result ≡ due_of self.now }
    {
        due_in(&self.track, &self.doing.work, &self.doing.hand)
    }

    /// Asks for the next need.
    pub fn ask_section(&mut self, alloc: Global, table: &mut Table<N, D, Verdict<D::Link>>) -> Did
        requires { due_of self.old ≡ Due.Ask }
        ensures turns { Turns D.Link.facts D.Link.from table.old table.new self.old self.new
            result }
        ensures sure { SureFrom self.old.work self.new.work result }
    {
        let doing = mem::replace(&mut self.doing, spent());
        let (doing, did) = ask_turn(alloc, table, &mut self.track, doing);
        settle(&mut self.doing, &mut self.counts, doing, did);
        did
    }

    /// Takes what there is of the flight at the cursor.
    pub fn take_section(&mut self, table: &mut Table<N, D, Verdict<D::Link>>) -> Did
        requires { due_of self.old ≡ Due.Take }
        ensures turns { Turns D.Link.facts D.Link.from table.old table.new self.old self.new
            result }
        ensures sure { SureFrom self.old.work self.new.work result }
    {
        let doing = mem::replace(&mut self.doing, spent());
        let (doing, did) = take_turn(table, &mut self.track, doing);
        settle(&mut self.doing, &mut self.counts, doing, did);
        did
    }

    /// Makes one call on the connection in hand, and judges the parcel where it is decided. The table may
    /// go on meanwhile.
    pub fn step_section(&mut self, alloc: Global) -> Did
        requires { due_of self.old ≡ Due.Step }
        ensures turns { (s : Sight) → Turns D.Link.facts D.Link.from s s self.old self.new result }
        ensures did { StepDid D.Link.facts D.Link.from self.old.hand self.new.hand result }
        ensures sure { SureFrom self.old.work self.new.work result }
    {
        let doing = mem::replace(&mut self.doing, spent());
        let (doing, did) = step_turn(alloc, &self.track, doing);
        settle(&mut self.doing, &mut self.counts, doing, did);
        did
    }

    /// Puts the parcel in hand back.
    pub fn put_section(&mut self, table: &mut Table<N, D, Verdict<D::Link>>) -> Did
        requires { due_of self.old ≡ Due.Put }
        ensures turns { Turns D.Link.facts D.Link.from table.old table.new self.old self.new
            result }
        ensures empty { self.new.hand ≡ Empty }
        ensures sure { SureFrom self.old.work self.new.work result }
    {
        let doing = mem::replace(&mut self.doing, spent());
        let (doing, did) = put_turn(table, &mut self.track, doing);
        settle(&mut self.doing, &mut self.counts, doing, did);
        did
    }

    /// Lands the value in hand, and takes it in.
    pub fn land_section(&mut self, table: &mut Table<N, D, Verdict<D::Link>>) -> Did
        requires { due_of self.old ≡ Due.Land }
        ensures turns { Turns D.Link.facts D.Link.from table.old table.new self.old self.new
            result }
        ensures empty { self.new.hand ≡ Empty }
        ensures sure { SureFrom self.old.work self.new.work result }
    {
        let doing = mem::replace(&mut self.doing, spent());
        let (doing, did) = land_turn(table, &mut self.track, doing);
        settle(&mut self.doing, &mut self.counts, doing, did);
        did
    }

    /// Gives up the flight in hand, for want of memory: the query ends as `Memory`.
    pub fn lose_section(&mut self, table: &mut Table<N, D, Verdict<D::Link>>) -> Did
        requires { due_of self.old ≡ Due.Lose }
        ensures turns { Turns D.Link.facts D.Link.from table.old table.new self.old self.new
            result }
        ensures empty { self.new.hand ≡ Empty }
        ensures sure { SureFrom self.old.work self.new.work result }
    {
        let doing = mem::replace(&mut self.doing, spent());
        let (doing, did) = lose_turn(table, &mut self.track, doing);
        settle(&mut self.doing, &mut self.counts, doing, did);
        did
    }

    /// Decides the ending where none is decided, and closes the query.
    pub fn close_section(&mut self, table: &mut Table<N, D, Verdict<D::Link>>) -> Did
        requires { due_of self.old ≡ Due.Close }
        ensures turns { Turns D.Link.facts D.Link.from table.old table.new self.old self.new
            result }
        ensures over { self.new.track.pass.live ≡ false }
        ensures sure { SureFrom self.old.work self.new.work result }
    {
        let doing = mem::replace(&mut self.doing, spent());
        let (doing, did) = close_turn(table, &mut self.track, doing);
        settle(&mut self.doing, &mut self.counts, doing, did);
        did
    }

    /// Says what is always so of a query. It does nothing.
    pub fn tell(&self)
        ensures { IsQuery D.Link.facts D.Link.from self.now }
    {
        let _track = &self.track;
    }

    /// Whether a round of takes is over: Take is due and the cursor stands at the window's end.
    pub fn round_over(&self) -> bool
        ensures { result ≡ is_round_over self.now }
    {
        self.due() == Due::Take && self.track.cursor == self.track.window.len()
    }

    /// Begins a round: the cursor stands at the first pair.
    pub fn next_round(&mut self)
        ensures { BeginsRound self.old self.new }
    {
        if let Hand::Empty = &self.doing.hand {
            self.track.cursor = 0;
        }
    }

    /// Whether the query is closed.
    pub fn is_over(&self) -> bool
        ensures { result ≡ not self.now.track.pass.live }
    {
        !self.track.pass.is_live()
    }

    /// Whether the query has a parcel in hand, or what became of one.
    pub fn has_parcel(&self) -> bool
        ensures { result ≡ is_in_hand self.now.hand }
    {
        is_held(&self.doing.hand)
    }

    /// What the query came to, once it is over, with its closed pass.
    pub fn finished(self) -> (Pass<N>, Finished<D::Link>)
        requires { self.track.pass.live ≡ false }
        ensures pass { result.0 ≡ self.track.pass }
        ensures finishes { Finishes D.Link.facts D.Link.from self result.1 }
    {
        let Query { track, doing, .. } = self;
        let Doing { work, .. } = doing;
        let Track {
            pass,
            asked,
            again,
            ..
        } = track;
        let outcome = outcome_of(work);
        let finished = Finished {
            query: Some(pass.query()),
            calls: pass.calls(),
            again,
            asked,
            outcome,
        };
        (pass, finished)
    }

    /// Gives the query up, with all that it awaits.
    pub fn cancel(self, table: &mut Table<N, D, Verdict<D::Link>>, door: &mut Door<N>)
        requires live { self.track.pass.live ≡ true }
        requires idle { is_in_hand self.hand ≡ false }
        ensures leaves { LeavesTable table.old table.new self.track.pass }
        ensures door { (door.new ≡ cancelling_door door.old)
            × TellsDoor table.old door.old × TellsDoor table.new door.new }
    {
        let Query { track, .. } = self;
        let Track { pass, .. } = track;
        table.cancel(door, pass);
    }

    /// The needs that it asked for and that are not given yet, each with the flight that brings its value.
    pub fn window(&self) -> &[Pair]
        ensures { result.now ≡ self.now.track.window }
    {
        &self.track.window
    }

    /// Gives up a query that runs, and leaves it open in its table for good: its pass, and what it did.
    pub fn leave(self) -> (Pass<N>, Unended)
        requires { self.track.pass.live ≡ true }
        ensures pass { result.0 ≡ self.track.pass }
        ensures left { Leaves self result.1 }
    {
        let Query {
            track,
            doing,
            counts,
        } = self;
        let unended = Unended {
            query: track.pass.query(),
            turns: turns_in(&counts),
            has_parcel: is_held(&doing.hand),
        };
        (track.pass, unended)
    }
}

// What stands in the place of a work that is being done.
fn spent<L: Conn>() -> Doing<L> {
    Doing {
        work: Work::Memory,
        hand: Hand::Empty,
    }
}
