//! One turn of the query at a place, and how a request enters.

ghost use Rattle.std.specs.Prelude.{◌≡◌, true};
ghost use Rattle.query_needs.specs.Targets.{IsFormed};
ghost use Rattle.query_future.specs.Queries.{Turns};
ghost use Rattle.gateway_core.specs.Places.{IsNothing, OpensTo, TurnsTo};

use crate::world::Place;
use closure_request::Request;
use fetch_flight::Verdict;
use flight_table::{Door, Table};
use link_io::{Conn, Dial};
use pass_book::Naming;
use query_future::{Did, Due, Finished, Outcome, Query};
use std::alloc::Global;

// The section that is due.
fn section<N: Naming, D: Dial>(
    alloc: Global,
    table: &mut Table<N, D, Verdict<D::Link>>,
    query: &mut Query<N, D>,
) -> Did
    requires { query.old.track.pass.live ≡ true }
    ensures { Turns D.Link.facts D.Link.from table.old table.new query.old query.new result }
{
    match query.due() {
        Due::Ask => query.ask_section(alloc, table),
        Due::Take => query.take_section(table),
        Due::Step => query.step_section(alloc),
        Due::Put => query.put_section(table),
        Due::Land => query.land_section(table),
        Due::Lose => query.lose_section(table),
        Due::Close => query.close_section(table),
        Due::Over => unreachable!(),
    }
}

/// One turn: the query runs on, or it is over.
pub(crate) fn turn<N: Naming, D: Dial>(
    alloc: Global,
    table: &mut Table<N, D, Verdict<D::Link>>,
    mut query: Query<N, D>,
) -> Place<N, D>
    requires { query.track.pass.live ≡ true }
    ensures { TurnsTo D.Link.facts D.Link.from table.old table.new query result }
{
    let _did = section(alloc, table, &mut query);
    if query.is_over() {
        let (pass, finished) = query.finished();
        return Place::Done(Some(pass), finished);
    }
    Place::Running(query)
}

/// A request enters the table.
pub(crate) fn open<N: Naming, D: Dial>(
    alloc: Global,
    table: &mut Table<N, D, Verdict<D::Link>>,
    door: &mut Door<N>,
    request: Request,
) -> Place<N, D>
    requires { IsFormed request }
    ensures { OpensTo D.Link.facts D.Link.from table.old table.new door.old door.new request
        result }
{
    match Query::enter(alloc, table, door, request) {
        Ok(query) => Place::Running(query),
        Err(_) => Place::Done(None, nothing(alloc)),
    }
}

// What a request came to that did not enter.
fn nothing<L: Conn>(alloc: Global) -> Finished<L>
    ensures { IsNothing result }
{
    Finished {
        query: None,
        calls: 0,
        again: 0,
        asked: Vec::new(alloc),
        outcome: Outcome::Memory,
    }
}
