//! One turn of a query, on its parts.

ghost use Rattle.std.specs.Prelude.{◌≡◌, ◌≤◌, false, length, vec_capacity};
ghost use Rattle.flight_rows.specs.Sight.{Sight};
ghost use Rattle.query_future.specs.declared.parts.Due.{Due};
ghost use Rattle.query_future.specs.declared.parts.Hand.TheVariants.{Empty};
ghost use Rattle.query_future.specs.Dues.{counted, due_by};
ghost use Rattle.query_future.specs.Sections.{AfterStep, Begun, Turned, seen};
ghost use Rattle.query_future.specs.Steps.{StepDid, SureFrom};
ghost use Rattle.query_future.specs.Stands.{Rests};

use crate::asking::ask_on;
use crate::deciding::count;
use crate::driving::{close_on, land_on, lose_on, put_on, step_on, take_on};
use crate::parts::{Did, Due, Hand, Work};
use crate::track::Track;
use closure_plan::the_end_is_done;
use fetch_flight::Verdict;
use flight_table::Table;
use link_io::{Conn, Dial};
use pass_book::Naming;
use std::alloc::Global;

/// What a query works on, and what it has in hand.
#[derive(Drop)]
pub(crate) struct Doing<L: Conn> {
    pub(crate) work: Work<L>,
    pub(crate) hand: Hand<L>,
}

/// Asks for the next need.
pub(crate) fn ask_turn<N: Naming, D: Dial>(
    alloc: Global,
    table: &mut Table<N, D, Verdict<D::Link>>,
    track: &mut Track<N>,
    doing: Doing<D::Link>,
) -> (Doing<D::Link>, Did)
    requires rests { Rests D.Link.facts D.Link.from doing.work doing.hand (seen track.old) }
    requires room { 8 ≤ vec_capacity track.old.window }
    requires due { due_by track.old.pass.live doing.hand doing.work (length track.old.window.items)
        ≡ Due.Ask }
    ensures turned { Turned D.Link.facts D.Link.from table.old table.new (seen track.old)
        (seen track.new) doing.work result.0.work result.0.hand }
    ensures room { vec_capacity track.new.window ≡ vec_capacity track.old.window }
    ensures sure { SureFrom doing.work result.0.work result.1 }
{
    let Doing { work, hand } = doing;
    let Work::Going(plan) = work else {
        unreachable!()
    };
    let (work, did) = ask_on(alloc, table, track, plan);
    (Doing { work, hand }, did)
}

/// Takes what there is at the cursor, which begins again at the end.
pub(crate) fn take_turn<N: Naming, D: Dial>(
    table: &mut Table<N, D, Verdict<D::Link>>,
    track: &mut Track<N>,
    doing: Doing<D::Link>,
) -> (Doing<D::Link>, Did)
    requires rests { Rests D.Link.facts D.Link.from doing.work doing.hand (seen track.old) }
    requires room { 8 ≤ vec_capacity track.old.window }
    requires due { due_by track.old.pass.live doing.hand doing.work (length track.old.window.items)
        ≡ Due.Take }
    ensures turned { Turned D.Link.facts D.Link.from table.old table.new (seen track.old)
        (seen track.new) doing.work result.0.work result.0.hand }
    ensures room { vec_capacity track.new.window ≡ vec_capacity track.old.window }
    ensures sure { SureFrom doing.work result.0.work result.1 }
{
    let Doing { work, .. } = doing;
    let Work::Going(plan) = work else {
        unreachable!()
    };
    the_end_is_done();
    track.cursor = begun(track.cursor, track.window.len());
    let (work, hand, did) = take_on(table, track, plan);
    (Doing { work, hand }, did)
}

// The cursor, or the first place where it stood at the end.
fn begun(cursor: usize, len: usize) -> usize
    ensures { Begun cursor len result }
{
    if cursor == len { 0 } else { cursor }
}

/// One call on the connection in hand, and the value where it is decided.
pub(crate) fn step_turn<N: Naming, L: Conn>(
    alloc: Global,
    track: &Track<N>,
    doing: Doing<L>,
) -> (Doing<L>, Did)
    requires rests { Rests L.facts L.from doing.work doing.hand (seen track.now) }
    requires due { due_by track.now.pass.live doing.hand doing.work (length track.now.window.items)
        ≡ Due.Step }
    ensures turned { (s : Sight) → Turned L.facts L.from s s (seen track.now) (seen track.now)
        doing.work result.0.work result.0.hand }
    ensures did { StepDid L.facts L.from doing.hand result.0.hand result.1 }
    ensures sure { SureFrom doing.work result.0.work result.1 }
{
    let _track = track;
    let Doing { work, hand } = doing;
    let Hand::Fresh(parcel) = hand else {
        unreachable!()
    };
    let (hand, did) = step_on(alloc, parcel);
    let work = after_step(work, did);
    (Doing { work, hand }, did)
}

// The work behind a step: want of memory is an ending.
fn after_step<L: Conn>(work: Work<L>, did: Did) -> Work<L>
    ensures { AfterStep work did result }
{
    match did {
        Did::Ended => Work::Memory,
        _ => work,
    }
}

/// Puts the parcel back.
pub(crate) fn put_turn<N: Naming, D: Dial>(
    table: &mut Table<N, D, Verdict<D::Link>>,
    track: &mut Track<N>,
    doing: Doing<D::Link>,
) -> (Doing<D::Link>, Did)
    requires rests { Rests D.Link.facts D.Link.from doing.work doing.hand (seen track.old) }
    requires room { 8 ≤ vec_capacity track.old.window }
    requires due { due_by track.old.pass.live doing.hand doing.work (length track.old.window.items)
        ≡ Due.Put }
    ensures turned { Turned D.Link.facts D.Link.from table.old table.new (seen track.old)
        (seen track.new) doing.work result.0.work result.0.hand }
    ensures room { vec_capacity track.new.window ≡ vec_capacity track.old.window }
    ensures sure { SureFrom doing.work result.0.work result.1 }
    ensures empty { result.0.hand ≡ Empty }
{
    let Doing { work, hand } = doing;
    let Hand::Stepped(parcel) = hand else {
        unreachable!()
    };
    let work = put_on(table, track, work, parcel);
    let hand = Hand::Empty;
    (Doing { work, hand }, Did::Back)
}

/// Lands the value in hand and takes it in.
pub(crate) fn land_turn<N: Naming, D: Dial>(
    table: &mut Table<N, D, Verdict<D::Link>>,
    track: &mut Track<N>,
    doing: Doing<D::Link>,
) -> (Doing<D::Link>, Did)
    requires rests { Rests D.Link.facts D.Link.from doing.work doing.hand (seen track.old) }
    requires room { 8 ≤ vec_capacity track.old.window }
    requires due { due_by track.old.pass.live doing.hand doing.work (length track.old.window.items)
        ≡ Due.Land }
    ensures turned { Turned D.Link.facts D.Link.from table.old table.new (seen track.old)
        (seen track.new) doing.work result.0.work result.0.hand }
    ensures room { vec_capacity track.new.window ≡ vec_capacity track.old.window }
    ensures sure { SureFrom doing.work result.0.work result.1 }
    ensures empty { result.0.hand ≡ Empty }
{
    let Doing { work, hand } = doing;
    let Hand::Judged(value, copy) = hand else {
        unreachable!()
    };
    let Work::Going(plan) = work else {
        unreachable!()
    };
    let (work, hand, did) = land_on(table, track, plan, value, copy);
    (Doing { work, hand }, did)
}

/// Gives up the flight in hand, for want of memory.
pub(crate) fn lose_turn<N: Naming, D: Dial>(
    table: &mut Table<N, D, Verdict<D::Link>>,
    track: &mut Track<N>,
    doing: Doing<D::Link>,
) -> (Doing<D::Link>, Did)
    requires rests { Rests D.Link.facts D.Link.from doing.work doing.hand (seen track.old) }
    requires room { 8 ≤ vec_capacity track.old.window }
    requires due { due_by track.old.pass.live doing.hand doing.work (length track.old.window.items)
        ≡ Due.Lose }
    ensures turned { Turned D.Link.facts D.Link.from table.old table.new (seen track.old)
        (seen track.new) doing.work result.0.work result.0.hand }
    ensures room { vec_capacity track.new.window ≡ vec_capacity track.old.window }
    ensures sure { SureFrom doing.work result.0.work result.1 }
    ensures empty { result.0.hand ≡ Empty }
{
    let Doing { work, .. } = doing;
    let Work::Going(plan) = work else {
        unreachable!()
    };
    lose_on(table, track, plan);
    let doing = Doing {
        work: Work::Memory,
        hand: Hand::Empty,
    };
    (doing, Did::Ended)
}

/// Closes.
pub(crate) fn close_turn<N: Naming, D: Dial>(
    table: &mut Table<N, D, Verdict<D::Link>>,
    track: &mut Track<N>,
    doing: Doing<D::Link>,
) -> (Doing<D::Link>, Did)
    requires rests { Rests D.Link.facts D.Link.from doing.work doing.hand (seen track.old) }
    requires room { 8 ≤ vec_capacity track.old.window }
    requires due { due_by track.old.pass.live doing.hand doing.work (length track.old.window.items)
        ≡ Due.Close }
    ensures turned { Turned D.Link.facts D.Link.from table.old table.new (seen track.old)
        (seen track.new) doing.work result.0.work result.0.hand }
    ensures room { vec_capacity track.new.window ≡ vec_capacity track.old.window }
    ensures sure { SureFrom doing.work result.0.work result.1 }
    ensures over { track.new.pass.live ≡ false }
{
    let Doing { work, .. } = doing;
    let work = close_on(table, track, work);
    let hand = Hand::Empty;
    (Doing { work, hand }, Did::Left)
}

/// Puts what a turn left in its place, and counts what it did.
pub(crate) fn settle<L: Conn>(
    place: &mut Doing<L>,
    counts: &mut [u64; 11],
    doing: Doing<L>,
    did: Did,
)
    ensures doing { place.new ≡ doing }
    ensures counts { counts.new ≡ counted did counts.old }
{
    *place = doing;
    count(counts, did);
}
