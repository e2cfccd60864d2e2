//! Taking, stepping, putting back, landing, losing and closing.

ghost use Rattle.std.specs.Prelude.{◌≡◌, ◌⊎◌, ◌<◌, ◌≤◌, ◌+◌, ◌-◌, ◌^◌, ℕ, true, false, length, None, vec_capacity};
ghost use Rattle.http_reply.specs.Going.{IsDecided, IsGoing};
ghost use Rattle.link_io.specs.Target.{IsPlain};
ghost use Rattle.flight_table.specs.Facts.{Facts, missed_pass};
ghost use Rattle.flight_table.specs.Follows.{Parts};
ghost use Rattle.query_future.specs.declared.parts.Hand.TheVariants.{Empty, Judged, Refused, Stepped};
ghost use Rattle.query_future.specs.declared.parts.Work.TheVariants.{Going, Memory};
ghost use Rattle.query_future.specs.Sections.{Closes, Ending, Gets, IsWhole, Judging, Sure, again_of, seen};
ghost use Rattle.query_future.specs.Steps.{Steps};
ghost use Rattle.query_future.specs.Stands.{Carries, GoesOn, KeepsRequest, Rests, is_going};
ghost use Rattle.query_future.specs.Windows.{IsAt};

use crate::parts::{Did, Hand, Pair, Work};
use crate::taking::take_in;
use crate::track::Track;
use closure_plan::Plan;
use fetch_flight::{Progress, Verdict, advance, judge};
use flight_rows::Drive;
use flight_table::Table;
use link_io::{Conn, Dial, Parcel};
use pass_book::Naming;
use query_needs::{LeafHold, PinHold};
use std::alloc::Global;
use std::sync::Arc;

/// Takes what there is of the flight at the cursor.
pub(crate) fn take_on<N: Naming, D: Dial>(
    table: &mut Table<N, D, Verdict<D::Link>>,
    track: &mut Track<N>,
    plan: Plan<PinHold<D::Link>, LeafHold<D::Link>>,
) -> (Work<D::Link>, Hand<D::Link>, Did)
    requires rests { Rests D.Link.facts D.Link.from (Going plan) Empty (seen track.old) }
    requires live { track.old.pass.live ≡ true }
    requires below { track.old.cursor < length track.old.window.items }
    ensures rests { Rests D.Link.facts D.Link.from result.0 result.1 (seen track.new) }
    ensures carries { Carries table.old table.new track.old.pass track.new.pass }
    ensures request { KeepsRequest (Going plan) result.0 }
    ensures sure { Sure result.0 result.2 }
    ensures live { track.new.pass.live ≡ track.old.pass.live }
    ensures room { vec_capacity track.new.window ≡ vec_capacity track.old.window }
{
    let flight = track.window[track.cursor].flight;
    match table.take(&mut track.pass, flight) {
        Drive::Parcel(parcel) => (Work::Going(plan), Hand::Fresh(parcel), Did::Taken),
        Drive::Busy => {
            track.cursor += 1;
            (Work::Going(plan), Hand::Empty, Did::Busy)
        }
        Drive::Ended(value) => got(track, plan, value),
        Drive::Again => missed(track, plan),
        Drive::Memory => (Work::Memory, Hand::Empty, Did::Ended),
    }
}

// The value of the pair at the cursor came.
fn got<N: Naming, L: Conn>(
    track: &mut Track<N>,
    plan: Plan<PinHold<L>, LeafHold<L>>,
    value: Arc<Verdict<L>>,
) -> (Work<L>, Hand<L>, Did)
    requires was { (f : Facts) × (w : Pair) × IsAt track.old.window.items track.old.cursor w
        × GoesOn L.facts L.from plan f track.old.window.items track.old.asked.items
        track.old.again × Gets L.facts L.from w.flight value.value f track.old.pass }
    requires idle { track.old.pass.hand ≡ None }
    requires few { length track.old.window.items ≤ 8 }
    ensures rests { Rests L.facts L.from result.0 result.1 (seen track.new) }
    ensures empty { result.1 ≡ Empty }
    ensures pass { track.new.pass ≡ track.old.pass }
    ensures request { KeepsRequest (Going plan) result.0 }
    ensures sure { Sure result.0 result.2 }
    ensures room { vec_capacity track.new.window ≡ vec_capacity track.old.window }
{
    plan.tell();
    let pair = track.window.remove(track.cursor);
    let (work, did) = take_in(plan, pair.need, &pair.target, value);
    track.again = repeated(did, track.again);
    (work, Hand::Empty, did)
}

fn repeated(did: Did, again: u64) -> u64
    requires { again < 2 ^ 64 - 1 }
    ensures { result ≡ again_of did again }
{
    if did.place() == 2 { again + 1 } else { again }
}

// The pair at the cursor was lost by another query.
fn missed<N: Naming, L: Conn>(
    track: &mut Track<N>,
    mut plan: Plan<PinHold<L>, LeafHold<L>>,
) -> (Work<L>, Hand<L>, Did)
    requires was { (f : Facts) × (w : Pair) × IsAt track.old.window.items track.old.cursor w
        × GoesOn L.facts L.from plan f track.old.window.items track.old.asked.items
        track.old.again × Parts w.flight (λ rest. missed_pass w.flight f) f track.old.pass }
    requires idle { track.old.pass.hand ≡ None }
    requires few { length track.old.window.items ≤ 8 }
    ensures rests { Rests L.facts L.from result.0 result.1 (seen track.new) }
    ensures pass { track.new.pass ≡ track.old.pass }
    ensures request { KeepsRequest (Going plan) result.0 }
    ensures sure { Sure result.0 result.2 }
    ensures room { vec_capacity track.new.window ≡ vec_capacity track.old.window }
{
    let pair = track.window.remove(track.cursor);
    plan.unmark(pair.need);
    track.again += 1;
    (Work::Going(plan), Hand::Empty, Did::Again)
}

/// One step on the parcel in hand, and what it came to.
pub(crate) fn step_on<L: Conn>(alloc: Global, mut parcel: Parcel<L>) -> (Hand<L>, Did)
    requires going { IsGoing parcel }
    requires plain { IsPlain parcel.target }
    ensures { Steps L.facts L.from parcel result.0 result.1 }
{
    match advance(alloc, &mut parcel) {
        Progress::Took(count) => (Hand::Stepped(parcel), Did::Moved(count)),
        Progress::NotYet => (Hand::Stepped(parcel), Did::Waited),
        Progress::Ready => judged(alloc, parcel),
        Progress::Failed => judged(alloc, parcel),
        Progress::Memory => (Hand::Stepped(parcel), Did::Ended),
    }
}

// What a parcel came to, for the table and for the query.
fn judged<L: Conn>(alloc: Global, parcel: Parcel<L>) -> (Hand<L>, Did)
    requires settled { (parcel.broken ≡ true) ⊎ IsDecided parcel }
    requires plain { IsPlain parcel.target }
    ensures { Judging L.facts L.from parcel result.0 result.1 }
{
    let Ok(value) = judge(alloc, parcel) else {
        return (Hand::Refused, Did::Judged);
    };
    match Arc::try_clone(&value) {
        Ok(copy) => (Hand::Judged(value, copy), Did::Judged),
        Err(_) => (Hand::Refused, Did::Judged),
    }
}

/// Puts a stepped parcel back, and moves the cursor on.
pub(crate) fn put_on<N: Naming, D: Dial>(
    table: &mut Table<N, D, Verdict<D::Link>>,
    track: &mut Track<N>,
    work: Work<D::Link>,
    parcel: Parcel<D::Link>,
) -> Work<D::Link>
    requires rests { Rests D.Link.facts D.Link.from work (Stepped parcel) (seen track.old) }
    ensures same { result ≡ work }
    ensures rests { Rests D.Link.facts D.Link.from work Empty (seen track.new) }
    ensures carries { Carries table.old table.new track.old.pass track.new.pass }
    ensures live { track.new.pass.live ≡ track.old.pass.live }
    ensures room { vec_capacity track.new.window ≡ vec_capacity track.old.window }
{
    let flight = track.window[track.cursor].flight;
    table.put_back(&mut track.pass, flight, parcel);
    track.cursor += 1;
    work
}

/// Lands the value in hand and takes it in.
pub(crate) fn land_on<N: Naming, D: Dial>(
    table: &mut Table<N, D, Verdict<D::Link>>,
    track: &mut Track<N>,
    plan: Plan<PinHold<D::Link>, LeafHold<D::Link>>,
    value: Arc<Verdict<D::Link>>,
    copy: Arc<Verdict<D::Link>>,
) -> (Work<D::Link>, Hand<D::Link>, Did)
    requires rests { Rests D.Link.facts D.Link.from (Going plan) (Judged value copy)
        (seen track.old) }
    ensures rests { Rests D.Link.facts D.Link.from result.0 result.1 (seen track.new) }
    ensures empty { result.1 ≡ Empty }
    ensures carries { Carries table.old table.new track.old.pass track.new.pass }
    ensures request { KeepsRequest (Going plan) result.0 }
    ensures sure { Sure result.0 result.2 }
    ensures live { track.new.pass.live ≡ track.old.pass.live }
    ensures room { vec_capacity track.new.window ≡ vec_capacity track.old.window }
{
    let flight = track.window[track.cursor].flight;
    table.land(&mut track.pass, flight, value);
    got(track, plan, copy)
}

/// Gives up the flight in hand.
pub(crate) fn lose_on<N: Naming, D: Dial>(
    table: &mut Table<N, D, Verdict<D::Link>>,
    track: &mut Track<N>,
    plan: Plan<PinHold<D::Link>, LeafHold<D::Link>>,
)
    requires rests { Rests D.Link.facts D.Link.from (Going plan) Refused (seen track.old) }
    ensures rests { Rests D.Link.facts D.Link.from Memory Empty (seen track.new) }
    ensures carries { Carries table.old table.new track.old.pass track.new.pass }
    ensures live { track.new.pass.live ≡ track.old.pass.live }
    ensures room { vec_capacity track.new.window ≡ vec_capacity track.old.window }
{
    drop(plan);
    let flight = track.window[track.cursor].flight;
    table.lose(&mut track.pass, flight);
}

/// Decides the ending where none is, and closes the pass.
pub(crate) fn close_on<N: Naming, D: Dial>(
    table: &mut Table<N, D, Verdict<D::Link>>,
    track: &mut Track<N>,
    work: Work<D::Link>,
) -> Work<D::Link>
    requires rests { Rests D.Link.facts D.Link.from work Empty (seen track.old) }
    requires live { track.old.pass.live ≡ true }
    requires due { Closes work }
    ensures rests { Rests D.Link.facts D.Link.from result Empty (seen track.new) }
    ensures ended { is_going result ≡ false }
    ensures carries { Carries table.old table.new track.old.pass track.new.pass }
    ensures live { track.new.pass.live ≡ false }
    ensures request { Ending work result }
    ensures room { vec_capacity track.new.window ≡ vec_capacity track.old.window }
{
    tell_whole(&work);
    let work = ended(work);
    table.close(&mut track.pass);
    work
}

// Says that each need is given, where no ending is decided. It does nothing.
fn tell_whole<L: Conn>(work: &Work<L>)
    requires { Closes work.now }
    ensures { IsWhole work.now }
{
    if let Work::Going(plan) = work {
        plan.tell();
        plan.tell_needs();
    }
}

// The ending that a work comes to.
fn ended<L: Conn>(work: Work<L>) -> Work<L>
    requires { Closes work }
    ensures { Ending work result }
{
    match work {
        Work::Going(plan) => match plan.finish() {
            Ok(answer) => Work::Answering(answer),
            Err(_) => Work::Memory,
        },
        other => other,
    }
}
