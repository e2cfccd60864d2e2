//! One call on the connection of a parcel.

ghost use Rattle.std.specs.Prelude.{◌≡◌, ◌⊎◌, ◌<◌, ◌≤◌, true, false, length};
ghost use Rattle.link_io.specs.Origin.{Origin};
ghost use Rattle.http_head.specs.Reply.{is_settled};
ghost use Rattle.http_reply.specs.Request.{request_bytes};
ghost use Rattle.fetch_flight.specs.Advance.{Advances, progress_of, WhereGoing, WhereDone, Moves};
ghost use Rattle.http_reply.specs.Going.{IsUndecided, IsDecided, IsGoing};

use http_reply::{Reply, is_settled, request_size, request_text};
use link_io::{Conn, Parcel, Sent, Step};
use std::alloc::Global;

/// The most bytes that one step receives.
pub const STEP_ROOM: usize = 16_384;

/// What came of one call.
#[derive(Clone, Copy, Debug, PartialEq, Eq)]
pub enum Progress {
    /// So many bytes were sent or came, and the parcel isn't decided.
    Took(usize),
    /// The connection waits.
    NotYet,
    /// The parcel is decided, by this call.
    Ready,
    /// The connection failed.
    Failed,
    /// Memory ran out: no call was made.
    Memory,
}

/// Makes one call on the connection of a parcel that is neither broken nor decided: sends what is left
/// of the request for its target, or, once that is sent, receives at most 16,384 bytes.
///
/// `Ready` comes exactly where this call decided the parcel. After `Failed` the parcel is broken; after
/// `Memory` it is as before, and no call was made. The request's text is made only while a part of it
/// is left. No byte of a body is looked at; bytes of a head are read again only where more came and
/// the head isn't whole yet, which ends at 65,536 bytes.
#[tactic(auto, using(crate::proofs::AdvanceLemmas::target_same, crate::proofs::AdvanceLemmas::is_going, crate::proofs::AdvanceLemmas::is_done))]
pub fn advance<L: Conn>(alloc: Global, parcel: &mut Parcel<L>) -> Progress
    requires whole { parcel.old.broken ≡ false }
    requires undecided { IsUndecided parcel.old }
    ensures says { Advances L.facts parcel.old parcel.new result }
    ensures from { (o : Origin) → L.from parcel.old.link o → L.from parcel.new.link o }

    // What follows of the parcel.
    ensures target { parcel.new.target ≡ parcel.old.target }
    ensures going { WhereGoing result (IsGoing parcel.new) }
    ensures done { WhereDone result ((parcel.new.broken ≡ true) ⊎ IsDecided parcel.new) }
    ensures moved { Moves parcel.old parcel.new result }
{
    if parcel.sent() < request_size(parcel.target()) {
        ask(alloc, parcel)
    } else {
        listen(parcel)
    }
}

// Sends what is left of the request.
fn ask<L: Conn>(alloc: Global, parcel: &mut Parcel<L>) -> Progress
    requires whole { parcel.old.broken ≡ false }
    requires undecided { IsUndecided parcel.old }
    requires left { parcel.old.sent < length (request_bytes parcel.old.target.url) }
    ensures says { Advances L.facts parcel.old parcel.new result }
    ensures from { (o : Origin) → L.from parcel.old.link o → L.from parcel.new.link o }
{
    let Ok(request) = request_text(alloc, parcel.target()) else {
        return Progress::Memory;
    };
    let sent = parcel.sent();
    of_sent(parcel.send(&request[sent..]))
}

// What came of sending a part of the request.
fn of_sent(answer: Sent) -> Progress
    ensures { result ≡ progress_of answer }
{
    match answer {
        Sent::Took(count) => Progress::Took(count),
        Sent::NotYet => Progress::NotYet,
        Sent::Failed => Progress::Failed,
    }
}

// Receives the next bytes; the request is sent.
fn listen<L: Conn>(parcel: &mut Parcel<L>) -> Progress
    requires whole { parcel.old.broken ≡ false }
    requires undecided { IsUndecided parcel.old }
    requires asked { length (request_bytes parcel.old.target.url) ≤ parcel.old.sent }
    ensures says { Advances L.facts parcel.old parcel.new result }
    ensures from { (o : Origin) → L.from parcel.old.link o → L.from parcel.new.link o }
{
    match parcel.step(STEP_ROOM) {
        Ok(Step::Got(count)) => {
            if is_decided(parcel) {
                Progress::Ready
            } else {
                Progress::Took(count)
            }
        }
        Ok(Step::End) => {
            let _reply = judge_end(parcel);
            Progress::Ready
        }
        Ok(Step::NotYet) => Progress::NotYet,
        Ok(Step::Failed) => Progress::Failed,
        Err(_) => Progress::Memory,
    }
}

// Whether nothing that comes changes it any more.
fn settles<L: Conn>(parcel: &Parcel<L>, reply: Reply) -> bool
    ensures { result ≡ is_settled (length parcel.now.received) parcel.now.ended reply }
{
    is_settled(parcel.received().len(), parcel.ended(), reply)
}

// Whether a parcel is decided.
fn is_decided<L: Conn>(parcel: &Parcel<L>) -> bool
    ensures yes { result ≡ true → IsDecided parcel.now }
    ensures no { result ≡ false → IsUndecided parcel.now }
{
    settles(parcel, parcel.reply())
}

// A parcel whose bytes have ended is decided.
fn judge_end<L: Conn>(parcel: &Parcel<L>) -> Reply
    requires { parcel.now.ended ≡ true }
    ensures { IsDecided parcel.now }
{
    parcel.reply()
}
