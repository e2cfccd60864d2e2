//! What is due, and the counts.

ghost use Rattle.std.specs.Prelude.{◌≡◌, length, false};
ghost use Rattle.std.specs.List.{sum};
ghost use Rattle.closure_request.specs.Request.{Asking};
ghost use Rattle.query_future.specs.Dues.{counted, due_by, due_work};
ghost use Rattle.query_future.specs.Queries.{HadRequest, Stood, is_in_hand};
ghost use Rattle.query_future.specs.Stands.{HasRequest, Stands, Tracked, is_going};

use crate::parts::{Did, Due, Hand, Outcome, Work};
use crate::track::{MOST_OF_WINDOW, Track};
use link_io::Conn;
use pass_book::Naming;

/// Counts what was done.
pub(crate) fn count(counts: &mut [u64; 11], did: Did)
    ensures { counts.new ≡ counted did counts.old }
{
    let place = did.place();
    counts[place] = counts[place].saturating_add(1);
}

/// All that was done.
pub(crate) fn turns_in(counts: &[u64; 11]) -> u128
    ensures { result ≡ sum counts.now }
{
    let mut turns = 0;
    for count in counts {
        turns += u128::from(*count);
    }
    turns
}

/// Whether this is a parcel, or what became of one.
pub(crate) fn is_held<L: Conn>(hand: &Hand<L>) -> bool
    ensures { result ≡ is_in_hand hand.now }
{
    !matches!(hand, Hand::Empty)
}

/// The section that is due.
pub(crate) fn due_in<N: Naming, L: Conn>(track: &Track<N>, work: &Work<L>, hand: &Hand<L>) -> Due
    ensures { result ≡ due_by track.now.pass.live hand.now work.now (length
        track.now.window.items) }
{
    if !track.pass.is_live() {
        return Due::Over;
    }
    match hand {
        Hand::Empty => due_for(work, track.window.len()),
        Hand::Fresh(_) => Due::Step,
        Hand::Stepped(_) => Due::Put,
        Hand::Judged(_, _) => Due::Land,
        Hand::Refused => Due::Lose,
    }
}

// The section that is due with nothing in hand and so many pairs in the window.
fn due_for<L: Conn>(work: &Work<L>, pairs: usize) -> Due
    ensures { result ≡ due_work work.now pairs }
{
    match work {
        Work::Going(plan) => {
            if plan.is_done() {
                Due::Close
            } else if pairs < MOST_OF_WINDOW && plan.next().is_some() {
                Due::Ask
            } else {
                Due::Take
            }
        }
        Work::Failing(_, _, _) | Work::Answering(_) | Work::Memory => Due::Close,
    }
}

/// The outcome of an ending.
pub(crate) fn outcome_of<L: Conn>(work: Work<L>) -> Outcome<L>
    requires { is_going work ≡ false }
    ensures stands { (t : Tracked) → Stands L.facts L.from work t →
        Stood L.facts L.from result t.pass t.asked t.again }
    ensures request { (r : Asking) → HasRequest r work → HadRequest r result }
{
    match work {
        Work::Going(_) => unreachable!(),
        Work::Failing(part, need, wreck) => Outcome::Failed { part, need, wreck },
        Work::Answering(answer) => Outcome::Ok(answer),
        Work::Memory => Outcome::Memory,
    }
}
