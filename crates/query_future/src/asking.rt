//! Asking for the next need.

ghost use Rattle.std.specs.Prelude.{◌≡◌, ◌<◌, ◌≤◌, ℕ, true, is_some, IfSome, vec_len, vec_capacity};
ghost use Rattle.fetch_flight.specs.Verdict.{key_of, size_of, number_of, comes_from};
ghost use Rattle.flight_rows.specs.Rows.{Comes};
ghost use Rattle.flight_table.specs.Facts.{Facts};
ghost use Rattle.flight_table.specs.Follows.{Awaits, Hits};
ghost use Rattle.link_io.specs.Target.{IsPlain};
ghost use Rattle.closure_plan.specs.Plan.{its_next};
ghost use Rattle.query_needs.specs.Holders.{index_in, leaf_in};
ghost use Rattle.query_needs.specs.Known.{IsKnown};
ghost use Rattle.query_needs.specs.Targets.{target_of};
ghost use Rattle.query_future.specs.declared.parts.Work.TheVariants.{Going};
ghost use Rattle.query_future.specs.Stands.{Carries, GoesOn, KeepsRequest, Stands};
ghost use Rattle.query_future.specs.Sections.{IsNext, SameBut, SameTrack, Sure, seen};

use crate::parts::{Did, Pair, Work};
use crate::taking::take_in;
use crate::track::Track;
use channel_url::index_addresses_are_apart;
use closure_plan::{Need, Plan, the_next_can_be_marked};
use fetch_flight::Verdict;
use flight_rows::Asked;
use flight_table::Table;
use link_io::{Conn, Dial, Target};
use pass_book::Naming;
use query_needs::{LeafHold, PinHold, target_for};
use std::alloc::Global;
use std::sync::Arc;

/// Asks for the next need.
pub(crate) fn ask_on<N: Naming, D: Dial>(
    alloc: Global,
    table: &mut Table<N, D, Verdict<D::Link>>,
    track: &mut Track<N>,
    plan: Plan<PinHold<D::Link>, LeafHold<D::Link>>,
) -> (Work<D::Link>, Did)
    requires stands { GoesOn D.Link.facts D.Link.from plan track.old.pass track.old.window.items
        track.old.asked.items track.old.again }
    requires next { is_some (its_next index_in leaf_in plan) ≡ true }
    requires few { vec_len track.old.window < 8 }
    requires room { 8 ≤ vec_capacity track.old.window }
    requires live { track.old.pass.live ≡ true }
    ensures stands { Stands D.Link.facts D.Link.from result.0 (seen track.new) }
    ensures carries { Carries table.old table.new track.old.pass track.new.pass }
    ensures same { SameTrack (seen track.old) (seen track.new) }
    ensures room { vec_capacity track.new.window ≡ vec_capacity track.old.window }
    ensures request { KeepsRequest (Going plan) result.0 }
    ensures sure { Sure result.0 result.1 }
{
    let Some(need) = next_need(&plan) else {
        unreachable!()
    };
    let Ok(()) = track.asked.reserve(1) else {
        return (Work::Memory, Did::Ended);
    };
    let Ok(target) = target_for(alloc, &plan, need) else {
        return (Work::Memory, Did::Ended);
    };
    match table.ask(&mut track.pass, &target) {
        Ok(Asked::Kept(_, value)) => kept(track, plan, need, &target, value),
        Ok(Asked::Joined(flight)) => awaited(track, plan, need, target, flight),
        Ok(Asked::Began(flight)) => awaited(track, plan, need, target, flight),
        Err(_) => (Work::Memory, Did::Ended),
    }
}

// The next need, which may be asked for.
fn next_need<L: Conn>(plan: &Plan<PinHold<L>, LeafHold<L>>) -> Option<Need>
    requires known { IsKnown L.facts plan.now.known }
    requires some { is_some (its_next index_in leaf_in plan.now) ≡ true }
    ensures some { is_some result ≡ true }
    ensures next { IfSome result (IsNext plan.now) }
{
    plan.tell();
    the_next_can_be_marked::<PinHold<L>, LeafHold<L>>();
    index_addresses_are_apart();
    plan.next()
}

// The value was kept.
fn kept<N: Naming, L: Conn>(
    track: &mut Track<N>,
    mut plan: Plan<PinHold<L>, LeafHold<L>>,
    need: Need,
    target: &Target,
    value: Arc<Verdict<L>>,
) -> (Work<L>, Did)
    requires was { (f : Facts) × (x : ℕ) × GoesOn L.facts L.from plan f track.old.window.items
        track.old.asked.items track.old.again
        × Hits (Comes key_of size_of (number_of L.facts) (comes_from L.from) f.base f.origin) x
        target.now.key value.value f track.old.pass }
    requires next { IsNext plan need }
    requires target { target.now ≡ target_of plan.known need }
    requires room { vec_len track.old.asked < vec_capacity track.old.asked }
    ensures stands { Stands L.facts L.from result.0 (seen track.new) }
    ensures same { SameBut (seen track.old) (seen track.new) }
    ensures room { vec_capacity track.new.window ≡ vec_capacity track.old.window }
    ensures request { KeepsRequest (Going plan) result.0 }
    ensures sure { Sure result.0 result.1 }
{
    plan.mark(need);
    track.asked.push_reserved(need);
    take_in(plan, need, target, value)
}

// The flight is awaited from now on.
fn awaited<N: Naming, L: Conn>(
    track: &mut Track<N>,
    mut plan: Plan<PinHold<L>, LeafHold<L>>,
    need: Need,
    target: Target,
    flight: u64,
) -> (Work<L>, Did)
    requires was { (f : Facts) × GoesOn L.facts L.from plan f track.old.window.items
        track.old.asked.items track.old.again × Awaits flight target.key f track.old.pass }
    requires next { IsNext plan need }
    requires target { target ≡ target_of plan.known need }
    requires plain { IsPlain target }
    requires room { vec_len track.old.asked < vec_capacity track.old.asked }
    requires few { vec_len track.old.window < vec_capacity track.old.window }
    ensures stands { Stands L.facts L.from result.0 (seen track.new) }
    ensures same { SameBut (seen track.old) (seen track.new) }
    ensures room { vec_capacity track.new.window ≡ vec_capacity track.old.window }
    ensures request { KeepsRequest (Going plan) result.0 }
    ensures sure { Sure result.0 result.1 }
{
    plan.mark(need);
    track.asked.push_reserved(need);
    track.window.push_reserved(Pair {
        need,
        flight,
        target,
    });
    (Work::Going(plan), Did::Asked)
}
