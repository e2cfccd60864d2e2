//! What a value makes of the work of a query.

ghost use Rattle.std.specs.Prelude.{◌≡◌, false, true};
ghost use Rattle.fetch_flight.specs.Verdict.{key_of};
ghost use Rattle.closure_plan.specs.Plan.{has_need};
ghost use Rattle.query_needs.specs.Known.{IsKnown};
ghost use Rattle.query_needs.specs.Takes.{IsNeeded, is_filled};
ghost use Rattle.query_needs.specs.Targets.{target_of};
ghost use Rattle.query_future.specs.Sections.{TakesIn};

use crate::parts::{Did, Work};
use closure_plan::{Need, Plan};
use fetch_flight::Verdict;
use link_io::{Conn, Target};
use query_needs::{LeafHold, PinHold, Taken};
use std::sync::Arc;

/// Takes in the value of a flight for a marked need, whose target this is.
pub(crate) fn take_in<L: Conn>(
    plan: Plan<PinHold<L>, LeafHold<L>>,
    need: Need,
    target: &Target,
    value: Arc<Verdict<L>>,
) -> (Work<L>, Did)
    requires known { IsKnown L.facts plan.known }
    requires needed { IsNeeded plan.known need }
    requires not_given { is_filled plan.known need ≡ false }
    requires marked { has_need plan.marked need ≡ true }
    requires target { target.now ≡ target_of plan.known need }
    requires keyed { key_of value.value ≡ target.now.key }
    ensures { TakesIn L.facts need value.value plan result.0 result.1 }
{
    match query_needs::take_in(plan, need, target, value) {
        Taken::Given(plan) => (Work::Going(plan), Did::Value),
        Taken::Again(plan) => (Work::Going(plan), Did::Again),
        Taken::Failed(part, wreck) => (Work::Failing(part, need, wreck), Did::Ended),
        Taken::Memory => (Work::Memory, Did::Ended),
    }
}
