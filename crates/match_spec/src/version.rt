//! Reading the constraint of a spec.

ghost use Rattle.std.specs.Prelude.{◌≡◌};
ghost use Rattle.gateway_words.specs.Reading.{Gives};
ghost use Rattle.match_spec.specs.Reading.{constraint_or, fault_of};

use crate::fault::{SpecFault, SpecRefusal};
use conda_version::{Constraint, ConstraintRefusal};
use std::alloc::Global;
use std::str;

// The constraint of some bytes, or this fault for each of its own.
#[tactic(auto, unfolding(crate::specs::Reading::constraint_or))]
pub(crate) fn read_constraint(
    alloc: Global,
    text: &[u8],
    fault: SpecFault,
) -> Result<Constraint, SpecRefusal>
    ensures { Gives (λ c. c) fault_of result (constraint_or fault text.now) }
{
    let Ok(text) = str::from_utf8(text) else {
        return Err(SpecRefusal::Fault(fault));
    };
    match Constraint::read(alloc, text) {
        Ok(constraint) => Ok(constraint),
        Err(ConstraintRefusal::Fault(_)) => Err(SpecRefusal::Fault(fault)),
        Err(ConstraintRefusal::Memory) => Err(SpecRefusal::Memory),
    }
}
