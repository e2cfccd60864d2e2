//! Specs of conda packages: what a text asks for, and which records it matches, after conda's
//! `MatchSpec` (docs/FORMATS.md, "Specs").
//!
//! Contracts see a `Spec` as its `Meaning`, a name and the parts that are there (`specs/Parts`).
//! The layer above uses: what a text reads as (`specs/Reading`), and that a spec matches exactly
//! the records of which the name and each of its parts fit (`specs/Matching`), without memory.
#![tactic(auto)]

mod bracket;
mod build;
mod entry;
mod fault;
mod kept;
mod key;
mod laws;
mod number;
mod outside;
mod parts;
mod passage;
mod spec;
mod text;
mod version;

pub use fault::{SpecFault, SpecRefusal};
pub use laws::{
    a_blank_in_front_of_a_spec_moves_places, a_canonical_spec_is_read,
    parts_of_a_bracket_may_change_places, what_is_read_is_a_spec,
};
pub use spec::Spec;

#[cfg(test)]
mod tests;
