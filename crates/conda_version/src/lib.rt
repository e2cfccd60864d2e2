//! Versions of conda packages, their order, and constraints on them, after conda's `VersionOrder`
//! and the version part of its `MatchSpec` (docs/FORMATS.md, "Versions" and "Constraints").
//!
//! Contracts see a `Version` as its `meaning`, two lists of components (`specs/Version.antt`), and
//! compare two by `version_cmp` and `version_starts_with` (`specs/Order.antt`).
//! Versions are read, compared and tested in their texts, without memory.
#![tactic(auto)]

mod constraint;
mod cursor;
mod fault;
mod laws;
mod leaf;
mod level;
mod levels;
mod operator;
mod order;
mod parts;
mod scan;
mod token;
mod version;

pub use constraint::Constraint;
pub use fault::{ConstraintFault, ConstraintRefusal, VersionFault};
pub use laws::{
    a_blank_in_front_moves_places, a_component_is_cut_into_maximal_runs,
    a_constraint_says_what_its_tree_says, a_last_underscore_is_put_back,
    a_version_starts_with_its_equals, equal_versions_are_allowed_alike, levels_are_64,
    order_is_total, ties_are_equal_runs, ties_start_alike,
};
pub use level::LEVELS;
pub use version::Version;

#[cfg(test)]
mod tests;
