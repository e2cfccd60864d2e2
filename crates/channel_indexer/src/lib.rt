//! Indexing a subdir: `repodata.json` of a store is cut into the shards of its package names, and an
//! index of them (CEP 16).
//!
//! Contracts see what was put as a list: the shard of each name, ascending by the names, and behind
//! them the index (`specs/Shards.antt`: `index_puts`). The layer above uses `specs/Indexing.antt`:
//! what an indexing did, why it could not, and that a stop leaves some of the puts, from the first
//! one on.
#![tactic(auto)]

mod fault;
mod groups;
mod index;
mod input;
mod laws;
mod plain;
mod plan;
mod putting;
mod shards;

pub use fault::{IndexFault, Large};
pub use index::{Summary, index_subdir};
pub use laws::{
    a_file_says_one_indexing, a_place_has_one_fault, a_stop_keeps_the_place, groups_have_the_rows,
    rows_have_one_grouping, rows_have_one_order, rows_of_groups_ascend,
    what_is_not_fit_is_too_long,
};

#[cfg(test)]
mod tests;
