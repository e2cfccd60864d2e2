//! A store of files by name.
//!
//! Contracts see a `Store` as its files, where it tells them: a finite map from a name to bytes
//! (`specs/Store.antt`). Each call counts its faults, and answers `Failed` only where that count
//! rose. A put is whole: whenever it stops, the old file or the new one stands, and never a part.
//! `MemStore` stands for a store in tests and where a channel is indexed in memory; `FolderStore`
//! is the real one. `specs/Names.antt` says what a channel, a subdir and a place are.
#![tactic(auto)]

mod folder;
mod laws;
mod limits;
mod memory;
mod names;
mod store;
mod temporary;

pub use folder::FolderStore;
pub use laws::files_of_a_place_have_store_names;
pub use limits::{MOST_SERVED_BYTES, served_files_have_their_limit};
pub use memory::MemStore;
pub use names::{
    is_channel_name, is_place, is_served_name, is_shard_name, is_store_name, is_subdir_name,
    served_path, subdir_of,
};
pub use store::{Got, Store, StoreRefusal};

#[cfg(test)]
mod tests;
