//! The closure of a request over the indexes and shards of a store.
//!
//! Contracts see the store's files, where it tells them. `specs/Files` says what a file says, or why
//! it is bad, and `specs/Runs` what a run over the files comes to: the rows of the answer, or the
//! first file that is bad. The layer above makes a request and the places of its slots, and calls
//! `closure_over`; or it reads options (`closure_words`, `specs/Options`) and calls
//! `StoreRequests::answers` for the lines of an input, whose ends `specs/Lines` says.
#![tactic(auto)]

mod asked;
mod files;
mod holders;
mod laws;
mod lines;
mod names;
mod places;
mod run;
mod stop;
mod words;

pub use asked::{Answers, StoreRequests};
pub use holders::{OwnLeaf, OwnPin};
pub use laws::lines_have_one_end;
pub use lines::has_more_lines;
pub use places::{ChannelName, StorePlace, SubdirName, places_of};
pub use run::closure_over;
pub use stop::{BadFile, FileWhy, Stop};
pub use words::{OptionsRefusal, closure_words, option_of, value_of};
