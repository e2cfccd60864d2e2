//! The flights of one table by number and by key, with the journal of all that happened to them.
//!
//! Contracts see `Flights` as a `Sight` (`specs/Sight`): its journal and budget, what was dialed, where
//! connections come from, and who has each flight's parcel in hand. Each call writes the entries that
//! its contract says, and keeps the journal one legal history (`IsSightSound`). Its queries and flights
//! are plain numbers; the layer above ties them to tokens.
#![tactic(auto)]

mod asking;
mod landing;
mod leaving;
mod refreshing;
mod row;
mod table;
mod taking;

pub use asking::Asked;
pub use table::{Drive, Flights};
