//! Package records: what a map of MessagePack says of one package file (CEP 16, "package records").
//!
//! Contracts see a `PackageRecord` as its `Fields` (`specs/Record`), and a `RecordView` as those of
//! its record (`specs/View`). The layer above uses: what `read` gives stands at the cursor with
//! nothing wrong, a fault is the first one, and what `write` appends is read again as its record
//! (`specs/Writing`).
#![tactic(auto)]

mod copying;
mod data;
mod from_json;
mod from_tree;
#[cfg(test)]
mod json_rows;
mod laws;
mod reading;
mod record;
mod refusal;
mod spans;
#[cfg(test)]
mod tests;
mod tree;
mod value;
mod view;
mod writing;

pub use data::is_data;
pub use from_json::JsonRefusal;
pub use laws::{
    a_record_stands_at_its_places, a_record_stands_or_has_a_first_fault, a_written_record_is_read,
};
pub use record::PackageRecord;
pub use refusal::RecordRefusal;
pub use spans::{Field, RecordSpans};
pub use view::RecordView;
