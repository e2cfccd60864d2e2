//! The request for an address, and what the bytes that came back are as a reply.
//!
//! `request_text` is the request, whose size is known without it (`request_size`). How replies are
//! judged stands in `http_head`, whose names are given on here; `specs/Going` says of a parcel whether
//! its bytes are decided.
#![tactic(auto)]

mod request;

pub use http_head::{BODY_LIMIT, FIELD_LIMIT, Frame, HEAD_LIMIT, Reply, is_settled, judge_head};
pub use request::{request_size, request_text};

#[cfg(test)]
mod tests;
