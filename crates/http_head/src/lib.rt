//! What the bytes that came over a connection are as a reply.
//!
//! Contracts see a reply as a relation (`specs/Reply`) over the grammar of heads of `httparse`: bytes
//! that have ended or not are exactly one reply (`bytes_are_one_reply`). `judge_head` judges bytes as
//! they are. The layers above keep what is known of the head (`read_head`, `read_on`), so that they
//! judge again without reading again (`reply_of`), and use whether a reply is settled and the laws on
//! fronts of a reply.
#![tactic(auto)]

mod framing;
mod head;
mod laws;
mod reply;

pub use framing::Framing;
pub use head::{FIELD_LIMIT, HEAD_LIMIT, Head, read_head, read_on};
pub use laws::{
    a_served_file_is_the_body, bytes_are_one_reply, decided_fronts_have_the_body,
    ended_replies_are_decided, fronts_of_replies_are_good,
    nothing_is_decided_before_the_first_byte, undecided_bytes_are_few,
};
pub use reply::{BODY_LIMIT, Frame, Reply, is_settled, judge_head, reply_of};

#[cfg(test)]
mod tests;
