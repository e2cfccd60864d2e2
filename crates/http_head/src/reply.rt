//! What some received bytes are as a reply.

ghost use Rattle.std.specs.Prelude.{◌≡◌, ◌-◌, ℕ, List, length};
ghost use Rattle.http_head.specs.Head.{IsReading};
ghost use Rattle.http_head.specs.Reply.{IsReply, is_settled, reply_after, reply_of, reply_without, body_by};

use crate::framing::Framing;
use crate::head::{HEAD_LIMIT, Head, read_head};

/// The most bytes of a body.
pub const BODY_LIMIT: u64 = 33_554_432;

/// How a body ends.
#[derive(Clone, Copy, Debug, PartialEq, Eq)]
pub enum Frame {
    /// It has so many bytes.
    Length(u64),
    /// Where the connection ends.
    ToEnd,
}

/// What some received bytes are as a reply.
#[derive(Clone, Copy, Debug, PartialEq, Eq)]
pub enum Reply {
    /// The head isn't complete, and more may come.
    Partial,
    /// The status is 200, and a body follows a head of so many bytes.
    Body {
        /// How many bytes the head has.
        head_len: u64,
        /// How the body ends.
        frame: Frame,
    },
    /// The status is 404 or 410.
    Absent,
    /// Another status than 200, 404 and 410.
    Status(u16),
    /// The bytes ended within the head or the body, or the head says its body's length in a form that
    /// isn't accepted.
    BadReply,
    /// No head in the first 65,536 bytes, or a body of more than 33,554,432 bytes.
    TooLong,
}

/// What these bytes are as a reply, where they have ended or may go on. It takes no memory.
///
/// The head is read within the first 65,536 bytes and has at most 96 fields. Of status 200, the tests
/// go in this order: a Transfer-Encoding, the form of the lengths, lengths that differ, a length above
/// the limit, the body. (RFC 9112, sections 4 and 6; `docs/FORMATS.md`, "Replies".)
pub fn judge_head(received: &[u8], ended: bool) -> Reply
    ensures exact { IsReply received.now ended result }
{
    reply_of(read_head(received), received.len(), ended)
}

/// What so many bytes are as a reply, by what is known of their head, where they have ended or may go
/// on. It looks at no byte.
#[tactic(auto, using(crate::proofs::HeadLemmas::judged))]
pub fn reply_of(known: Option<Head>, size: usize, ended: bool) -> Reply
    ensures exact { result ≡ reply_of known size ended }
    ensures judges { (received : List ℕ) → IsReading received known → length received ≡ size
        → IsReply received ended result }
{
    match known {
        Some(head) => reply_after(head, size, ended),
        None => reply_without(size, ended),
    }
}

// What a reply is whose head is known.
fn reply_after(head: Head, size: usize, ended: bool) -> Reply
    ensures { result ≡ reply_after head size ended }
{
    match head.status {
        404 | 410 => Reply::Absent,
        200 => body_by(head.framing, head.len, size.saturating_sub(head.len), ended),
        status => Reply::Status(status),
    }
}

// What a reply of status 200 is.
fn body_by(framing: Framing, len: usize, behind: usize, ended: bool) -> Reply
    ensures { result ≡ body_by framing len behind ended }
{
    let head_len = len as u64;
    match framing {
        Framing::Bad => Reply::BadReply,
        Framing::TooLong => Reply::TooLong,
        Framing::Framed(Frame::Length(n)) => {
            if ended && (behind as u64) < n {
                Reply::BadReply
            } else {
                Reply::Body {
                    head_len,
                    frame: Frame::Length(n),
                }
            }
        }
        Framing::Framed(Frame::ToEnd) => {
            if behind as u64 > BODY_LIMIT {
                Reply::TooLong
            } else {
                Reply::Body {
                    head_len,
                    frame: Frame::ToEnd,
                }
            }
        }
    }
}

// What a reply is whose head isn't complete.
fn reply_without(size: usize, ended: bool) -> Reply
    ensures { result ≡ reply_without size ended }
{
    if size > HEAD_LIMIT {
        Reply::TooLong
    } else if ended {
        Reply::BadReply
    } else {
        Reply::Partial
    }
}

/// Whether nothing that comes changes the reply any more, and its body is there.
pub fn is_settled(size: usize, ended: bool, reply: Reply) -> bool
    ensures { result ≡ is_settled size ended reply }
{
    match reply {
        Reply::Partial => false,
        Reply::Body { head_len, frame } => match frame {
            Frame::Length(n) => match head_len.checked_add(n) {
                Some(whole) => whole <= size as u64,
                None => false,
            },
            Frame::ToEnd => ended,
        },
        _ => true,
    }
}
