//! The head with which received bytes begin.

ghost use Rattle.std.specs.Prelude.{◌≡◌, ◌≤◌, length, take, IfSome, IfNone};
ghost use Rattle.httparse.specs.Spans.{IsResponseWithin, IsResponseOf};
ghost use Rattle.http_head.specs.Head.{IsReading, HasNoFewHead};

use crate::framing::{Framing, framing_of};
use httparse::Status;
use httparse::spans::{EMPTY_HEADER_SPAN, HeaderSpan, ResponseSpans, parse_response};

/// The most bytes that are read as a head.
pub const HEAD_LIMIT: usize = 65_536;

/// The most fields of a head.
pub const FIELD_LIMIT: usize = 96;

/// What is known of a head that was read.
#[derive(Clone, Copy, Debug, PartialEq, Eq)]
pub struct Head {
    /// The status, 0 to 999.
    pub status: u16,
    /// How many bytes the head has; the body begins behind them.
    pub len: usize,
    /// What its fields say of the body.
    pub framing: Framing,
}

/// What is known of the head with which these bytes begin; `None` where they begin with none that is
/// whole, or with one of more than 96 fields. It looks at the first 65,536 bytes at most, and takes no
/// memory. (RFC 9112, sections 4 and 5.)
pub fn read_head(received: &[u8]) -> Option<Head>
    ensures exact { IsReading received.now result }
{
    let mut headers = no_headers();
    head_with(received, &mut headers)
}

/// The same, where it is known what the first `before` bytes begin with.
///
/// A head that is known isn't read again; neither are bytes behind the first 65,536, where these
/// hold no head. So only bytes that follow fewer than 65,536 are looked at.
pub fn read_on(received: &[u8], before: usize, known: Option<Head>) -> Option<Head>
    requires known { IsReading (take before received.now) known }
    ensures exact { IsReading received.now result }
{
    match known {
        Some(head) => Some(head),
        None => {
            if before >= HEAD_LIMIT {
                None
            } else {
                read_head(received)
            }
        }
    }
}

// Room for the fields of a head.
fn no_headers() -> [HeaderSpan; FIELD_LIMIT] {
    [EMPTY_HEADER_SPAN; FIELD_LIMIT]
}

// What is known of the head, with room for its fields.
fn head_with(received: &[u8], headers: &mut [HeaderSpan]) -> Option<Head>
    requires { length headers.old ≡ 96 }
    ensures { IsReading received.now result }
{
    let front = front_of(received, HEAD_LIMIT);
    match head_in(front, headers) {
        Some(found) => Some(Head {
            status: found.code,
            len: found.len,
            framing: framing_of(front, &headers[..found.headers]),
        }),
        None => None,
    }
}

// The first bytes, at most so many.
#[tactic(auto, using(std::proofs::lemmas::List::take_all))]
fn front_of(received: &[u8], most: usize) -> &[u8]
    ensures value { result.now ≡ take most received.now }
    ensures within { length result.now ≤ length received.now }
{
    if received.len() > most {
        &received[..most]
    } else {
        received
    }
}

// The head with which some bytes begin.
fn head_in(front: &[u8], headers: &mut [HeaderSpan]) -> Option<ResponseSpans>
    requires { length headers.old ≡ 96 }
    ensures within { IfSome result (IsResponseWithin front.now headers.new) }
    ensures some { IfSome result (IsResponseOf front.now headers.new) }
    ensures none { IfNone result (HasNoFewHead front.now) }
    ensures room { length headers.new ≡ length headers.old }
{
    match parse_response(front, headers) {
        Ok(Status::Complete(found)) => Some(found),
        Ok(Status::Partial) => None,
        Err(_) => None,
    }
}
