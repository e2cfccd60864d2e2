//! The answer to a request.
ghost use Rattle.std.specs.Prelude.{◌≡◌, ◌≤◌, ◌||◌, IfOk};
ghost use Rattle.channel_store.specs.Store.{found, whole};
ghost use Rattle.shard_server.specs.Answer.{Answer, Answers, empty, answer_of_found, is_get, is_head, is_served_method};

use channel_store::{Got, MOST_SERVED_BYTES, Store, StoreRefusal, served_path};
use std::alloc::{AllocError, Global};
use std::marker::Model;

// The statuses of an answer (RFC 9110, section 15).
const OK: u16 = 200;

const NOT_FOUND: u16 = 404;

const METHOD_NOT_ALLOWED: u16 = 405;

const SERVICE_UNAVAILABLE: u16 = 503;

/// An answer to a request. Contracts see its `Answer`.
#[derive(Debug, Drop)]
pub struct Served {
    /// The status: 200, 404, 405 or 503.
    pub status: u16,
    /// The bytes of the file to a GET with status 200, and none otherwise.
    pub body: Vec<u8>,
    /// How many bytes the file has with status 200, to a HEAD too, and 0 otherwise.
    pub size: u64,
}

impl Model for Served {
    ghost use Rattle.shard_server.specs.Answer.{Answer};

    ghost Value = { Answer };

    ghost view = { λ s. record { status = s.status; body = s.body.items; size = s.size } };
}

/// Answers a request for a path by the files of a store, of which it changes none.
///
/// 405 where the method is neither GET nor HEAD. Else 404 where the path is not `/` and the name of
/// an index or of a shard (docs/FORMATS.md, "Served paths"), or where that file is absent or longer
/// than 33,554,432 bytes; 503 where the store failed; and 200 with the file's bytes, or with none to
/// a HEAD. `AllocError` where memory ran out.
pub fn answer<S: Store>(
    alloc: Global,
    store: &mut S,
    method: &str,
    path: &str,
) -> Result<Served, AllocError>
    ensures answers { IfOk result (Answers method.now path.now
        (S.files store.old) (S.faults store.old) (S.faults store.new)) }
    ensures same { S.files store.new ≡ S.files store.old }
    ensures later { S.faults store.old ≤ S.faults store.new }
{
    if !is_served_method(method) {
        return Ok(empty(alloc, METHOD_NOT_ALLOWED));
    }
    let Some(name) = served_path(path) else {
        return Ok(empty(alloc, NOT_FOUND));
    };
    match store.get(alloc, name, MOST_SERVED_BYTES as u64) {
        Ok(got) => Ok(of_found(alloc, method, got)),
        Err(StoreRefusal::Failed) => Ok(empty(alloc, SERVICE_UNAVAILABLE)),
        Err(StoreRefusal::Memory) => Err(AllocError),
    }
}

// Whether a method asks for a file.
fn is_served_method(method: &str) -> bool
    ensures { result ≡ is_served_method method.now }
{
    method == "GET" || method == "HEAD"
}

// An answer without a body.
fn empty(alloc: Global, status: u16) -> Served
    ensures { result ≡ empty status }
{
    Served {
        status,
        body: Vec::new(alloc),
        size: 0,
    }
}

// The answer with what a store has under a name.
fn of_found(alloc: Global, method: &str, got: Got) -> Served
    ensures { result ≡ answer_of_found method.now (found got) }
{
    match got {
        Got::Bytes(bytes) => file(alloc, method, bytes),
        Got::Absent | Got::Long => empty(alloc, NOT_FOUND),
    }
}

// The answer with a file.
fn file(alloc: Global, method: &str, bytes: Vec<u8>) -> Served
    ensures { result ≡ answer_of_found method.now (whole bytes.items) }
{
    let size = bytes.len() as u64;
    let body = if method == "GET" {
        bytes
    } else {
        Vec::new(alloc)
    };
    Served {
        status: OK,
        body,
        size,
    }
}
