//! Replies for an index and for a shard, given in pieces, and what each flight comes to.

ghost use Rattle.std.specs.Prelude.{◌≡◌, ◌⊎◌, false, true, IfOk};
ghost use Rattle.link_io.specs.Target.{IsPlain};
ghost use Rattle.http_reply.specs.Going.{IsUndecided, IsDecided, IsGoing};

use super::*;
use Wanted::{Absent, BadReply, Base, Format, Index, OtherDigest, Shard, Status, TooLong};
use digest_gate::Digest;
use http_head::nothing_is_decided_before_the_first_byte;
use link_io::{
    Dial, HttpUrl, Key, Parcel, ScriptConn, ScriptDial, ScriptLine, Target, Trick, UrlFault,
};
use mp_codec::FaultKind::{self, Missing, Reserved, Short, Trailing, Version, Wrong};
use std::alloc::{AllocError, Global};
use std::sync::Arc;
use std::test::Fail;

// What a flight comes to: an index or a shard of so many bytes, or a cause.
#[derive(Clone, Copy, Debug, PartialEq, Eq)]
enum Wanted {
    Index(u64),
    Shard(u64),
    Link,
    Absent,
    Status(u16),
    BadReply,
    TooLong,
    OtherDigest,
    Format(FaultKind, u64),
    Base(UrlFault),
}

// A reply for an index, and what it comes to.
const INDEXES: [(&[u8], Wanted); 27] = [
    // An index, and what may stand round it.
    (
        b"HTTP/1.1 200 OK\r\nContent-Length: 9\r\n\r\n\x81\xa6shards\x80",
        Index(9),
    ),
    (
        b"HTTP/1.1 200 OK\r\nContent-Length: 9\r\n\r\n\x81\xa6shards\x80HTTP/1.1 404 N\r\n\r\n",
        Index(9),
    ),
    (b"HTTP/1.1 200 OK\r\n\r\n\x81\xa6shards\x80", Index(9)),
    (
        b"HTTP/1.0 200\nContent-Length:9\n\n\x81\xa6shards\x80",
        Index(9),
    ),
    (
        b"HTTP/1.1 200 OK\r\nContent-Length: 76\r\n\r\n\x83\xa7version\x01\xa4info\x83\xa8base_url\xa2./\xafshards_base_url\xa9./shards/\xa6subdir\xa6noarch\xa6shards\x80",
        Index(76),
    ),
    (
        b"HTTP/1.1 200 OK\r\nContent-Length: 42\r\n\r\n\x82\xa4info\x81\xafshards_base_url\xaahttp://m/x\xa6shards\x80",
        Index(42),
    ),
    // Other statuses, whatever the body.
    (
        b"HTTP/1.1 404 Not Found\r\nContent-Length: 9\r\n\r\n\x81\xa6shards\x80",
        Absent,
    ),
    (b"HTTP/1.1 410 Gone\r\n\r\n", Absent),
    (
        b"HTTP/1.1 500 Internal Server Error\r\n\r\n\x81\xa6shards\x80",
        Status(500),
    ),
    (
        b"HTTP/1.1 301 Moved Permanently\r\nLocation: http://h/\r\n\r\n",
        Status(301),
    ),
    (
        b"HTTP/1.1 100 Continue\r\n\r\nHTTP/1.1 200 OK\r\nContent-Length: 9\r\n\r\n\x81\xa6shards\x80",
        Status(100),
    ),
    (
        b"HTTP/1.1 206 Partial Content\r\nContent-Length: 9\r\n\r\n\x81\xa6shards\x80",
        Status(206),
    ),
    // No reply of the accepted form.
    (
        b"HTTP/1.2 200 OK\r\nContent-Length: 9\r\n\r\n\x81\xa6shards\x80",
        BadReply,
    ),
    (
        b"HTTP/1.1 200 OK\r\nTransfer-Encoding: chunked\r\n\r\n9\r\n\x81\xa6shards\x80\r\n0\r\n\r\n",
        BadReply,
    ),
    (
        b"HTTP/1.1 200 OK\r\nContent-Length: 9\r\nContent-Length: 10\r\n\r\n\x81\xa6shards\x80",
        BadReply,
    ),
    (
        b"HTTP/1.1 200 OK\r\nContent-Length: x\r\n\r\n\x81\xa6shards\x80",
        BadReply,
    ),
    (b"<html></html>", BadReply),
    (b"", BadReply),
    (
        b"HTTP/1.1 200 OK\r\nContent-Length: 10\r\n\r\n\x81\xa6shards\x80",
        BadReply,
    ),
    // Too long.
    (
        b"HTTP/1.1 200 OK\r\nContent-Length: 33554433\r\n\r\n\x81\xa6shards\x80",
        TooLong,
    ),
    // A body that is no index.
    (
        b"HTTP/1.1 200 OK\r\nContent-Length: 0\r\n\r\n",
        Format(Short, 0),
    ),
    (
        b"HTTP/1.1 200 OK\r\nContent-Length: 1\r\n\r\n\x80",
        Format(Missing, 1),
    ),
    (
        b"HTTP/1.1 200 OK\r\nContent-Length: 10\r\n\r\n\x81\xa6shards\x80\x00",
        Format(Trailing, 9),
    ),
    (
        b"HTTP/1.1 200 OK\r\nContent-Length: 18\r\n\r\n\x82\xa7version\x02\xa6shards\x80",
        Format(Version, 9),
    ),
    (
        b"HTTP/1.1 200 OK\r\nContent-Length: 36\r\n\r\n\x83\xa8packages\x80\xaepackages.conda\x80\xa7removed\x90",
        Format(Missing, 36),
    ),
    // An index whose base of shards is none.
    (
        b"HTTP/1.1 200 OK\r\nContent-Length: 42\r\n\r\n\x82\xa4info\x81\xafshards_base_url\xaahttps://m/\xa6shards\x80",
        Base(UrlFault::Scheme),
    ),
    (
        b"HTTP/1.1 200 OK\r\nContent-Length: 34\r\n\r\n\x82\xa4info\x81\xafshards_base_url\xa2?x\xa6shards\x80",
        Base(UrlFault::Url),
    ),
];

// The bytes whose digest is asked for, a reply, and what it comes to.
const SHARDS: [(&[u8], &[u8], Wanted); 18] = [
    // A shard, and what may stand round it.
    (
        b"\x83\xa8packages\x80\xaepackages.conda\x80\xa7removed\x90",
        b"HTTP/1.1 200 OK\r\nContent-Length: 36\r\n\r\n\x83\xa8packages\x80\xaepackages.conda\x80\xa7removed\x90",
        Shard(36),
    ),
    (
        b"\x83\xa8packages\x80\xaepackages.conda\x80\xa7removed\x90",
        b"HTTP/1.1 200 OK\r\nContent-Length: 36\r\n\r\n\x83\xa8packages\x80\xaepackages.conda\x80\xa7removed\x90\x00\x01",
        Shard(36),
    ),
    (
        b"\x83\xa8packages\x80\xaepackages.conda\x80\xa7removed\x90",
        b"HTTP/1.1 200 OK\r\n\r\n\x83\xa8packages\x80\xaepackages.conda\x80\xa7removed\x90",
        Shard(36),
    ),
    (
        b"\x81\xaepackages.conda\x81\xaba-1-0.conda\x83\xa4name\xa1a\xa7version\xa11\xa5build\xa10",
        b"HTTP/1.1 200 OK\r\nContent-Length: 55\r\n\r\n\x81\xaepackages.conda\x81\xaba-1-0.conda\x83\xa4name\xa1a\xa7version\xa11\xa5build\xa10",
        Shard(55),
    ),
    // Bytes of another digest, whether they are a shard or not.
    (
        b"\x81\xaepackages.conda\x81\xaba-1-0.conda\x83\xa4name\xa1a\xa7version\xa11\xa5build\xa10",
        b"HTTP/1.1 200 OK\r\nContent-Length: 36\r\n\r\n\x83\xa8packages\x80\xaepackages.conda\x80\xa7removed\x90",
        OtherDigest,
    ),
    (
        b"\x83\xa8packages\x80\xaepackages.conda\x80\xa7removed\x90",
        b"HTTP/1.1 200 OK\r\n\r\n\x83\xa8packages\x80\xaepackages.conda\x80\xa7removed\x90\x00",
        OtherDigest,
    ),
    (
        b"\x83\xa8packages\x80\xaepackages.conda\x80\xa7removed\x90",
        b"HTTP/1.1 200 OK\r\nContent-Length: 36\r\n\r\n\x83\xa8packages\x80\xaepackages.conda\x80\xa7removed\x91",
        OtherDigest,
    ),
    (
        b"\x83\xa8packages\x80\xaepackages.conda\x80\xa7removed\x90",
        b"HTTP/1.1 200 OK\r\nContent-Length: 0\r\n\r\n",
        OtherDigest,
    ),
    // Bytes of the right digest that are no shard.
    (
        b"\xc1",
        b"HTTP/1.1 200 OK\r\nContent-Length: 1\r\n\r\n\xc1",
        Format(Reserved, 0),
    ),
    (
        b"",
        b"HTTP/1.1 200 OK\r\nContent-Length: 0\r\n\r\n",
        Format(Short, 0),
    ),
    (
        b"\x83\xa8packages\x80\xaepackages.conda\x80\xa7removed\x90\x00",
        b"HTTP/1.1 200 OK\r\nContent-Length: 37\r\n\r\n\x83\xa8packages\x80\xaepackages.conda\x80\xa7removed\x90\x00",
        Format(Trailing, 36),
    ),
    (
        b"\x81\xa8packages\x90",
        b"HTTP/1.1 200 OK\r\n\r\n\x81\xa8packages\x90",
        Format(Wrong, 10),
    ),
    // Other statuses, and no reply.
    (
        b"\x83\xa8packages\x80\xaepackages.conda\x80\xa7removed\x90",
        b"HTTP/1.1 404 Not Found\r\nContent-Length: 36\r\n\r\n\x83\xa8packages\x80\xaepackages.conda\x80\xa7removed\x90",
        Absent,
    ),
    (
        b"\x83\xa8packages\x80\xaepackages.conda\x80\xa7removed\x90",
        b"HTTP/1.1 410 Gone\r\n\r\n",
        Absent,
    ),
    (
        b"\x83\xa8packages\x80\xaepackages.conda\x80\xa7removed\x90",
        b"HTTP/1.1 503 Service Unavailable\r\nRetry-After: 1\r\n\r\n\x83\xa8packages\x80\xaepackages.conda\x80\xa7removed\x90",
        Status(503),
    ),
    (
        b"\x83\xa8packages\x80\xaepackages.conda\x80\xa7removed\x90",
        b"HTTP/1.1 200 OK\r\ntransfer-encoding: identity\r\n\r\n\x83\xa8packages\x80\xaepackages.conda\x80\xa7removed\x90",
        BadReply,
    ),
    (
        b"\x83\xa8packages\x80\xaepackages.conda\x80\xa7removed\x90",
        b"HTTP/1.1 200 OK\r\nContent-Length: 37\r\n\r\n\x83\xa8packages\x80\xaepackages.conda\x80\xa7removed\x90",
        BadReply,
    ),
    (
        b"\x83\xa8packages\x80\xaepackages.conda\x80\xa7removed\x90",
        b"HTTP/1.1 200 OK\r\nContent-Length: 33554433\r\n\r\n\x83\xa8packages\x80\xaepackages.conda\x80\xa7removed\x90",
        TooLong,
    ),
];

const URL: &str = "http://h/c/noarch/repodata_shards.msgpack";

fn url(alloc: Global) -> Result<HttpUrl, Fail> {
    Ok(HttpUrl::read(alloc, URL).ok().ok_or("it is an address")?)
}

// The index at the address.
fn index(alloc: Global) -> Result<Target, Fail>
    ensures { IfOk result IsPlain }
{
    let url = url(alloc)?;
    Ok(Target {
        key: Key::Index(url.copy(alloc)?),
        url,
    })
}

// The shard with the digest of some bytes, at the same address.
fn shard(alloc: Global, bytes: &[u8]) -> Result<Target, Fail>
    ensures { IfOk result IsPlain }
{
    Ok(Target {
        key: Key::Shard(Digest::of(bytes)),
        url: url(alloc)?,
    })
}

// A parcel to a target over a connection that gives a reply in pieces of so many bytes, by a script.
fn begun(
    alloc: Global,
    target: Target,
    reply: Vec<u8>,
    piece: usize,
    script: &[ScriptLine],
) -> Result<Parcel<ScriptConn>, Fail>
    requires plain { IsPlain target }
    ensures whole { IfOk result (λ parcel. parcel.broken ≡ false) }
    ensures undecided { IfOk result IsUndecided }
    ensures plain { IfOk result (λ parcel. IsPlain parcel.target) }
{
    nothing_is_decided_before_the_first_byte();
    let mut replies = Vec::new(alloc);
    replies.push((target.url.copy(alloc)?, reply))?;
    let mut dial = ScriptDial::new(alloc, replies, piece.max(1), script.to_vec(alloc)?);
    let link = dial.dial(alloc, &target)?;
    Ok(Parcel::new(alloc, target, link))
}

// One call more on a parcel that can go on; whether it came to something.
fn is_over(alloc: Global, parcel: &mut Parcel<ScriptConn>) -> Result<bool, Fail>
    requires whole { parcel.old.broken ≡ false }
    requires undecided { IsUndecided parcel.old }
    ensures target { parcel.new.target ≡ parcel.old.target }
    ensures going { IfOk result (λ over. over ≡ false → IsGoing parcel.new) }
    ensures over { IfOk result (λ over.
        over ≡ true → (parcel.new.broken ≡ true) ⊎ IsDecided parcel.new) }
{
    match advance(alloc, parcel) {
        Progress::Took(_) => Ok(false),
        Progress::NotYet => Ok(false),
        Progress::Ready => Ok(true),
        Progress::Failed => Ok(true),
        Progress::Memory => Err(AllocError.into()),
    }
}

// The most calls of a flight.
const CALLS: u64 = 100_000;

// What a parcel comes to.
fn fly(alloc: Global, mut parcel: Parcel<ScriptConn>) -> Result<Arc<Verdict<ScriptConn>>, Fail>
    requires whole { parcel.broken ≡ false }
    requires undecided { IsUndecided parcel }
    requires plain { IsPlain parcel.target }
{
    for _ in 0..CALLS {
        if is_over(alloc, &mut parcel)? {
            return Ok(judge(alloc, parcel)?);
        }
    }
    Err("it goes on and on".into())
}

// What came of a flight.
fn came(verdict: &Verdict<ScriptConn>) -> Wanted {
    match verdict {
        Verdict::Index(pin) => Wanted::Index(pin.size()),
        Verdict::Shard(held) => Wanted::Shard(held.size()),
        Verdict::Wreck(wreck) => caused(*wreck.cause()),
    }
}

fn caused(cause: Cause) -> Wanted {
    match cause {
        Cause::Link => Wanted::Link,
        Cause::Absent => Wanted::Absent,
        Cause::Status(status) => Wanted::Status(status),
        Cause::BadReply => Wanted::BadReply,
        Cause::TooLong => Wanted::TooLong,
        Cause::Digest { .. } => Wanted::OtherDigest,
        Cause::Malformed(Malformed::Format(fault)) => Wanted::Format(fault.kind, fault.at),
        Cause::Malformed(Malformed::Base(fault)) => Wanted::Base(fault),
    }
}

// What a reply for the index comes to, in pieces of so many bytes, by a script.
fn index_by(
    alloc: Global,
    reply: &[u8],
    piece: usize,
    script: &[ScriptLine],
) -> Result<Wanted, Fail> {
    let parcel = begun(alloc, index(alloc)?, reply.to_vec(alloc)?, piece, script)?;
    Ok(came(&*fly(alloc, parcel)?))
}

// What a reply for the shard with the digest of some bytes comes to, in pieces of so many bytes.
fn shard_by(alloc: Global, bytes: &[u8], reply: &[u8], piece: usize) -> Result<Wanted, Fail> {
    let parcel = begun(
        alloc,
        shard(alloc, bytes)?,
        reply.to_vec(alloc)?,
        piece,
        &[],
    )?;
    Ok(came(&*fly(alloc, parcel)?))
}

// How many bytes a piece has: one by one, others that cut heads and bodies apart, and all at once.
const PIECES: [usize; 7] = [1, 2, 3, 5, 16, 47, usize::MAX];

// Whether a reply for the index comes to that, however it is cut.
fn is_index_always(alloc: Global, reply: &[u8], wanted: Wanted) -> Result<bool, Fail> {
    for piece in PIECES {
        if index_by(alloc, reply, piece, &[])? != wanted {
            return Ok(false);
        }
    }
    Ok(true)
}

fn is_shard_always(
    alloc: Global,
    bytes: &[u8],
    reply: &[u8],
    wanted: Wanted,
) -> Result<bool, Fail> {
    for piece in PIECES {
        if shard_by(alloc, bytes, reply, piece)? != wanted {
            return Ok(false);
        }
    }
    Ok(true)
}

#[test]
fn replies_for_an_index_come_to_it_or_to_a_cause(rt: HostRuntime) -> Result<(), Fail> {
    for (reply, wanted) in INDEXES {
        assert!(rt;
            is_index_always(rt.alloc(), reply, wanted)?,
            "{wanted:?}: {reply:?}"
        );
    }
    Ok(())
}

#[test]
fn replies_for_a_shard_come_to_it_or_to_a_cause(rt: HostRuntime) -> Result<(), Fail> {
    for (bytes, reply, wanted) in SHARDS {
        assert!(rt;
            is_shard_always(rt.alloc(), bytes, reply, wanted)?,
            "{wanted:?}: {reply:?}"
        );
    }
    Ok(())
}

const GOOD: &[u8] = b"HTTP/1.1 200 OK\r\nContent-Length: 9\r\n\r\n\x81\xa6shards\x80";

#[test]
fn a_reply_that_ends_early_is_a_bad_one(rt: HostRuntime) -> Result<(), Fail> {
    for cut in 0..GOOD.len() {
        let front = GOOD.get(..cut).unwrap_or_default();
        assert!(rt; is_index_always(rt.alloc(), front, BadReply)?, "{cut}");
    }
    Ok(())
}

// A trick at one call of the connection.
fn line(call: u64, trick: Trick) -> ScriptLine {
    ScriptLine {
        dial: 0,
        call,
        trick,
    }
}

// The good reply comes in pieces of 8 bytes: call 0 sends the request, calls 1 to 5 give its head, and
// calls 5 and 6 its body, which decides it.
#[test]
fn a_connection_that_fails_is_the_cause_before_the_last_byte(rt: HostRuntime) -> Result<(), Fail> {
    for call in 0..7u64 {
        let failed = index_by(rt.alloc(), GOOD, 8, &[line(call, Trick::Fail)])?;
        assert!(rt; failed == Wanted::Link, "call {call}");
    }
    let late = index_by(rt.alloc(), GOOD, 8, &[line(7, Trick::Fail)])?;
    assert!(rt; late == Index(9));
    Ok(())
}

#[test]
fn a_connection_that_waits_changes_nothing(rt: HostRuntime) -> Result<(), Fail> {
    let mut script = Vec::new(rt.alloc());
    for call in 0..50u64 {
        script.push(line(call * 2, Trick::Wait))?;
    }
    for piece in [1, 8, 100] {
        let came = index_by(rt.alloc(), GOOD, piece, &script)?;
        assert!(rt; came == Index(9), "by {piece}");
    }
    Ok(())
}

// A front, how many bytes the reply has in all, and what it comes to; zeros stand behind the front.
const LONG: [(&[u8], usize, Wanted); 4] = [
    (b"HTTP/1.1 404 N\r\n\r\n", 65_537, Absent),
    (b"HTTP/1.1 200 OK\r\n\r\n", 65_537, Format(Wrong, 0)),
    (b"garbage", 65_536, BadReply),
    (b"garbage", 65_537, TooLong),
];

// What a long reply for the index comes to, in pieces of 16 KiB.
fn long(alloc: Global, front: &[u8], size: usize) -> Result<Wanted, Fail> {
    let mut reply = front.to_vec(alloc)?;
    reply.resize(size, 0)?;
    let parcel = begun(alloc, index(alloc)?, reply, usize::MAX, &[])?;
    Ok(came(&*fly(alloc, parcel)?))
}

#[test]
fn heads_have_limits(rt: HostRuntime) -> Result<(), Fail> {
    for (front, size, wanted) in LONG {
        assert!(rt; long(rt.alloc(), front, size)? == wanted, "{size}");
    }
    Ok(())
}
