//! `bench_tool flight TURNS < FILE` takes the pieces of `shards`. It serves each piece over a connection
//! in memory, 16 KiB a step at most, fetches it as the shard with its digest TURNS times, and prints how
//! many of the fetches came to a shard. `bench_tool flight index TURNS < FILE` fetches the pieces as
//! indexes instead (`bench/flight`).

ghost use Rattle.std.specs.Prelude.{◌≡◌, ◌⊎◌, false, true, IfOk};
ghost use Rattle.link_io.specs.Target.{IsPlain};
ghost use Rattle.http_reply.specs.Going.{IsUndecided, IsDecided, IsGoing};

use crate::shards::first_piece;
use crate::words::Words;
use anyhow::anyhow;
use digest_gate::Digest;
use fetch_flight::{Progress, STEP_ROOM, Verdict, advance, judge};
use http_head::nothing_is_decided_before_the_first_byte;
use link_io::{Dial, HttpUrl, Key, Parcel, ScriptConn, ScriptDial, Target};
use std::alloc::Global;

// What the pieces are fetched as.
#[derive(Clone, Copy, PartialEq, Eq)]
enum Kind {
    Shard,
    Index,
}

// The address of the one reply.
fn address(alloc: Global) -> anyhow::Result<HttpUrl> {
    HttpUrl::read(alloc, "http://h/c/noarch/shards/x.msgpack").map_err(|_| anyhow!(
        "it is an address"
    ))
}

// The one that serves some bytes, with their length.
fn server(alloc: Global, bytes: &[u8]) -> anyhow::Result<ScriptDial> {
    let head = format!(in alloc;
        "HTTP/1.1 200 OK\r\nContent-Length: {}\r\n\r\n",
        bytes.len()
    )?;
    let mut reply = head.as_bytes().to_vec(alloc)?;
    reply.extend_from_slice(bytes)?;
    let mut replies = Vec::new(alloc);
    replies.push((address(alloc)?, reply))?;
    Ok(ScriptDial::new(alloc, replies, STEP_ROOM, Vec::new(alloc)))
}

// What is fetched there.
fn target(alloc: Global, kind: Kind, digest: Digest) -> anyhow::Result<Target>
    ensures plain { IfOk result IsPlain }
{
    let url = address(alloc)?;
    let key = match kind {
        Kind::Shard => Key::Shard(digest),
        Kind::Index => Key::Index(url.copy(alloc)?),
    };
    Ok(Target { key, url })
}

// A parcel over which nothing went.
fn begun(
    alloc: Global,
    server: &mut ScriptDial,
    target: Target,
) -> anyhow::Result<Parcel<ScriptConn>>
    requires plain { IsPlain target }
    ensures whole { IfOk result (λ parcel. parcel.broken ≡ false) }
    ensures undecided { IfOk result IsUndecided }
    ensures plain { IfOk result (λ parcel. IsPlain parcel.target) }
{
    nothing_is_decided_before_the_first_byte();
    let link = server.dial(alloc, &target)?;
    Ok(Parcel::new(alloc, target, link))
}

// Whether a fetch came to a value.
fn has_value(verdict: &Verdict<ScriptConn>) -> bool {
    match verdict {
        Verdict::Index(_) | Verdict::Shard(_) => true,
        Verdict::Wreck(_) => false,
    }
}

// One call more on a parcel that can go on; whether it came to something.
fn is_over(alloc: Global, parcel: &mut Parcel<ScriptConn>) -> anyhow::Result<bool>
    requires whole { parcel.old.broken ≡ false }
    requires undecided { IsUndecided parcel.old }
    ensures target { parcel.new.target ≡ parcel.old.target }
    ensures going { IfOk result (λ over. over ≡ false → IsGoing parcel.new) }
    ensures over { IfOk result (λ over.
        over ≡ true → (parcel.new.broken ≡ true) ⊎ IsDecided parcel.new) }
{
    match advance(alloc, parcel) {
        Progress::Took(_) => Ok(false),
        Progress::NotYet => Ok(false),
        Progress::Ready => Ok(true),
        Progress::Failed => Ok(true),
        Progress::Memory => Err(anyhow!("memory ran out")),
    }
}

// The most calls of a fetch: one for the request, and those for 64 GiB.
const CALLS: u64 = 4_194_304;

// Whether a parcel comes to a value.
fn comes_to_value(alloc: Global, mut parcel: Parcel<ScriptConn>) -> anyhow::Result<bool>
    requires whole { parcel.broken ≡ false }
    requires undecided { IsUndecided parcel }
    requires plain { IsPlain parcel.target }
{
    for _ in 0..CALLS {
        if is_over(alloc, &mut parcel)? {
            return Ok(has_value(&*judge(alloc, parcel)?));
        }
    }
    Err(anyhow!("a fetch has no end"))
}

// How many of so many fetches of some bytes came to a value.
fn fetched(alloc: Global, kind: Kind, bytes: &[u8], turns: u32) -> anyhow::Result<u64> {
    let digest = Digest::of(bytes);
    let mut server = server(alloc, bytes)?;
    let mut values = 0u64;
    for _ in 0..turns {
        let parcel = begun(alloc, &mut server, target(alloc, kind, digest)?)?;
        if comes_to_value(alloc, parcel)? {
            values = values.saturating_add(1);
        }
    }
    Ok(values)
}

// The same of all pieces.
fn fetched_all(alloc: Global, kind: Kind, input: &[u8], turns: u32) -> anyhow::Result<u64> {
    let mut values = 0u64;
    let mut left = input;
    for _ in 0..input.len() {
        let Some((piece, rest)) = first_piece(left) else {
            break;
        };
        values = values.saturating_add(fetched(alloc, kind, piece, turns)?);
        left = rest;
    }
    Ok(values)
}

/// Fetches the pieces of the input, and prints how many fetches came to a value.
pub(crate) fn run(
    rt: &(impl Print + AllocGlobal),
    words: Words,
    input: &[u8],
) -> anyhow::Result<()> {
    let (kind, turns) = match words.first() {
        Some("index") => (Kind::Index, words.turns_behind()?),
        Some(_) | None => (Kind::Shard, words.turns()?),
    };
    let values = fetched_all(rt.alloc(), kind, input, turns)?;
    println!(rt; "values {values} turns {turns}")?;
    Ok(())
}
