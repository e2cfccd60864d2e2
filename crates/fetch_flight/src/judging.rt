//! What a parcel comes to.

ghost use Rattle.std.specs.Prelude.{◌≡◌, ◌≢◌, ◌⊎◌, ◌≤◌, ℕ, List, true, false, drop, length, Some, IfOk, OnOk, MatchResult};
ghost use Rattle.digest_gate.specs.Digest.{IsDigest, digest_of};
ghost use Rattle.link_io.specs.declared.target.Key.TheVariants as key;
ghost use Rattle.link_io.specs.Parcel.{IsParcel};
ghost use Rattle.http_head.specs.Reply.{IsDecidedAs, HasBody, framed_bytes};
ghost use Rattle.http_reply.specs.Going.{IsDecided};
ghost use Rattle.fetch_flight.specs.Cause.{IsCause, cause_of_reply, IsReplyCause};
ghost use Rattle.fetch_flight.specs.Pins.{IsIndexKey};
ghost use Rattle.link_io.specs.Target.{IsPlain};
ghost use Rattle.fetch_flight.specs.Verdict.{IsVerdict, IsLandedFrom};

use crate::causes::{Cause, Malformed};
use crate::verdicts::{HeldShard, PinnedIndex, Verdict, Wreck};
use channel_url::shards_base;
use digest_gate::{Body, Digest, Mismatch};
use http_reply::{Frame, Reply};
use link_io::{Conn, Key, Parcel, UrlRefusal};
use shard_file::{Leaf, LeafRefusal};
use shard_index::{Index, IndexRefusal};
use std::alloc::{AllocError, Global};
use std::sync::Arc;

/// What a parcel comes to that is broken or decided: the index or the shard that its body spells, or
/// a wreck with its cause. The body of a shard is copied once, and digested once.
///
/// On `AllocError` the parcel is spent. (`docs/FORMATS.md`, "Replies"; CEP 16.)
#[tactic(auto, using(crate::proofs::FlightLemmas::landed_from))]
pub fn judge<L: Conn>(alloc: Global, parcel: Parcel<L>) -> Result<Arc<Verdict<L>>, AllocError>
    requires settled { (parcel.broken ≡ true) ⊎ IsDecided parcel }
    requires plain { IsPlain parcel.target }
    ensures verdict { IfOk result (λ verdict. IsVerdict parcel verdict.value) }
    ensures landed { IfOk result (λ verdict.
        IsLandedFrom L.facts L.from parcel verdict.value) }
{
    let verdict = judged(alloc, parcel)?;
    Ok(Arc::new(alloc, verdict)?)
}

// The verdict itself.
fn judged<L: Conn>(alloc: Global, parcel: Parcel<L>) -> Result<Verdict<L>, AllocError>
    requires settled { (parcel.broken ≡ true) ⊎ IsDecided parcel }
    requires plain { IsPlain parcel.target }
    ensures { IfOk result (IsVerdict parcel) }
{
    if parcel.broken() {
        return Ok(wreck(parcel, Cause::Link));
    }
    match settled_reply(&parcel) {
        Ok((len, frame)) => judge_body(alloc, parcel, len, frame),
        Err(cause) => Ok(wreck(parcel, cause)),
    }
}

// A parcel without a value.
fn wreck<L: Conn>(parcel: Parcel<L>, cause: Cause) -> Verdict<L>
    requires { IsCause parcel cause }
    ensures { IsVerdict parcel result }
{
    let _known = parcel.broken();
    Verdict::Wreck(Wreck { parcel, cause })
}

// The reply of a decided parcel.
fn decided_reply<L: Conn>(parcel: &Parcel<L>) -> Reply
    requires { IsDecided parcel.now }
    ensures { IsDecidedAs parcel.now.received parcel.now.ended result }
{
    parcel.reply()
}

// The body of a decided parcel, or the cause that its reply is.
fn settled_reply<L: Conn>(parcel: &Parcel<L>) -> Result<(u64, Frame), Cause>
    requires settled { IsDecided parcel.now }
    ensures { MatchResult result
        (λ p. IsDecidedAs parcel.now.received parcel.now.ended (Reply.Body p.0 p.1))
        (IsReplyCause parcel.now) }
{
    match decided_reply(parcel) {
        Reply::Body { head_len, frame } => Ok((head_len, frame)),
        Reply::Absent => Err(Cause::Absent),
        Reply::Status(status) => Err(Cause::Status(status)),
        Reply::TooLong => Err(Cause::TooLong),
        Reply::BadReply => Err(Cause::BadReply),
        Reply::Partial => unreachable!(),
    }
}

// What a body comes to.
fn judge_body<L: Conn>(
    alloc: Global,
    parcel: Parcel<L>,
    len: u64,
    frame: Frame,
) -> Result<Verdict<L>, AllocError>
    requires plain { IsPlain parcel.target }
    requires whole { parcel.broken ≡ false }
    requires decided { IsDecidedAs parcel.received parcel.ended (Reply.Body len frame) }
    ensures { IfOk result (IsVerdict parcel) }
{
    match &parcel.target().key {
        Key::Shard(digest) => {
            let digest = *digest;
            judge_shard(alloc, parcel, digest, len, frame)
        }
        Key::Index(_) => judge_index(alloc, parcel, len, frame),
    }
}

// What the body of a shard comes to.
fn judge_shard<L: Conn>(
    alloc: Global,
    parcel: Parcel<L>,
    digest: Digest,
    len: u64,
    frame: Frame,
) -> Result<Verdict<L>, AllocError>
    requires key { parcel.target.key ≡ key.Shard digest }
    requires whole { parcel.broken ≡ false }
    requires decided { IsDecidedAs parcel.received parcel.ended (Reply.Body len frame) }
    ensures { IfOk result (IsVerdict parcel) }
{
    let bytes = copied(alloc, body_in(parcel.received(), len, frame))?;
    match Body::check(bytes, digest) {
        Ok(body) => match Leaf::read(alloc, body) {
            Ok(leaf) => Ok(Verdict::Shard(held(digest, leaf))),
            Err(LeafRefusal::Fault(fault, _)) => Ok(wreck(
                parcel,
                Cause::Malformed(Malformed::Format(fault)),
            )),
            Err(LeafRefusal::Memory(_)) => Err(AllocError),
        },
        Err(Mismatch { want, got, .. }) => Ok(wreck(parcel, Cause::Digest { want, got })),
    }
}

// A copy of a body.
fn copied(alloc: Global, body: &[u8]) -> Result<Vec<u8>, AllocError>
    ensures { IfOk result (λ bytes. bytes.items ≡ body.now) }
{
    let mut bytes = Vec::with_capacity(alloc, body.len())?;
    bytes.extend_from_slice(body)?;
    Ok(bytes)
}

// A shard under the key of its digest.
fn held(digest: Digest, leaf: Leaf) -> HeldShard
    requires { digest ≡ digest_of leaf.bytes }
    ensures { result ≡ record { key = key.Shard digest; leaf = leaf; size = length leaf.bytes } }
{
    let size = leaf.shard().bytes().len() as u64;
    HeldShard {
        key: Key::Shard(digest),
        leaf,
        size,
    }
}

// What the body of an index comes to.
fn judge_index<L: Conn>(
    alloc: Global,
    parcel: Parcel<L>,
    len: u64,
    frame: Frame,
) -> Result<Verdict<L>, AllocError>
    requires key { IsIndexKey parcel.target.key }
    requires plain { IsPlain parcel.target }
    requires whole { parcel.broken ≡ false }
    requires decided { IsDecidedAs parcel.received parcel.ended (Reply.Body len frame) }
    ensures { IfOk result (IsVerdict parcel) }
{
    let body = body_in(parcel.received(), len, frame);
    let size = body.len() as u64;
    match Index::read(alloc, body) {
        Ok(index) => match shards_base(alloc, &parcel.target().url, index.shards_base_url()) {
            Ok(shards_base) => Ok(Verdict::Index(PinnedIndex {
                parcel,
                index,
                shards_base,
                size,
            })),
            Err(UrlRefusal::Fault(fault)) => Ok(wreck(
                parcel,
                Cause::Malformed(Malformed::Base(fault)),
            )),
            Err(UrlRefusal::Memory) => Err(AllocError),
        },
        Err(IndexRefusal::Fault(fault)) => Ok(wreck(
            parcel,
            Cause::Malformed(Malformed::Format(fault)),
        )),
        Err(IndexRefusal::Memory) => Err(AllocError),
    }
}

// The bytes of a body.
fn body_in(received: &[u8], len: u64, frame: Frame) -> &[u8]
    ensures { result.now ≡ framed_bytes frame (drop len received.now) }
{
    let behind = behind_head(received, len as usize);
    match frame {
        Frame::Length(n) => {
            if n < behind.len() as u64 {
                &behind[..n as usize]
            } else {
                behind
            }
        }
        Frame::ToEnd => behind,
    }
}

// What stands behind a head of that length.
#[tactic(auto, using(std::proofs::lemmas::List::drop_all))]
fn behind_head(received: &[u8], len: usize) -> &[u8]
    ensures { result.now ≡ drop len received.now }
{
    if len < received.len() {
        &received[len..]
    } else {
        &[]
    }
}
