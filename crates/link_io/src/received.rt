//! The bytes that came over a connection, with what is known of their head.

ghost use Rattle.std.specs.Prelude.{◌≡◌, ◌<◌, ◌≤◌, ◌+◌, [], ℕ, length, take, drop, IfOk, OnErr, vec_len};
ghost use Rattle.http_head.specs.Reply.{IsReply};
ghost use Rattle.link_io.specs.Origin.{Origin};
ghost use Rattle.link_io.specs.Conn.{IsSameLink, Steps};
ghost use Rattle.link_io.specs.Parcel.{StepsBehind, count_in};

use crate::conn::{Conn, Step};
use http_head::{Head, Reply, read_head, read_on, reply_of};
use std::alloc::{AllocError, Global};
use std::marker::Model;

/// The bytes that came over a connection. The head is read once: what is known of it stands beside the
/// bytes.
#[derive(Drop)]
pub(crate) struct Received {
    bytes: Vec<u8>,
    head: Option<Head>,
}

impl Model for Received {
    ghost use Rattle.std.specs.Prelude.{ℕ, List};
    ghost use Rattle.http_head.specs.Head.{IsReading};

    ghost Value = { List ℕ };

    ghost view = { λ r. r.bytes.items };

    ghost invariant = { λ r. IsReading r.bytes.items r.head };
}

impl Received {
    /// No bytes.
    pub(crate) fn new(alloc: Global) -> Received
        ensures { result ≡ [] }
    {
        Received {
            bytes: Vec::new(alloc),
            head: read_head(&[]),
        }
    }

    /// The bytes.
    pub(crate) fn bytes(&self) -> &[u8]
        ensures { result.now ≡ self.now }
    {
        &self.bytes
    }

    /// What they are as a reply, where they have ended or may go on. It looks at no byte.
    pub(crate) fn reply(&self, ended: bool) -> Reply
        ensures { IsReply self.now ended result }
    {
        reply_of(self.head, self.bytes.len(), ended)
    }

    /// One step of a connection, with room for so many bytes behind those that came before. They come
    /// into the vector's own room, and the head is read where it isn't known yet.
    pub(crate) fn step<L: Conn>(&mut self, link: &mut L, room: usize) -> Result<Step, AllocError>
        requires some { 0 < room }
        ensures ok { IfOk result
            (StepsBehind room (L.facts link.old) (L.facts link.new) self.old self.new) }
        ensures from { (o : Origin) → L.from link.old o → L.from link.new o }
        ensures err { OnErr result ((link.new ≡ link.old) × (self.new ≡ self.old)) }
    {
        let before = self.bytes.len();
        let answer = step_behind(link, &mut self.bytes, room)?;
        self.head = read_on(&self.bytes, before, self.head);
        Ok(answer)
    }
}

// One step of a connection, behind the bytes that came before.
fn step_behind<L: Conn>(link: &mut L, bytes: &mut Vec<u8>, room: usize) -> Result<Step, AllocError>
    requires some { 0 < room }
    ensures ok { IfOk result
        (StepsBehind room (L.facts link.old) (L.facts link.new) bytes.old.items bytes.new.items) }
    ensures from { (o : Origin) → L.from link.old o → L.from link.new o }
    ensures front { IfOk result (λ _.
        take (length bytes.old.items) bytes.new.items ≡ bytes.old.items) }
    ensures err { OnErr result ((link.new ≡ link.old) × (bytes.new.items ≡ bytes.old.items)) }
{
    let before = bytes.len();
    add_room(bytes, room)?;
    let answer = step_at(link, bytes.as_mut_slice(), before);
    bytes.truncate(before + count_in(answer));
    Ok(answer)
}

// Puts so many bytes behind others; what stands in them doesn't matter.
fn add_room(bytes: &mut Vec<u8>, room: usize) -> Result<(), AllocError>
    ensures front { IfOk result (λ _.
        take (length bytes.old.items) bytes.new.items ≡ bytes.old.items) }
    ensures room { IfOk result (λ _. length bytes.new.items ≡ length bytes.old.items + room) }
    ensures err { OnErr result (bytes.new.items ≡ bytes.old.items) }
{
    bytes.reserve(room)?;
    bytes.resize(bytes.len() + room, 0)
}

// One step of a connection into what stands behind the first bytes of a buffer.
fn step_at<L: Conn>(link: &mut L, buffer: &mut [u8], before: usize) -> Step
    requires some { before < length buffer.old }
    ensures same { IsSameLink (L.facts link.old) (L.facts link.new) }
    ensures steps { Steps (L.facts link.old) (L.facts link.new) (drop before buffer.new) result }
    ensures from { (o : Origin) → L.from link.old o → L.from link.new o }
    ensures front { take before buffer.new ≡ take before buffer.old }
    ensures room { length buffer.new ≡ length buffer.old }
{
    link.step(&mut buffer[before..])
}

// How many bytes a step gave.
fn count_in(answer: Step) -> usize
    ensures { result ≡ count_in answer }
{
    match answer {
        Step::Got(count) => count,
        Step::End | Step::NotYet | Step::Failed => 0,
    }
}
