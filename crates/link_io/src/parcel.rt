//! A connection with what came over it.
ghost use Rattle.std.specs.Prelude.{◌≡◌, ◌<◌, ◌≤◌, ℕ, List, length, false, IfOk, OnErr};
ghost use Rattle.link_io.specs.Origin.{Origin};
ghost use Rattle.link_io.specs.Conn.{IsSameLink, Sends, Steps, IsFresh};
ghost use Rattle.http_head.specs.Reply.{IsReply};
ghost use Rattle.link_io.specs.Parcel.{Packed, IsParcel, new_parcel, after_send, after_step, Stepped};

use crate::conn::{Conn, Sent, Step};
use crate::received::Received;
use crate::target::Target;
use http_head::Reply;
use std::alloc::{AllocError, Global};
use std::marker::Model;

/// A connection with the bytes sent and received on it: one exchange in progress. Contracts see it as
/// `Packed`, with what is known of each (`IsParcel`).
#[derive(Drop)]
pub struct Parcel<L: Conn> {
    target: Target,
    link: L,
    sent: usize,
    received: Received,
    ended: bool,
    broken: bool,
}

impl<L: Conn> Model for Parcel<L> {
    ghost use Rattle.http_head.specs.Reply.{IsReply};
    ghost use Rattle.link_io.specs.Parcel.{Packed, IsParcel};

    ghost Value = { Packed L };

    ghost view = { λ p. record { target = p.target; link = p.link; sent = p.sent; received = p.received; ended = p.ended; broken = p.broken } };

    ghost invariant = { λ p. IsParcel L.facts (record { target = p.target; link = p.link; sent = p.sent; received = p.received; ended = p.ended; broken = p.broken }) };
}

impl<L: Conn> Parcel<L> {
    /// A parcel over a connection of which no use was made.
    pub fn new(alloc: Global, target: Target, link: L) -> Parcel<L>
        requires { (number : ℕ) × IsFresh (L.facts link) target number }
        ensures { result ≡ new_parcel target link }
    {
        Parcel {
            target,
            link,
            sent: 0,
            received: Received::new(alloc),
            ended: false,
            broken: false,
        }
    }

    /// What it is for.
    pub fn target(&self) -> &Target
        ensures value { result.now ≡ self.now.target }
        ensures known { IsParcel L.facts self.now }
    {
        &self.target
    }

    /// Its connection.
    pub fn link(&self) -> &L
        ensures value { result.now ≡ self.now.link }
        ensures known { IsParcel L.facts self.now }
    {
        &self.link
    }

    /// The bytes that came.
    pub fn received(&self) -> &[u8]
        ensures value { result.now ≡ self.now.received }
        ensures known { IsParcel L.facts self.now }
    {
        self.received.bytes()
    }

    /// What the bytes that came are as a reply. It looks at none of them: what is known of their head
    /// is kept.
    pub fn reply(&self) -> Reply
        ensures { IsReply self.now.received self.now.ended result }
    {
        self.received.reply(self.ended)
    }

    /// How many bytes were sent.
    pub fn sent(&self) -> usize
        ensures { result ≡ self.now.sent }
    {
        self.sent
    }

    /// Whether an end came.
    pub fn ended(&self) -> bool
        ensures value { result ≡ self.now.ended }
        ensures known { IsParcel L.facts self.now }
    {
        self.ended
    }

    /// Whether its connection failed.
    pub fn broken(&self) -> bool
        ensures value { result ≡ self.now.broken }
        ensures known { IsParcel L.facts self.now }
    {
        self.broken
    }

    /// One call of `send` on the connection.
    pub fn send(&mut self, bytes: &[u8]) -> Sent
        requires some { 0 < length bytes.now }
        requires whole { self.old.broken ≡ false }
        ensures same { IsSameLink (L.facts self.old.link) (L.facts self.new.link) }
        ensures sends { Sends (L.facts self.old.link) (L.facts self.new.link) bytes.now result }
        ensures after { self.new ≡ after_send self.old self.new.link result }
        ensures from { (o : Origin) → L.from self.old.link o → L.from self.new.link o }
    {
        let answer = self.link.send(bytes);
        match answer {
            Sent::Took(count) => self.sent = self.sent.saturating_add(count),
            Sent::NotYet => {}
            Sent::Failed => self.broken = true,
        }
        answer
    }

    /// One call of `step` on the connection, with room for so many bytes more. No byte is copied, and
    /// none that came before is looked at, but those of a head that isn't whole yet: at most 65,536.
    ///
    /// `AllocError` where memory for the room isn't there: no call was made, and the parcel is as
    /// before.
    pub fn step(&mut self, room: usize) -> Result<Step, AllocError>
        requires some { 0 < room }
        requires whole { self.old.broken ≡ false }
        ensures ok { IfOk result (Stepped L.facts room self.old self.new) }
        ensures from { (o : Origin) → L.from self.old.link o → L.from self.new.link o }
        ensures err { OnErr result (self.new ≡ self.old) }
    {
        let answer = self.received.step(&mut self.link, room)?;
        match answer {
            Step::Got(_) => {}
            Step::NotYet => {}
            Step::End => self.ended = true,
            Step::Failed => self.broken = true,
        }
        Ok(answer)
    }
}
