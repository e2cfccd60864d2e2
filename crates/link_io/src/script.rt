//! A world in memory, whose connections fail and wait by a script.
ghost use Rattle.std.specs.Prelude.{◌≡◌, ◌≤◌, ◌<◌, ◌+◌, ◌++◌, [], ◌∷◌, Some, None, ℕ, List, Option, map, length, IfOk, IfSome, OnErr};
ghost use Rattle.link_io.specs.Origin.{Origin};
ghost use Rattle.link_io.specs.Conn.{IsSameLink, Sends, Steps};
ghost use Rattle.link_io.specs.Script.{ScriptLink, ScriptDialer, script_facts, IsFromWorld, IsCalled, trick_at, next_trick, next_count, sent_by, step_by, dialer_of, reply_for, not_found};

use crate::address::HttpUrl;
use crate::conn::{Conn, Dial, Sent, Step};
use crate::target::Target;
use std::alloc::{AllocError, Global};
use std::marker::Model;

/// What a script does to a call.
#[derive(Clone, Copy, Debug, PartialEq, Eq)]
pub enum Trick {
    /// Nothing came yet.
    Wait,
    /// The call fails.
    Fail,
}

/// A line of a script. Dials, and the calls on one connection, are counted from 0.
#[derive(Clone, Copy, Debug, PartialEq, Eq)]
pub struct ScriptLine {
    pub dial: u64,
    pub call: u64,
    pub trick: Trick,
}

/// A connection in memory.
#[derive(Drop)]
pub struct ScriptConn {
    target: Target,
    number: u64,
    reply: Vec<u8>,
    at: usize,
    piece: usize,
    script: Vec<ScriptLine>,
    calls: u64,
    faults: u64,
    waits: u64,
}

impl Model for ScriptConn {
    ghost use Rattle.std.specs.Prelude.{◌≤◌, take, drop, vec_len};
    ghost use Rattle.link_io.specs.Script.{ScriptLink};

    ghost Value = { ScriptLink };

    ghost view = { λ c. record {
      target = c.target;
      number = c.number;
      given = take c.at c.reply.items;
      left = drop c.at c.reply.items;
      piece = c.piece;
      script = c.script.items;
      calls = c.calls;
      faults = c.faults;
      waits = c.waits;
    } };

    ghost invariant = { λ c. (c.at ≤ vec_len c.reply) × (1 ≤ c.piece) };
}

impl ScriptConn {
    // What the script does to the next call.
    fn next_trick(&mut self) -> Option<Trick>
        ensures value { result ≡ next_trick self.old }
        ensures called { IsCalled self.old self.new }
        ensures kept { script_facts self.new ≡ script_facts self.old }
        ensures left { (self.new.given ≡ self.old.given) × (self.new.left ≡ self.old.left) }
        ensures piece { self.new.piece ≡ self.old.piece }
    {
        let call = self.calls;
        self.calls = call.saturating_add(1);
        trick_in(self.number, call, &self.script)
    }
}

// The trick that a script has for a call.
fn trick_in(number: u64, call: u64, script: &[ScriptLine]) -> Option<Trick>
    ensures { result ≡ trick_at number call script.now }
{
    let mut rest = script;
    'lines: while let [line, tail @ ..] = rest {
        if line.dial == number && line.call == call {
            return Some(line.trick);
        }
        rest = tail;
    }
    None
}

impl Conn for ScriptConn {
    ghost use Rattle.link_io.specs.Script.{script_facts, IsFromWorld, script-front, script-tells};

    ghost facts = { script_facts };

    ghost from = { IsFromWorld };

    fn send(&mut self, bytes: &[u8]) -> Sent
        requires { 0 < length bytes.now }
        ensures same { IsSameLink (script_facts self.old) (script_facts self.new) }
        ensures sends { Sends (script_facts self.old) (script_facts self.new) bytes.now result }
        ensures from { (o : Origin) → IsFromWorld self.old o → IsFromWorld self.new o }

        // By the script.
        ensures exact { result ≡ sent_by (next_trick self.old) (length bytes.now) }
        ensures called { IsCalled self.old self.new }
    {
        match self.next_trick() {
            Some(Trick::Wait) => {
                self.waits = self.waits.saturating_add(1);
                Sent::NotYet
            }
            Some(Trick::Fail) => {
                self.faults = self.faults.saturating_add(1);
                Sent::Failed
            }
            None => Sent::Took(bytes.len()),
        }
    }

    fn step(&mut self, buf: &mut [u8]) -> Step
        requires { 0 < length buf.old }
        ensures same { IsSameLink (script_facts self.old) (script_facts self.new) }
        ensures steps { Steps (script_facts self.old) (script_facts self.new) buf.new result }
        ensures from { (o : Origin) → IsFromWorld self.old o → IsFromWorld self.new o }

        // By the script.
        ensures exact { result
            ≡ step_by (next_trick self.old) (next_count self.old (length buf.old)) }
        ensures called { IsCalled self.old self.new }
    {
        match self.next_trick() {
            Some(Trick::Wait) => {
                self.waits = self.waits.saturating_add(1);
                Step::NotYet
            }
            Some(Trick::Fail) => {
                self.faults = self.faults.saturating_add(1);
                Step::Failed
            }
            None => self.give(buf),
        }
    }

    ghost front = { script-front };

    ghost tells = { script-tells };
}

impl ScriptConn {
    // The next bytes, as many as one step gives.
    fn give(&mut self, buf: &mut [u8]) -> Step
        requires { 0 < length buf.old }
        ensures same { IsSameLink (script_facts self.old) (script_facts self.new) }
        ensures steps { Steps (script_facts self.old) (script_facts self.new) buf.new result }
        ensures from { (o : Origin) → IsFromWorld self.old o → IsFromWorld self.new o }
        ensures exact { result ≡ step_by None (next_count self.old (length buf.old)) }
        ensures calls { self.new.calls ≡ self.old.calls }
        ensures script { self.new.script ≡ self.old.script }
    {
        let left = self.reply.len() - self.at;
        if left == 0 {
            return Step::End;
        }
        let count = left.min(buf.len()).min(self.piece);
        buf[..count].copy_from_slice(&self.reply[self.at..self.at + count]);
        self.at += count;
        Step::Got(count)
    }
}

const NOT_FOUND: &[u8] = b"HTTP/1.1 404 Not Found\r\nContent-Length: 0\r\n\r\n";

/// A world in memory.
#[derive(Drop)]
pub struct ScriptDial {
    replies: Vec<(HttpUrl, Vec<u8>)>,
    piece: usize,
    script: Vec<ScriptLine>,
    dialed: Vec<Target>,
}

impl Model for ScriptDial {
    ghost use Rattle.std.specs.Prelude.{◌≤◌, map};
    ghost use Rattle.link_io.specs.Script.{ScriptDialer};

    ghost Value = { ScriptDialer };

    ghost view = { λ d. record {
      world = map (λ p. (p.0, p.1.items)) d.replies.items;
      piece = d.piece;
      script = d.script.items;
      dialed = d.dialed.items;
    } };

    ghost invariant = { λ d. 1 ≤ d.piece };
}

impl ScriptDial {
    /// A world with these replies, of which the first counts where two have one address. No step gives
    /// more than `piece` bytes; a send takes all. Calls wait and fail by the script.
    pub fn new(
        alloc: Global,
        replies: Vec<(HttpUrl, Vec<u8>)>,
        piece: usize,
        script: Vec<ScriptLine>,
    ) -> ScriptDial
        requires { 1 ≤ piece }
        ensures { result
            ≡ dialer_of (map (λ p. (p.0, p.1.items)) replies.items) piece script.items }
    {
        ScriptDial {
            replies,
            piece,
            script,
            dialed: Vec::new(alloc),
        }
    }
}

impl Dial for ScriptDial {
    ghost use Rattle.std.specs.Prelude.{Some};
    ghost use Rattle.link_io.specs.Origin.{plain};

    type Link = ScriptConn;

    ghost dialed = { λ d. d.dialed };

    ghost origin = { λ d. plain (Some d.world) };

    fn dial(&mut self, alloc: Global, target: &Target) -> Result<ScriptConn, AllocError> {
        let link = ScriptConn {
            target: target.copy(alloc)?,
            number: self.dialed.len() as u64,
            reply: copied_reply(alloc, &self.replies, target.url.as_str())?,
            at: 0,
            piece: self.piece,
            script: self.script.as_slice().to_vec(alloc)?,
            calls: 0,
            faults: 0,
            waits: 0,
        };
        self.dialed.push(target.copy(alloc)?)?;
        Ok(link)
    }
}

// A copy of the reply of a world for an address.
fn copied_reply(
    alloc: Global,
    replies: &[(HttpUrl, Vec<u8>)],
    url: &str,
) -> Result<Vec<u8>, AllocError>
    ensures { IfOk result (λ reply.
        reply.items ≡ reply_for url.now (map (λ p. (p.0, p.1.items)) replies.now)) }
{
    let reply = reply_in(replies, url);
    reply.to_vec(alloc)
}

#[tactic(auto, unfolding(crate::specs::Script::not_found))]
// The reply of a world for an address.
fn reply_in<'a>(replies: &'a [(HttpUrl, Vec<u8>)], url: &str) -> &'a [u8]
    ensures { result.now ≡ reply_for url.now (map (λ p. (p.0, p.1.items)) replies.now) }
{
    let mut rest = replies;
    'replies: while let [reply, tail @ ..] = rest {
        if reply.0.as_str() == url {
            return &reply.1;
        }
        rest = tail;
    }
    NOT_FOUND
}

#[cfg(test)]
mod tests {
    use super::*;
    use crate::target::Key;
    use digest_gate::Digest;
    use std::test::Fail;

    fn url(alloc: Global) -> Result<HttpUrl, Fail> {
        Ok(
            HttpUrl::read(alloc, "http://h/a")
                .ok()
                .ok_or("it is an address")?,
        )
    }

    // A world with one reply of seven bytes, given by three at most.
    fn world(alloc: Global, script: &[ScriptLine]) -> Result<ScriptDial, Fail> {
        let mut replies = Vec::new(alloc);
        replies.push((url(alloc)?, b"1234567".to_vec(alloc)?))?;
        Ok(ScriptDial::new(alloc, replies, 3, script.to_vec(alloc)?))
    }

    // The next connection of a world to its reply.
    fn link(alloc: Global, dial: &mut ScriptDial) -> Result<ScriptConn, Fail> {
        let target = Target {
            key: Key::Shard(Digest([0; 32])),
            url: url(alloc)?,
        };
        Ok(dial.dial(alloc, &target)?)
    }

    fn send(link: &mut ScriptConn) -> Sent {
        link.send(b"GET")
    }

    fn step(link: &mut ScriptConn) -> Step {
        let mut piece = [0; 10];
        link.step(&mut piece)
    }

    // What the steps of a connection give, one behind the other.
    const STEPS: [Step; 5] = [
        Step::Got(3),
        Step::Got(3),
        Step::Got(1),
        Step::End,
        Step::End,
    ];

    #[test]
    fn a_reply_is_given_piece_by_piece(rt: HostRuntime) -> Result<(), Fail> {
        let mut link = link(rt.alloc(), &mut world(rt.alloc(), &[])?)?;
        for wanted in STEPS {
            assert!(rt; step(&mut link) == wanted);
        }
        Ok(())
    }

    // Calls of the second connection that wait, and one that fails.
    const SCRIPT: [ScriptLine; 3] = [
        ScriptLine {
            dial: 1,
            call: 0,
            trick: Trick::Wait,
        },
        ScriptLine {
            dial: 1,
            call: 2,
            trick: Trick::Wait,
        },
        ScriptLine {
            dial: 1,
            call: 3,
            trick: Trick::Fail,
        },
    ];

    // Whether a connection does as no line of a script says.
    fn is_left_alone(link: &mut ScriptConn) -> bool {
        send(link) == Sent::Took(3) && step(link) == Step::Got(3)
    }

    // Whether a connection does as the script says of the second one.
    fn is_played(link: &mut ScriptConn) -> bool {
        send(link) == Sent::NotYet
            && send(link) == Sent::Took(3)
            && step(link) == Step::NotYet
            && step(link) == Step::Failed
    }

    #[test]
    fn calls_wait_and_fail_by_the_script(rt: HostRuntime) -> Result<(), Fail> {
        let mut dial = world(rt.alloc(), &SCRIPT)?;
        assert!(rt; is_left_alone(&mut link(rt.alloc(), &mut dial)?));
        assert!(rt; is_played(&mut link(rt.alloc(), &mut dial)?));
        Ok(())
    }
}
