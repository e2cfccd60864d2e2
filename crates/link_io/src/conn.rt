//! Connections, and what makes them.
ghost use Rattle.std.specs.Prelude.{◌≡◌, ℕ, ◌<◌, ◌+◌, ◌++◌, [], ◌∷◌, List, length, Some, Option, IfOk, OnErr};
ghost use Rattle.link_io.specs.Conn.{IsSameLink, Sends, Steps, IsFresh, IsFront, TellsReply};

use crate::target::Target;
use std::alloc::{AllocError, Global};

/// What came of sending a piece.
#[derive(Clone, Copy, Debug, PartialEq, Eq)]
pub enum Sent {
    /// So many of its first bytes were taken.
    Took(usize),
    /// None yet.
    NotYet,
    /// The outside failed.
    Failed,
}

/// What came of a step.
#[derive(Clone, Copy, Debug, PartialEq, Eq)]
pub enum Step {
    /// So many bytes stand at the front of the buffer.
    Got(usize),
    /// There are no more.
    End,
    /// None yet.
    NotYet,
    /// The outside failed.
    Failed,
}

/// A connection.
pub trait Conn: Drop {
    ghost use Rattle.std.specs.Prelude.{◌≡◌, Some};
    ghost use Rattle.link_io.specs.Origin.{Origin, Replies, plain};
    ghost use Rattle.link_io.specs.Conn.{LinkFacts, IsFront, TellsReply};

    /// What contracts see of it.
    ghost facts: { Self → LinkFacts };

    /// Whether it comes from an origin.
    ghost from: { Self → Origin → Type 0 };

    /// Sends some of the first bytes of a piece.
    fn send(&mut self, bytes: &[u8]) -> Sent
        requires { 0 < length bytes.now }
        ensures same { IsSameLink (facts self.old) (facts self.new) }
        ensures sends { Sends (facts self.old) (facts self.new) bytes.now result }
        ensures from { (o : Origin) → from self.old o → from self.new o };

    /// Puts the next bytes at the front of a buffer.
    fn step(&mut self, buf: &mut [u8]) -> Step
        requires { 0 < length buf.old }
        ensures same { IsSameLink (facts self.old) (facts self.new) }
        ensures steps { Steps (facts self.old) (facts self.new) buf.new result }
        ensures from { (o : Origin) → from self.old o → from self.new o };

    /// What was given is a front of the whole.
    ghost front: { (c : Self) → IsFront (facts c).given (facts c).whole };

    /// A connection that comes from a world alone tells its bytes.
    ghost tells: { (c : Self) (w : Replies) → from c (plain (Some w)) → TellsReply w (facts c) };
}

/// What makes connections.
pub trait Dial: Send + Drop {
    ghost use Rattle.std.specs.Prelude.{List};
    ghost use Rattle.link_io.specs.declared.target.Target.{Target};
    ghost use Rattle.link_io.specs.Origin.{Origin};

    /// Its connections.
    type Link: Conn + Send + Sync;

    /// The targets that were dialed, in order.
    ghost dialed: { Self → List Target };

    /// Where its connections come from.
    ghost origin: { Self → Origin };

    /// A connection to a target.
    fn dial(&mut self, alloc: Global, target: &Target) -> Result<Self::Link, AllocError>
        ensures origin { origin self.new ≡ origin self.old }
        ensures dialed { IfOk result (λ _. dialed self.new ≡ dialed self.old ++ target.now ∷ []) }
        ensures fresh { IfOk result (λ l.
            IsFresh (Self.Link.facts l) target.now (length (dialed self.old))) }
        ensures from { IfOk result (λ l. Self.Link.from l (origin self.old)) }
        ensures err { OnErr result (dialed self.new ≡ dialed self.old) };
}
