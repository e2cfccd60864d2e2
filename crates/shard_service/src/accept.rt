//! What gives a server its connections.
ghost use Rattle.std.specs.Prelude.{◌≡◌, ◌≤◌, ℕ, IfOk, OnErr};
ghost use Rattle.gateway_words.specs.Causes.{Rose};
ghost use Rattle.shard_service.specs.Serving.{one_more};

use std::sync::Wait;
use tokio::io::{AsyncRead, AsyncWrite};

/// The acceptor failed, and its count of faults rose.
#[derive(Clone, Copy, Debug, PartialEq, Eq)]
pub struct Failed;

/// What gives connections. It may wait for the next one without end.
pub trait Accept {
    /// A connection.
    type Stream: AsyncRead + AsyncWrite;

    /// How many connections were given. It stands still at 18,446,744,073,709,551,615.
    ghost accepted: { Self → ℕ };

    /// How often a call has failed. It never falls.
    ghost faults: { Self → ℕ };

    /// Begins to take connections at an address, as `127.0.0.1:8000`.
    ///
    /// `Failed` where the address is none, or is taken, or the system refuses it.
    fn listen<R: Wait>(&mut self, rt: &R, addr: &str) -> Result<(), Failed>
        ensures same { accepted self.new ≡ accepted self.old }

        ensures later { faults self.old ≤ faults self.new }
        ensures cause { OnErr result (Rose (faults self.old) (faults self.new)) };

    /// Waits for the next connection and gives it.
    ///
    /// `Failed` where none can come any more.
    fn accept<R: Wait>(&mut self, rt: &R) -> Result<Self::Stream, Failed>
        ensures ok { IfOk result (λ _. accepted self.new ≡ one_more (accepted self.old)) }
        ensures none { OnErr result (accepted self.new ≡ accepted self.old) }

        ensures later { faults self.old ≤ faults self.new }
        ensures cause { OnErr result (Rose (faults self.old) (faults self.new)) };
}
