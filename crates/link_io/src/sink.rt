//! Where bytes go.
ghost use Rattle.std.specs.Prelude.{◌≡◌, ℕ, ◌<◌, List, Option, length, IfOk, OnErr};
ghost use Rattle.gateway_words.specs.Causes.{HasCause};
ghost use Rattle.link_io.specs.Sink.{Writes};

use crate::Failed;

/// What takes bytes, a piece at a time.
pub trait Sink {
    /// The bytes that were taken so far, where the sink tells them.
    ghost written: { Self → Option (List ℕ) };

    /// How often a write has failed. It never falls.
    ghost faults: { Self → ℕ };

    /// How many of the first bytes it took, at least one.
    ///
    /// `Failed` where the outside failed: none was taken.
    fn write(&mut self, bytes: &[u8]) -> Result<usize, Failed>
        requires { 0 < length bytes.now }

        ensures ok { IfOk result (λ count.
            Writes (written self.old) (written self.new) count bytes.now) }
        ensures err { OnErr result (written self.new ≡ written self.old) }

        ensures cause { HasCause (faults self.old) (faults self.new) result };
}
