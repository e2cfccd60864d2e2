//! Where bytes come from.
ghost use Rattle.std.specs.Prelude.{◌≡◌, ℕ, ◌<◌, List, Option, length, IfOk, OnErr};
ghost use Rattle.gateway_words.specs.Causes.{HasCause};
ghost use Rattle.link_io.specs.Source.{Reads};

/// A read or a write failed, and its count of faults rose.
#[derive(Clone, Copy, Debug, PartialEq, Eq)]
pub struct Failed;

/// What gives bytes, a piece at a time.
pub trait Source {
    /// The bytes that are still to come, where the source tells them.
    ghost left: { Self → Option (List ℕ) };

    /// How often a read has failed. It never falls.
    ghost faults: { Self → ℕ };

    /// How many bytes it put at the front of the buffer; 0 is the end of the input. What stands
    /// behind them in the buffer is left open.
    ///
    /// `Failed` where the outside failed: nothing was read.
    fn read(&mut self, buf: &mut [u8]) -> Result<usize, Failed>
        requires { 0 < length buf.old }

        ensures ok { IfOk result (λ count. Reads (left self.old) (left self.new) count buf.new) }
        ensures err { OnErr result (left self.new ≡ left self.old) }

        ensures cause { HasCause (faults self.old) (faults self.new) result };
}
