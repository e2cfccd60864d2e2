//! What a flight left behind.

use crate::target::Key;

/// What a flight left behind, as a table of flights sees it.
pub trait Landed: Drop {
    ghost use Rattle.std.specs.Prelude.{◌≡◌, ℕ, Option, None, true, is_some};
    ghost use Rattle.link_io.specs.declared.target.Key.{Key};
    ghost use Rattle.link_io.specs.Origin.{Origin};

    /// Under which key it was fetched.
    ghost key: { Self → Key };

    /// How many bytes it is kept with; none where it isn't kept.
    ghost size: { Self → Option ℕ };

    /// The number of the connection of which it was made, where it is told.
    ghost number: { Self → Option ℕ };

    /// Whether the connection that it keeps comes from an origin.
    ghost from: { Self → Origin → Type 0 };

    /// Under which key it was fetched.
    fn key(&self) -> &Key
        ensures { result.now ≡ key self.now };

    /// How many bytes it is kept with.
    fn size(&self) -> Option<u64>
        ensures { result ≡ size self.now };

    /// What isn't kept tells its number.
    ghost numbered: { (v : Self) → size v ≡ None → is_some (number v) ≡ true };
}
