//! Memory for what a head claims.

ghost use Rattle.std.specs.Prelude.{◌≡◌, ◌≤◌, [], IfOk, vec_capacity};
ghost use Rattle.mp_codec.specs.Room.{most_at_once};

use std::alloc::{AllocError, Global};

// For so many elements of a list or pairs of a map memory is taken before they are read.
const MOST_AT_ONCE: usize = 64;

/// An empty vector with room for as many elements as a head claims, or for 64 where it claims more,
/// since a number in a head costs whoever writes it a few bytes.
///
/// `AllocError` where memory runs out.
pub fn room_for<T>(alloc: Global, claimed: u32) -> Result<Vec<T>, AllocError>
    ensures empty { IfOk result (λ room. room.items ≡ []) }
    ensures claimed { IfOk result (λ room. vec_capacity room ≤ claimed) }
    ensures small { IfOk result (λ room. vec_capacity room ≤ most_at_once) }
{
    Vec::with_capacity(alloc, (claimed as usize).min(MOST_AT_ONCE))
}
