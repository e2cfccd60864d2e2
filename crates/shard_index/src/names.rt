//! Names that were met, to find the one that stands twice.

ghost use Rattle.std.specs.Prelude.{◌≡◌, ◌||◌, not, IfOk, OnErr, List, ℕ, [], false};
ghost use Rattle.std.specs.Str.{bytes_eq};
ghost use Rattle.shard_index.specs.Names.{has_name};

use std::alloc::{AllocError, Global};
use std::collections::BTreeSet;

// Adds a name, and says whether it is new.
pub(crate) fn add<'a>(names: &mut BTreeSet<&'a str>, name: &'a str) -> Result<bool, AllocError>
    ensures new { IfOk result (λ added. added ≡ not (has_name names.old name.now)) }
    ensures more { IfOk result (λ _. (q : List ℕ) → has_name names.new q
        ≡ (bytes_eq name.now q || has_name names.old q)) }
{
    Ok(names.insert(name)?)
}
