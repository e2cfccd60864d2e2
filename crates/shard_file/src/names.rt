//! Names that were met, to find the one that stands twice.

ghost use Rattle.std.specs.Prelude.{◌≡◌, ◌||◌, not, IsTrue, IfOk, OnOk, List, ℕ, [], false};
ghost use Rattle.std.specs.Str.{bytes_eq};
ghost use Rattle.shard_file.specs.Names.{has_name, is_among, AreRising, IsRising, IsBehind};

use mp_codec::room_for;
use std::alloc::{AllocError, Global};
use std::collections::BTreeSet;

// Names that were met: those that rose, each above the one before it, and the first that did not,
// with all that were new behind it. A name that rises costs one comparison.
#[derive(Drop)]
pub(crate) struct Names<'a> {
    rising: Vec<&'a str>,
    others: BTreeSet<&'a str>,
}

impl<'a> Names<'a> {
    // No names, with room for as many as a head claims, within reason.
    pub(crate) fn new(alloc: Global, claimed: u32) -> Result<Names<'a>, AllocError>
        ensures none { IfOk result (λ names. (q : List ℕ) → has_name names q ≡ false) }
        ensures rising { IfOk result AreRising }
    {
        Ok(Names {
            rising: room_for(alloc, claimed)?,
            others: BTreeSet::new(alloc),
        })
    }

    // Adds a name, and says whether it is new.
    pub(crate) fn add(&mut self, name: &'a str) -> Result<bool, AllocError>
        requires { AreRising self.old }
        ensures new { IfOk result (λ added. added ≡ not (has_name self.old name.now)) }
        ensures more { IfOk result (λ _. (q : List ℕ) → has_name self.new q
            ≡ (bytes_eq name.now q || has_name self.old q)) }
        ensures rising { OnOk result (AreRising self.new) }
    {
        if self.others.is_empty() && is_behind(self.rising.as_slice(), name) {
            self.rising.push(name)?;
            return Ok(true);
        }
        if has(self.rising.as_slice(), name) {
            return Ok(false);
        }
        Ok(self.others.insert(name)?)
    }
}

// Whether the name is above the last of these.
fn is_behind(names: &[&str], name: &str) -> bool
    ensures { IsTrue result → IsBehind name.now names.now }
{
    match names.last() {
        Some(last) => *last < name,
        None => true,
    }
}

// Whether names that rise have this one.
fn has(names: &[&str], name: &str) -> bool
    requires { IsRising names.now }
    ensures { result ≡ is_among names.now name.now }
{
    names.binary_search(&name).is_ok()
}
