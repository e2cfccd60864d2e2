//! The names that an index lists, each once, with their digests.

ghost use Rattle.std.specs.Prelude.{◌≡◌, ◌||◌, length, IfOk, OnOk, [], List, ℕ, false};
ghost use Rattle.std.specs.List.Sorted.{IsSortedBy};
ghost use Rattle.std.specs.Str.{bytes_eq};
ghost use Rattle.gateway_words.specs.Reading.{Gives};
ghost use Rattle.gateway_words.specs.Sorting.{sorted_by};
ghost use Rattle.shard_index.specs.Index.{digest_at, name_lt};
ghost use Rattle.shard_index.specs.Names.{has_name};
ghost use Rattle.mp_codec.specs.Names.{new_name_from};
ghost use Rattle.shard_index.specs.Reading.{listed_after, listed_from};
ghost use Rattle.shard_index.specs.Seen.{fault_of};

use crate::digest::digest;
use crate::names;
use crate::refusal::IndexRefusal;
use digest_gate::Digest;
use mp_codec::{Cursor, FaultKind, FormatFault, Text};
use std::alloc::{AllocError, Global};
use std::collections::BTreeSet;
use std::marker::Model;

// A name with the digest of its shard.
#[derive(Debug, Drop)]
pub(crate) struct Entry {
    name: Text,
    digest: Digest,
}

impl Model for Entry {
    ghost use Rattle.shard_index.specs.Index.{Listed};

    ghost Value = { Listed };

    ghost view = { λ entry. record { name = entry.name; digest = entry.digest } };
}

// Names with their digests, no name twice.
#[derive(Debug, Drop)]
pub(crate) struct Listing {
    entries: Vec<Entry>,
}

impl Model for Listing {
    ghost use Rattle.std.specs.Prelude.{List};
    ghost use Rattle.shard_index.specs.Index.{Listed};
    ghost use Rattle.shard_index.specs.Reading.{AreDistinct};

    ghost Value = { List Listed };

    ghost view = { λ listing. listing.entries.items };

    ghost invariant = { λ listing. AreDistinct listing.entries.items };
}

impl Listing {
    // The map from names to digests that stands at the cursor.
    #[tactic(auto, unfolding(mp_codec::specs::Maps::map_from, crate::specs::Reading::listed_from))]
    pub(crate) fn read(alloc: Global, cur: &mut Cursor<'_>) -> Result<Listing, IndexRefusal>
        ensures { Gives (λ listing. (listing, cur.new)) fault_of result (listed_from cur.old) }
    {
        let names = cur.map_len()?;
        names_and_digests(alloc, cur, names)
    }

    // Puts the names in their order.
    pub(crate) fn sort(&mut self) -> Result<(), AllocError>
        ensures { OnOk result (self.new ≡ sorted_by name_lt self.old) }
    {
        self.entries
            .sort_by(|a, b| a.name.as_str().cmp(b.name.as_str()))
    }

    // The digest of a name, where the names ascend.
    pub(crate) fn digest_at(&self, name: &str) -> Option<Digest>
        requires { IsSortedBy name_lt self.now }
        ensures { result ≡ digest_at name.now self.now }
    {
        let place = self
            .entries
            .binary_search_by(|entry| entry.name.as_str().cmp(name));
        match place {
            Ok(at) => Some(self.entries[at].digest),
            Err(_) => None,
        }
    }

    // How many names are listed.
    pub(crate) fn len(&self) -> usize
        ensures { result ≡ length self.now }
    {
        self.entries.len()
    }
}

// So many names with their digests.
fn names_and_digests(
    alloc: Global,
    cur: &mut Cursor<'_>,
    count: u32,
) -> Result<Listing, IndexRefusal>
    ensures { Gives (λ listing. (listing, cur.new)) fault_of result
        (listed_after count [] cur.old) }
{
    let mut entries = Vec::new(alloc);
    let mut names = BTreeSet::new(alloc);
    for _ in 0..count {
        let name = new_name(cur, &mut names)?;
        let entry = Entry {
            name: Text::copy(alloc, name)?,
            digest: digest(cur)?,
        };
        entries.push(entry)?;
    }
    Ok(Listing { entries })
}

// The text that stands at the cursor, which is none of the names so far.
#[tactic(auto, unfolding(mp_codec::specs::Names::new_name_from))]
fn new_name<'a>(
    cur: &mut Cursor<'a>,
    names: &mut BTreeSet<&'a str>,
) -> Result<&'a str, IndexRefusal>
    ensures exact { Gives (λ name. (name.now, cur.new)) fault_of result
        (new_name_from (has_name names.old) cur.old) }
    ensures new { IfOk result (λ name. has_name names.old name.now ≡ false) }
    ensures more { IfOk result (λ name. (q : List ℕ) → has_name names.new q
        ≡ (bytes_eq name.now q || has_name names.old q)) }
{
    let at = cur.at();
    let name = cur.text()?;
    if !names::add(names, name)? {
        return Err(IndexRefusal::Fault(FormatFault::new(at, FaultKind::Repeated)));
    }
    Ok(name)
}
