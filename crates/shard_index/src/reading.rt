//! Reading an index, key by key.

ghost use Rattle.std.specs.Prelude.{◌≡◌, None, is_some, slice_index_or};
ghost use Rattle.gateway_words.specs.Reading.{Gives};
ghost use Rattle.mp_codec.specs.Reading.{Advances};
ghost use Rattle.mp_codec.specs.Maps.{bytes_behind, place_of, unread, known_key_from, known_value_from};
ghost use Rattle.shard_index.specs.Index.{index_keys};
ghost use Rattle.shard_index.specs.Seen.{fault_of};
ghost use Rattle.shard_index.specs.Found.{place, known};
ghost use Rattle.shard_index.specs.Reading.{member_from, index_end_from, index_pairs_from, index_from, contents_from};

use crate::info::Info;
use crate::listing::Listing;
use crate::refusal::IndexRefusal;
use crate::version::version;
use mp_codec::{Cursor, FaultKind, FormatFault};
use std::alloc::Global;
use std::marker::Model;

// What an index says, with its names in the order in which they stand.
#[derive(Drop)]
pub(crate) struct Unsorted {
    pub(crate) info: Info,
    pub(crate) listing: Listing,
}

impl Model for Unsorted {
    ghost use Rattle.shard_index.specs.Index.{Contents};

    ghost Value = { Contents };

    ghost view = { λ index. record { info = index.info; listed = index.listing } };
}

// A key of an index.
#[derive(Clone, Copy)]
enum Key {
    Shards,
    Version,
    Info,
    // A key that isn't known.
    Other,
}

// What was read so far: the names, whether a version of 1 was met, and the info.
#[derive(Drop)]
struct Found {
    shards: Option<Listing>,
    version: bool,
    info: Option<Info>,
}

// The known key with these bytes.
fn key_of(key: Option<&[u8]>) -> Key
    ensures { place result ≡ place_of index_keys (bytes_behind key.entry) }
{
    let Some(bytes) = key else {
        return Key::Other;
    };
    if bytes == b"shards".as_slice() {
        Key::Shards
    } else if bytes == b"version".as_slice() {
        Key::Version
    } else if bytes == b"info".as_slice() {
        Key::Info
    } else {
        Key::Other
    }
}

impl Found {
    // Nothing was read.
    fn new() -> Found
        ensures { known result ≡ unread index_keys }
    {
        Found {
            shards: None,
            version: false,
            info: None,
        }
    }

    // Whether this key was read.
    fn has(&self, key: Key) -> bool
        ensures { result ≡ is_some (slice_index_or (known self.now) (place key) None) }
    {
        match key {
            Key::Shards => self.shards.is_some(),
            Key::Version => self.version,
            Key::Info => self.info.is_some(),
            Key::Other => false,
        }
    }

    // Reads the value of a key that was not read before.
    #[tactic(auto, unfolding(mp_codec::specs::Maps::known_value_from))]
    fn read_value(
        &mut self,
        alloc: Global,
        cur: &mut Cursor<'_>,
        key: Key,
    ) -> Result<(), IndexRefusal>
        ensures { Gives (λ _. (known self.new, cur.new)) fault_of result
            (known_value_from index_keys member_from (known self.old) (place key) cur.old) }
    {
        match key {
            Key::Shards => self.shards = Some(Listing::read(alloc, cur)?),
            Key::Version => {
                version(cur)?;
                self.version = true;
            }
            Key::Info => self.info = Some(Info::read(alloc, cur)?),
            Key::Other => cur.skip()?,
        }
        Ok(())
    }

    // What the index says, where its shards were read.
    #[tactic(auto, unfolding(mp_codec::specs::Maps::known_end_from, crate::specs::Reading::index_end_from))]
    fn finish(self, alloc: Global, cur: &Cursor<'_>) -> Result<Unsorted, IndexRefusal>
        ensures { Gives (λ index. (index, cur.now)) fault_of result
            (index_end_from (known self) cur.now) }
    {
        let Found {
            shards,
            version: _,
            info,
        } = self;
        let Some(listing) = shards else {
            return Err(IndexRefusal::Fault(FormatFault::new(cur.at(), FaultKind::Missing)));
        };
        let info = match info {
            Some(info) => info,
            None => Info::missing(alloc)?,
        };
        Ok(Unsorted { info, listing })
    }
}

// The key that stands at the cursor, which was not read before if it is known.
#[tactic(auto, unfolding(mp_codec::specs::Maps::known_key_from))]
fn next_key(cur: &mut Cursor<'_>, found: &Found) -> Result<Key, FormatFault>
    ensures { Advances place cur.new result (known_key_from index_keys (known found.now) cur.old) }
{
    let at = cur.at();
    let key = key_of(cur.str_or_skip()?);
    if found.has(key) {
        return Err(FormatFault::new(at, FaultKind::Repeated));
    }
    Ok(key)
}

// So many pairs of an index, and its end.
fn pairs_of_index(alloc: Global, cur: &mut Cursor<'_>, pairs: u32) -> Result<Unsorted, IndexRefusal>
    ensures { Gives (λ index. (index, cur.new)) fault_of result
        (index_pairs_from pairs (unread index_keys) cur.old) }
{
    let mut found = Found::new();
    for _ in 0..pairs {
        let key = next_key(cur, &found)?;
        found.read_value(alloc, cur, key)?;
    }
    Ok(found.finish(alloc, cur)?)
}

// The index that stands at the cursor.
#[tactic(auto, unfolding(mp_codec::specs::Maps::map_from, crate::specs::Reading::index_from))]
fn index_here(alloc: Global, cur: &mut Cursor<'_>) -> Result<Unsorted, IndexRefusal>
    ensures { Gives (λ index. (index, cur.new)) fault_of result (index_from cur.old) }
{
    let pairs = cur.map_len()?;
    pairs_of_index(alloc, cur, pairs)
}

// What the index says that some bytes are, with its names in the order in which they stand.
#[tactic(auto, unfolding(mp_codec::specs::Maps::all_from, crate::specs::Reading::contents_from))]
pub(crate) fn as_they_stand(alloc: Global, bytes: &[u8]) -> Result<Unsorted, IndexRefusal>
    ensures { Gives (λ index. index) fault_of result (contents_from bytes.now) }
{
    let mut cur = Cursor::new(bytes);
    let index = index_here(alloc, &mut cur)?;
    if !cur.is_end() {
        return Err(IndexRefusal::Fault(FormatFault {
            at: cur.at() as u64,
            kind: FaultKind::Trailing,
        }));
    }
    Ok(index)
}
