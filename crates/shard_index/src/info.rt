//! What an index says of its subdir, by the key info.

ghost use Rattle.std.specs.Prelude.{◌≡◌, [], Ok, None, is_some, slice_index_or, unwrap_or, IfOk};
ghost use Rattle.std.specs.Option.{option_flatten};
ghost use Rattle.gateway_words.specs.Reading.{Gives};
ghost use Rattle.mp_codec.specs.Reading.{Advances};
ghost use Rattle.mp_codec.specs.Maps.{bytes_behind, place_of, unread, known_key_from, known_value_from};
ghost use Rattle.shard_index.specs.Seen.{fault_of};
ghost use Rattle.shard_index.specs.Info.{info_in, info_keys, optional_text_from, info_datum_from, info_end_from, info_pairs_from, info_from};
ghost use Rattle.shard_index.specs.Found.{info_place, info_known};

use crate::refusal::IndexRefusal;
use mp_codec::{Cursor, FaultKind, FormatFault, Text, utf8_text};
use std::alloc::{AllocError, Global};
use std::marker::Model;

// The base of the packages where none is given.
pub(crate) const DEFAULT_BASE: &str = "./";

// The base of the shards where none is given.
pub(crate) const DEFAULT_SHARDS_BASE: &str = "./shards/";

// Where the packages and the shards of a subdir stand, and the subdir's name.
#[derive(Debug, Drop)]
pub(crate) struct Info {
    pub(crate) base_url: Text,
    pub(crate) shards_base_url: Text,
    pub(crate) subdir: Text,
}

impl Model for Info {
    ghost use Rattle.shard_index.specs.Info.{Info};

    ghost Value = { Info };

    ghost view = { λ info. record {
      base_url = info.base_url;
      shards_base_url = info.shards_base_url;
      subdir = info.subdir;
    } };
}

// A key of info.
#[derive(Clone, Copy)]
enum InfoKey {
    BaseUrl,
    ShardsBaseUrl,
    Subdir,
    CreatedAt,
    // A key that isn't known.
    Other,
}

// What was read so far: of each key the text behind it, if it is one, or None where the key was not
// met, and whether `created_at` was met.
#[derive(Drop)]
struct FoundInfo {
    base_url: Option<Option<Text>>,
    shards_base_url: Option<Option<Text>>,
    subdir: Option<Option<Text>>,
    created_at: bool,
}

// The known key with these bytes.
fn key_of(key: Option<&[u8]>) -> InfoKey
    ensures { info_place result ≡ place_of info_keys (bytes_behind key.entry) }
{
    let Some(bytes) = key else {
        return InfoKey::Other;
    };
    if bytes == b"base_url".as_slice() {
        InfoKey::BaseUrl
    } else if bytes == b"shards_base_url".as_slice() {
        InfoKey::ShardsBaseUrl
    } else if bytes == b"subdir".as_slice() {
        InfoKey::Subdir
    } else if bytes == b"created_at".as_slice() {
        InfoKey::CreatedAt
    } else {
        InfoKey::Other
    }
}

// A copy of the text that stands at the cursor, or None of a value of another kind.
#[tactic(auto, unfolding(crate::specs::Info::optional_text_from))]
fn text_or_skip(alloc: Global, cur: &mut Cursor<'_>) -> Result<Option<Text>, IndexRefusal>
    ensures { Gives (λ text. (text, cur.new)) fault_of result (optional_text_from cur.old) }
{
    let Some(bytes) = cur.str_or_skip()? else {
        return Ok(None);
    };
    match utf8_text(bytes) {
        Some(text) => Ok(Some(Text::copy(alloc, text)?)),
        None => Ok(None),
    }
}

// The text that was read, or a copy of the one that stands for a missing one.
fn text_or(alloc: Global, text: Option<Option<Text>>, missing: &str) -> Result<Text, AllocError>
    ensures { IfOk result (λ given. given ≡ unwrap_or (option_flatten text) missing.now) }
{
    match text.flatten() {
        Some(text) => Ok(text),
        None => Text::copy(alloc, missing),
    }
}

impl FoundInfo {
    // Nothing was read.
    fn new() -> FoundInfo
        ensures { info_known result ≡ unread info_keys }
    {
        FoundInfo {
            base_url: None,
            shards_base_url: None,
            subdir: None,
            created_at: false,
        }
    }

    // Whether this key was read.
    fn has(&self, key: InfoKey) -> bool
        ensures { result ≡ is_some (slice_index_or (info_known self.now) (info_place key) None) }
    {
        match key {
            InfoKey::BaseUrl => self.base_url.is_some(),
            InfoKey::ShardsBaseUrl => self.shards_base_url.is_some(),
            InfoKey::Subdir => self.subdir.is_some(),
            InfoKey::CreatedAt => self.created_at,
            InfoKey::Other => false,
        }
    }

    // Reads the value of a key that was not read before.
    #[tactic(auto, unfolding(mp_codec::specs::Maps::known_value_from))]
    fn read_value(
        &mut self,
        alloc: Global,
        cur: &mut Cursor<'_>,
        key: InfoKey,
    ) -> Result<(), IndexRefusal>
        ensures { Gives (λ _. (info_known self.new, cur.new)) fault_of result
            (known_value_from info_keys info_datum_from (info_known self.old) (info_place key)
            cur.old) }
    {
        match key {
            InfoKey::BaseUrl => self.base_url = Some(text_or_skip(alloc, cur)?),
            InfoKey::ShardsBaseUrl => self.shards_base_url = Some(text_or_skip(alloc, cur)?),
            InfoKey::Subdir => self.subdir = Some(text_or_skip(alloc, cur)?),
            InfoKey::CreatedAt => {
                cur.skip()?;
                self.created_at = true;
            }
            InfoKey::Other => cur.skip()?,
        }
        Ok(())
    }

    // The info, with the texts that stand for missing ones.
    #[tactic(auto, unfolding(mp_codec::specs::Maps::known_end_from, crate::specs::Info::info_end_from))]
    fn finish(self, alloc: Global, cur: &Cursor<'_>) -> Result<Info, AllocError>
        ensures { IfOk result (λ info. info_end_from (info_known self) cur.now
            ≡ Ok (info, cur.now)) }
    {
        Ok(Info {
            base_url: text_or(alloc, self.base_url, DEFAULT_BASE)?,
            shards_base_url: text_or(alloc, self.shards_base_url, DEFAULT_SHARDS_BASE)?,
            subdir: text_or(alloc, self.subdir, "")?,
        })
    }
}

// The key that stands at the cursor, which was not read before if it is known.
#[tactic(auto, unfolding(mp_codec::specs::Maps::known_key_from))]
fn next_key(cur: &mut Cursor<'_>, found: &FoundInfo) -> Result<InfoKey, FormatFault>
    ensures { Advances info_place cur.new result
        (known_key_from info_keys (info_known found.now) cur.old) }
{
    let at = cur.at();
    let key = key_of(cur.str_or_skip()?);
    if found.has(key) {
        return Err(FormatFault::new(at, FaultKind::Repeated));
    }
    Ok(key)
}

// So many pairs of info, and its end.
fn pairs_of_info(alloc: Global, cur: &mut Cursor<'_>, pairs: u32) -> Result<Info, IndexRefusal>
    ensures { Gives (λ info. (info, cur.new)) fault_of result
        (info_pairs_from pairs (unread info_keys) cur.old) }
{
    let mut found = FoundInfo::new();
    for _ in 0..pairs {
        let key = next_key(cur, &found)?;
        found.read_value(alloc, cur, key)?;
    }
    Ok(found.finish(alloc, cur)?)
}

impl Info {
    // The info that stands at the cursor.
    #[tactic(auto, unfolding(mp_codec::specs::Maps::map_from, crate::specs::Info::info_from))]
    pub(crate) fn read(alloc: Global, cur: &mut Cursor<'_>) -> Result<Info, IndexRefusal>
        ensures { Gives (λ info. (info, cur.new)) fault_of result (info_from cur.old) }
    {
        let pairs = cur.map_len()?;
        pairs_of_info(alloc, cur, pairs)
    }

    // The info of an index that has none.
    pub(crate) fn missing(alloc: Global) -> Result<Info, AllocError>
        ensures { IfOk result (λ info. info ≡ info_in []) }
    {
        Ok(Info {
            base_url: Text::copy(alloc, DEFAULT_BASE)?,
            shards_base_url: Text::copy(alloc, DEFAULT_SHARDS_BASE)?,
            subdir: Text::copy(alloc, "")?,
        })
    }
}
