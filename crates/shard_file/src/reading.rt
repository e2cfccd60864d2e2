//! Reading a shard, key by key.

ghost use Rattle.std.specs.Prelude.{◌≡◌, List, ℕ, Some, None, is_some, slice_index_or, OnOk, OnErr, IfOk};
ghost use Rattle.gateway_words.specs.Sorting.{sorted_by};
ghost use Rattle.gateway_words.specs.Reading.{Gives};
ghost use Rattle.mp_codec.specs.Reading.{Advances};
ghost use Rattle.mp_codec.specs.Maps.{bytes_behind, place_of, unread, known_key_from, known_value_from};
ghost use Rattle.conda_record.specs.Reading.{fault_of};
ghost use Rattle.shard_file.specs.Rows.{shard_keys, file_lt};
ghost use Rattle.mp_codec.specs.Span.{IsIn};
ghost use Rattle.shard_file.specs.Spans.{rows_at, AreNamed};
ghost use Rattle.shard_file.specs.Found.{place, known, IsNamed};
ghost use Rattle.shard_file.specs.Reading.{member_from, shard_end_from, pairs_from, shard_from, rows_from, shard_of};

use crate::files::files;
use crate::spans::FileSpans;
use conda_record::RecordRefusal;
use mp_codec::{Cursor, FaultKind, FormatFault};
use std::alloc::{AllocError, Global};

// A key of a shard.
#[derive(Clone, Copy)]
enum Key {
    Packages,
    Conda,
    Removed,
    // A key that isn't known.
    Other,
}

// What was read so far: the rows behind each of the two keys that hold files, and whether `removed`
// was met.
#[derive(Drop)]
struct Found {
    packages: Option<Vec<FileSpans>>,
    conda: Option<Vec<FileSpans>>,
    removed: bool,
}

// The known key with these bytes.
fn key_of(key: Option<&[u8]>) -> Key
    ensures { place result ≡ place_of shard_keys (bytes_behind key.entry) }
{
    let Some(bytes) = key else {
        return Key::Other;
    };
    if bytes == b"packages".as_slice() {
        Key::Packages
    } else if bytes == b"packages.conda".as_slice() {
        Key::Conda
    } else if bytes == b"removed".as_slice() {
        Key::Removed
    } else {
        Key::Other
    }
}

impl Found {
    // Nothing was read.
    fn new() -> Found
        ghost bytes: { List ℕ }
        ensures unread { known bytes result ≡ unread shard_keys }
        ensures named { IsNamed bytes result }
    {
        Found {
            packages: None,
            conda: None,
            removed: false,
        }
    }

    // Whether this key was read.
    fn has(&self, key: Key) -> bool
        ghost bytes: { List ℕ }
        ensures { result ≡ is_some (slice_index_or (known bytes self.now) (place key) None) }
    {
        match key {
            Key::Packages => self.packages.is_some(),
            Key::Conda => self.conda.is_some(),
            Key::Removed => self.removed,
            Key::Other => false,
        }
    }

    // Reads the value of a key that was not read before.
    #[tactic(auto, unfolding(mp_codec::specs::Maps::known_value_from))]
    fn read_value(
        &mut self,
        alloc: Global,
        cur: &mut Cursor<'_>,
        key: Key,
    ) -> Result<(), RecordRefusal>
        ghost bytes: { List ℕ }
        requires within { IsIn bytes cur.old }
        requires named { IsNamed bytes self.old }
        ensures within { OnOk result (IsIn bytes cur.new) }
        ensures exact { Gives (λ _. (known bytes self.new, cur.new)) fault_of result
            (known_value_from shard_keys member_from (known bytes self.old) (place key) cur.old) }
        ensures named { OnOk result (IsNamed bytes self.new) }
    {
        match key {
            Key::Packages => self.packages = Some(files(alloc, cur, false)?),
            Key::Conda => self.conda = Some(files(alloc, cur, true)?),
            Key::Removed => {
                cur.skip()?;
                self.removed = true;
            }
            Key::Other => cur.skip()?,
        }
        Ok(())
    }

    // All rows, those of packages first.
    #[tactic(auto, unfolding(mp_codec::specs::Maps::known_end_from, crate::specs::Reading::shard_end_from))]
    fn finish(self, alloc: Global, cur: &Cursor<'_>) -> Result<Vec<FileSpans>, RecordRefusal>
        ghost bytes: { List ℕ }
        requires { IsNamed bytes self }
        ensures exact { Gives (λ rows. (rows_at bytes rows.items, cur.now)) fault_of result
            (shard_end_from (known bytes self) cur.now) }
        ensures named { IfOk result (λ rows. AreNamed bytes rows.items) }
    {
        let mut rows = self.packages.unwrap_or(Vec::new(alloc));
        let mut conda = self.conda.unwrap_or(Vec::new(alloc));
        if rows.is_empty() {
            return Ok(conda);
        }
        rows.append(&mut conda)?;
        Ok(rows)
    }
}

// The key that stands at the cursor, which was not read before if it is known.
#[tactic(auto, unfolding(mp_codec::specs::Maps::known_key_from))]
fn next_key(cur: &mut Cursor<'_>, found: &Found) -> Result<Key, FormatFault>
    ghost bytes: { List ℕ }
    requires { IsIn bytes cur.old }
    ensures within { OnOk result (IsIn bytes cur.new) }
    ensures exact { Advances place cur.new result
        (known_key_from shard_keys (known bytes found.now) cur.old) }
{
    let at = cur.at();
    let key = key_of(cur.str_or_skip()?);
    if found.has(key) {
        return Err(FormatFault::new(at, FaultKind::Repeated));
    }
    Ok(key)
}

// So many pairs of a shard, and its end.
fn pairs_of_shard(
    alloc: Global,
    cur: &mut Cursor<'_>,
    pairs: u32,
) -> Result<Vec<FileSpans>, RecordRefusal>
    ghost bytes: { List ℕ }
    requires { IsIn bytes cur.old }
    ensures exact { Gives (λ rows. (rows_at bytes rows.items, cur.new)) fault_of result
        (pairs_from pairs (unread shard_keys) cur.old) }
    ensures named { IfOk result (λ rows. AreNamed bytes rows.items) }
{
    let mut found = Found::new();
    for _ in 0..pairs {
        let key = next_key(cur, &found)?;
        found.read_value(alloc, cur, key)?;
    }
    Ok(found.finish(alloc, cur)?)
}

// The rows of the shard that stands at the cursor.
#[tactic(auto, unfolding(mp_codec::specs::Maps::map_from, crate::specs::Reading::shard_from))]
fn shard_here(alloc: Global, cur: &mut Cursor<'_>) -> Result<Vec<FileSpans>, RecordRefusal>
    ghost bytes: { List ℕ }
    requires { IsIn bytes cur.old }
    ensures exact { Gives (λ rows. (rows_at bytes rows.items, cur.new)) fault_of result
        (shard_from cur.old) }
    ensures named { IfOk result (λ rows. AreNamed bytes rows.items) }
{
    let pairs = cur.map_len()?;
    pairs_of_shard(alloc, cur, pairs)
}

// The rows of the shard that some bytes are, in the order of their file names.
#[tactic(auto, unfolding(crate::specs::Reading::shard_of))]
pub(crate) fn sorted_rows(alloc: Global, bytes: &[u8]) -> Result<Vec<FileSpans>, RecordRefusal>
    ensures { Gives (λ rows. rows_at bytes.now rows.items) fault_of result (shard_of bytes.now) }
{
    let mut rows = rows(alloc, bytes)?;
    sort(bytes, &mut rows)?;
    Ok(rows)
}

// The rows of the shard that some bytes are, in the order in which they stand.
#[tactic(auto, unfolding(mp_codec::specs::Maps::all_from, crate::specs::Reading::rows_from))]
fn rows(alloc: Global, bytes: &[u8]) -> Result<Vec<FileSpans>, RecordRefusal>
    ensures exact { Gives (λ rows. rows_at bytes.now rows.items) fault_of result
        (rows_from bytes.now) }
    ensures named { IfOk result (λ rows. AreNamed bytes.now rows.items) }
{
    let mut cur = Cursor::new(bytes);
    let rows = shard_here(alloc, &mut cur)?;
    if !cur.is_end() {
        return Err(FormatFault::new(cur.at(), FaultKind::Trailing).into());
    }
    Ok(rows)
}

// Puts rows in the order of their file names; rows of one name stay as they stood.
fn sort(bytes: &[u8], rows: &mut Vec<FileSpans>) -> Result<(), AllocError>
    requires { AreNamed bytes.now rows.old.items }
    ensures { OnOk result
        (rows_at bytes.now rows.new.items ≡ sorted_by file_lt (rows_at bytes.now rows.old.items)) }
{
    rows.sort_by(|a, b| a.name(bytes).cmp(b.name(bytes)))
}
