//! Reading the spans of a record from a cursor, key by key.

ghost use Rattle.std.specs.Prelude.{◌≡◌, ◌≤◌, Bool, List, ℕ, length, IfOk, IfErr, IfSome, OnErr, MatchResult, Some, None, is_some, slice_index_or};
ghost use Rattle.gateway_words.specs.Places.{Position};
ghost use Rattle.gateway_words.specs.Reading.{Gives};
ghost use Rattle.mp_codec.specs.Fault.{IsFirstFault, WithBreaks};
ghost use Rattle.mp_codec.specs.Reading.{Advances};
ghost use Rattle.mp_codec.specs.Span.{IsIn};
ghost use Rattle.mp_codec.specs.Maps.{bytes_behind, place_of, unread, known_key_from, known_value_from};
ghost use Rattle.conda_record.specs.Record.{Fields, record_keys, RecordFault, RecordAt};
ghost use Rattle.conda_record.specs.Reading.{fault_of, text, number, optional_text, texts, digest};
ghost use Rattle.conda_record.specs.Places.{fields_at};
ghost use Rattle.conda_record.specs.Placing.{TextAt, NumberIs, OptionalTextAt, DigestAt, kept_by, place_from, places_end_from, place_pairs_from, places_from, spans_in};
ghost use Rattle.conda_record.specs.Found.{place, kept, met, list_read, known};

use crate::refusal::RecordRefusal;
use crate::spans::RecordSpans;
use crate::value::{digest_span_or_skip, span_or_skip, spans_or_skip};
use mp_codec::{Cursor, FaultKind, FormatFault, Span};
use std::alloc::Global;

// A key of a record.
#[derive(Clone, Copy)]
enum Key {
    Name,
    Version,
    Build,
    BuildNumber,
    Depends,
    Constrains,
    Subdir,
    Md5,
    Sha256,
    Size,
    Timestamp,
    License,
    Noarch,
    // A key that isn't known.
    Other,
}

// What was read so far: of each known key what stands behind it, or None where the key wasn't met or
// has a value of another kind, which `others` tells apart.
#[derive(Drop)]
struct Found {
    name: Option<Span>,
    version: Option<Span>,
    build: Option<Span>,
    build_number: Option<u64>,
    depends: Option<Vec<Span>>,
    constrains: Option<Vec<Span>>,
    subdir: Option<Span>,
    md5: Option<Span>,
    sha256: Option<Span>,
    size: Option<u64>,
    timestamp: Option<u64>,
    license: Option<Span>,
    noarch: Option<Span>,
    others: Others,
}

// The keys that were met with a value of another kind.
#[derive(Drop)]
struct Others {
    build_number: bool,
    depends: bool,
    constrains: bool,
    subdir: bool,
    md5: bool,
    sha256: bool,
    size: bool,
    timestamp: bool,
    license: bool,
    noarch: bool,
}

// The known key with these bytes. Its length says which few it may be.
fn key_of(key: Option<&[u8]>) -> Key
    ensures { place result ≡ place_of record_keys (bytes_behind key.entry) }
{
    let Some(bytes) = key else {
        return Key::Other;
    };
    match bytes.len() {
        0..=5 => short_key(bytes),
        6 => key_of_six(bytes),
        7 => key_of_seven(bytes),
        9 => key_of_nine(bytes),
        10 => key_of_ten(bytes),
        12 => key_of_twelve(bytes),
        _ => Key::Other,
    }
}

// The known key with these bytes, of which there are at most five.
fn short_key(bytes: &[u8]) -> Key
    requires { length bytes.now ≤ 5 }
    ensures { place result ≡ place_of record_keys (Some bytes.now) }
{
    match bytes {
        b"md5" => Key::Md5,
        b"name" => Key::Name,
        b"size" => Key::Size,
        b"build" => Key::Build,
        _ => Key::Other,
    }
}

// The known key with these six bytes.
fn key_of_six(bytes: &[u8]) -> Key
    requires { length bytes.now ≡ 6 }
    ensures { place result ≡ place_of record_keys (Some bytes.now) }
{
    match bytes {
        b"subdir" => Key::Subdir,
        b"sha256" => Key::Sha256,
        b"noarch" => Key::Noarch,
        _ => Key::Other,
    }
}

// The known key with these seven bytes.
fn key_of_seven(bytes: &[u8]) -> Key
    requires { length bytes.now ≡ 7 }
    ensures { place result ≡ place_of record_keys (Some bytes.now) }
{
    match bytes {
        b"version" => Key::Version,
        b"depends" => Key::Depends,
        b"license" => Key::License,
        _ => Key::Other,
    }
}

// The known key with these nine bytes.
fn key_of_nine(bytes: &[u8]) -> Key
    requires { length bytes.now ≡ 9 }
    ensures { place result ≡ place_of record_keys (Some bytes.now) }
{
    match bytes {
        b"timestamp" => Key::Timestamp,
        _ => Key::Other,
    }
}

// The known key with these ten bytes.
fn key_of_ten(bytes: &[u8]) -> Key
    requires { length bytes.now ≡ 10 }
    ensures { place result ≡ place_of record_keys (Some bytes.now) }
{
    match bytes {
        b"constrains" => Key::Constrains,
        _ => Key::Other,
    }
}

// The known key with these twelve bytes.
fn key_of_twelve(bytes: &[u8]) -> Key
    requires { length bytes.now ≡ 12 }
    ensures { place result ≡ place_of record_keys (Some bytes.now) }
{
    match bytes {
        b"build_number" => Key::BuildNumber,
        _ => Key::Other,
    }
}

impl Found {
    // Nothing was read.
    fn new() -> Found
        ensures { known result ≡ unread record_keys }
    {
        Found {
            name: None,
            version: None,
            build: None,
            build_number: None,
            depends: None,
            constrains: None,
            subdir: None,
            md5: None,
            sha256: None,
            size: None,
            timestamp: None,
            license: None,
            noarch: None,
            others: Others {
                build_number: false,
                depends: false,
                constrains: false,
                subdir: false,
                md5: false,
                sha256: false,
                size: false,
                timestamp: false,
                license: false,
                noarch: false,
            },
        }
    }

    // Whether this key was read.
    fn has(&self, key: Key) -> bool
        ensures { result ≡ is_some (slice_index_or (known self.now) (place key) None) }
    {
        match key {
            Key::Name => self.name.is_some(),
            Key::Version => self.version.is_some(),
            Key::Build => self.build.is_some(),
            Key::BuildNumber => self.others.build_number || self.build_number.is_some(),
            Key::Depends => self.others.depends || self.depends.is_some(),
            Key::Constrains => self.others.constrains || self.constrains.is_some(),
            Key::Subdir => self.others.subdir || self.subdir.is_some(),
            Key::Md5 => self.others.md5 || self.md5.is_some(),
            Key::Sha256 => self.others.sha256 || self.sha256.is_some(),
            Key::Size => self.others.size || self.size.is_some(),
            Key::Timestamp => self.others.timestamp || self.timestamp.is_some(),
            Key::License => self.others.license || self.license.is_some(),
            Key::Noarch => self.others.noarch || self.noarch.is_some(),
            Key::Other => false,
        }
    }

    // Reads the value of a key that was not read before.
    #[tactic(auto, unfolding(mp_codec::specs::Maps::known_value_from))]
    fn read_value(
        &mut self,
        alloc: Global,
        cur: &mut Cursor<'_>,
        key: Key,
    ) -> Result<(), RecordRefusal>
        ensures { Gives (λ _. (known self.new, cur.new)) fault_of result
            (known_value_from record_keys place_from (known self.old) (place key) cur.old) }
    {
        match key {
            Key::Name => read_text(cur, &mut self.name),
            Key::Version => read_text(cur, &mut self.version),
            Key::Build => read_text(cur, &mut self.build),
            Key::BuildNumber => read_number(
                cur,
                &mut self.build_number,
                &mut self.others.build_number,
            ),
            Key::Depends => read_texts(alloc, cur, &mut self.depends, &mut self.others.depends),
            Key::Constrains => read_texts(
                alloc,
                cur,
                &mut self.constrains,
                &mut self.others.constrains,
            ),
            Key::Subdir => read_optional_text(cur, &mut self.subdir, &mut self.others.subdir),
            Key::Md5 => read_digest(cur, 16, &mut self.md5, &mut self.others.md5),
            Key::Sha256 => read_digest(cur, 32, &mut self.sha256, &mut self.others.sha256),
            Key::Size => read_number(cur, &mut self.size, &mut self.others.size),
            Key::Timestamp => read_number(cur, &mut self.timestamp, &mut self.others.timestamp),
            Key::License => read_optional_text(cur, &mut self.license, &mut self.others.license),
            Key::Noarch => read_optional_text(cur, &mut self.noarch, &mut self.others.noarch),
            Key::Other => Ok(cur.skip()?),
        }
    }

    // The record of what was read, which has the required keys.
    #[tactic(auto, unfolding(mp_codec::specs::Maps::known_end_from, crate::specs::Placing::places_end_from))]
    fn finish(&mut self, alloc: Global, cur: &Cursor<'_>) -> Result<RecordSpans, RecordRefusal>
        ensures { Gives (λ r. (r, cur.now)) fault_of result
            (places_end_from (known self.old) cur.now) }
    {
        let (Some(name), Some(version), Some(build)) = (self.name, self.version, self.build) else {
            return Err(RecordRefusal::Fault(FormatFault::new(cur.at(), FaultKind::Missing)));
        };
        Ok(RecordSpans {
            name,
            version,
            build,
            build_number: self.build_number.unwrap_or(0),
            depends: listed(alloc, &mut self.depends),
            constrains: listed(alloc, &mut self.constrains),
            subdir: self.subdir,
            md5: self.md5,
            sha256: self.sha256,
            size: self.size,
            timestamp: self.timestamp,
            license: self.license,
            noarch: self.noarch,
        })
    }

    // Reads so many pairs, and the end.
    #[inline(never)]
    fn read_pairs(
        &mut self,
        alloc: Global,
        cur: &mut Cursor<'_>,
        pairs: u32,
    ) -> Result<RecordSpans, RecordRefusal>
        requires { known self.old ≡ unread record_keys }
        ensures { Gives (λ r. (r, cur.new)) fault_of result
            (place_pairs_from pairs (unread record_keys) cur.old) }
    {
        for _ in 0..pairs {
            let key = next_key(cur, self)?;
            self.read_value(alloc, cur, key)?;
        }
        self.finish(alloc, cur)
    }
}

// The spans of a list that was read, or none.
fn listed(alloc: Global, slot: &mut Option<Vec<Span>>) -> Vec<Span>
    ensures { (other : Bool) → result.items ≡ spans_in (met list_read slot.old other) }
{
    match slot.take() {
        Some(spans) => spans,
        None => Vec::new(alloc),
    }
}

// Reads a text that must stand at the cursor. A function for each kind of value, which is no part of
// another, so that a call makes room for what it needs alone.
#[inline(never)]
fn read_text(cur: &mut Cursor<'_>, slot: &mut Option<Span>) -> Result<(), RecordRefusal>
    ensures { Gives (λ _. (kept TextAt slot.new, cur.new)) fault_of result (kept_by text cur.old) }
{
    *slot = Some(cur.text_span()?);
    Ok(())
}

// Reads a number, or passes over a value of another kind.
#[inline(never)]
fn read_number(
    cur: &mut Cursor<'_>,
    slot: &mut Option<u64>,
    other: &mut bool,
) -> Result<(), RecordRefusal>
    ensures { Gives (λ _. (met NumberIs slot.new other.new, cur.new)) fault_of result
        (kept_by number cur.old) }
{
    *slot = cur.number_or_skip()?;
    *other = slot.is_none();
    Ok(())
}

// Reads a text, or passes over a value of another kind.
#[inline(never)]
fn read_optional_text(
    cur: &mut Cursor<'_>,
    slot: &mut Option<Span>,
    other: &mut bool,
) -> Result<(), RecordRefusal>
    ensures { Gives (λ _. (met OptionalTextAt slot.new other.new, cur.new)) fault_of result
        (kept_by optional_text cur.old) }
{
    *slot = span_or_skip(cur)?;
    *other = slot.is_none();
    Ok(())
}

// Reads a list of texts, or passes over a value of another kind.
#[inline(never)]
fn read_texts(
    alloc: Global,
    cur: &mut Cursor<'_>,
    slot: &mut Option<Vec<Span>>,
    other: &mut bool,
) -> Result<(), RecordRefusal>
    ensures { Gives (λ _. (met list_read slot.new other.new, cur.new)) fault_of result
        (kept_by texts cur.old) }
{
    *slot = spans_or_skip(alloc, cur)?;
    *other = slot.is_none();
    Ok(())
}

// Reads a digest of so many bytes, or passes over a value of another kind.
#[inline(never)]
fn read_digest(
    cur: &mut Cursor<'_>,
    digest_len: u16,
    slot: &mut Option<Span>,
    other: &mut bool,
) -> Result<(), RecordRefusal>
    ensures { Gives (λ _. (met DigestAt slot.new other.new, cur.new)) fault_of result
        (kept_by (digest digest_len) cur.old) }
{
    *slot = digest_span_or_skip(cur, digest_len)?;
    *other = slot.is_none();
    Ok(())
}

// The key that stands at the cursor, which was not read before if it is known.
#[tactic(auto, unfolding(mp_codec::specs::Maps::known_key_from))]
fn next_key(cur: &mut Cursor<'_>, found: &Found) -> Result<Key, FormatFault>
    ensures { Advances place cur.new result
        (known_key_from record_keys (known found.now) cur.old) }
{
    let at = cur.at();
    let key = key_of(cur.str_or_skip()?);
    if found.has(key) {
        return Err(FormatFault::new(at, FaultKind::Repeated));
    }
    Ok(key)
}

// The spans of the record that stands at the cursor.
#[tactic(auto, unfolding(mp_codec::specs::Maps::map_from, crate::specs::Placing::places_from))]
fn read_here(alloc: Global, cur: &mut Cursor<'_>) -> Result<RecordSpans, RecordRefusal>
    ensures { Gives (λ r. (r, cur.new)) fault_of result (places_from cur.old) }
{
    let pairs = cur.map_len()?;
    Found::new().read_pairs(alloc, cur, pairs)
}

impl RecordSpans {
    /// The spans of the record that stands at the cursor, which goes behind it. They are places in
    /// the bytes that the cursor goes over.
    ///
    /// Refuses as `PackageRecord::read` does. Texts are not copied, and a digest that is hexadecimal
    /// text is not decoded.
    pub fn read(alloc: Global, cur: &mut Cursor<'_>) -> Result<RecordSpans, RecordRefusal>
        // What is read stands there, and nothing is wrong with it.
        ensures found { IfOk result (λ r. (bytes : List ℕ) → IsIn bytes cur.old
            → RecordAt cur.old (fields_at bytes r) cur.new) }
        // What stands there with nothing wrong is read, unless memory runs out.
        ensures only { (bytes : List ℕ) (fields : Fields) (there : Position) → IsIn bytes cur.old
            → RecordAt cur.old fields there
            → MatchResult result (λ r. (fields_at bytes r ≡ fields) × (cur.new ≡ there))
            (λ e. e ≡ RecordRefusal.Memory) }
        // A fault is the first one.
        ensures fault { IfErr result (λ e.
            IfSome (fault_of e) (IsFirstFault (WithBreaks RecordFault cur.old))) }
        ensures unchanged { OnErr result (cur.new ≡ cur.old) }

        // The places are those at which the record's texts and digests stand.
        ensures exact { Gives (λ r. (r, cur.new)) fault_of result (places_from cur.old) }
    {
        let mut ahead = cur.copy();
        let read = read_here(alloc, &mut ahead);
        if read.is_ok() {
            *cur = ahead;
        }
        read
    }
}
