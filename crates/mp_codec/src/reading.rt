//! Readers of one value by its kind, for the maps of records, shards and indexes.

ghost use Rattle.std.specs.Prelude.{◌≡◌, ◌<◌, ◌≤◌, ◌+◌, List, ℕ, length, true, false, Some, IfOk, IfErr, IsTrue, OnErr, MatchOption, drop, slice_index};
ghost use Rattle.std.specs.Str.{is_utf8, IsAscii};
ghost use Rattle.gateway_words.specs.Places.{Position};
ghost use Rattle.mp_codec.specs.declared.head.Head.{Head};
ghost use Rattle.mp_codec.specs.declared.fault.FormatFault.{FormatFault};
ghost use Rattle.mp_codec.specs.Value.{number_of, str_of};
ghost use Rattle.mp_codec.specs.Spelling.{HeadLies, Breaks};
ghost use Rattle.mp_codec.specs.Fault.{IsFirstFault, WithBreaks, TextFault, ValueLies};
ghost use Rattle.mp_codec.specs.Reading.{Steps, Advances};
ghost use Rattle.mp_codec.specs.Span.{IsIn};
ghost use Rattle.mp_codec.specs.Maps.{bytes_behind, map_head_from, text_from, str_from, number_from};

use crate::cursor::Cursor;
use crate::fault::{FaultKind, FormatFault};
use crate::head::Head;
use std::str;

// The high bit of each of eight bytes.
const HIGH_BITS: u64 = 0x8080_8080_8080_8080;

/// The bytes as text, or None where they aren't UTF-8. Most texts are ASCII, which is told eight
/// bytes at a time.
#[inline(always)]
pub fn utf8_text(bytes: &[u8]) -> Option<&str>
    ensures { MatchOption result (is_utf8 bytes.now ≡ false)
        (λ t. (is_utf8 bytes.now ≡ true) × (t.now ≡ bytes.now)) }
{
    if is_ascii(bytes) {
        return Some(unsafe { str::from_utf8_unchecked(bytes) });
    }
    tested_text(bytes)
}

// The bytes as text, or None where they aren't UTF-8.
fn tested_text(bytes: &[u8]) -> Option<&str>
    ensures { MatchOption result (is_utf8 bytes.now ≡ false)
        (λ t. (is_utf8 bytes.now ≡ true) × (t.now ≡ bytes.now)) }
{
    match str::from_utf8(bytes) {
        Ok(text) => Some(text),
        Err(_) => None,
    }
}

// Whether the bytes are ASCII, by words of eight bytes, of which the last may overlap the one before.
#[inline(always)]
fn is_ascii(bytes: &[u8]) -> bool
    ensures { IsTrue result → IsAscii bytes.now }
{
    if bytes.len() < 8 {
        return all_bits(bytes) < 0x80;
    }
    let mut at = 0;
    while at < bytes.len() - 8 {
        if high_bits(rest_from(bytes, at)) != 0 {
            return false;
        }
        at += 8;
    }
    high_bits(rest_from(bytes, bytes.len() - 8)) == 0
}

// The high bits of the first eight bytes. Where none is set, each of these is ASCII.
#[inline(always)]
fn high_bits(bytes: &[u8]) -> u64
    requires { 8 ≤ length bytes.now }
    ensures { result ≡ 0 → (k : ℕ) → k < 8 → slice_index bytes.now k < 128 }
{
    match bytes {
        [a, b, c, d, e, f, g, h, ..] => {
            u64::from_le_bytes([*a, *b, *c, *d, *e, *f, *g, *h]) & HIGH_BITS
        }
        _ => unreachable!(),
    }
}

// The bytes from a place on.
#[inline(always)]
fn rest_from(bytes: &[u8], at: usize) -> &[u8]
    requires { at ≤ length bytes.now }
    ensures { result.now ≡ drop at bytes.now }
{
    &bytes[at..]
}

// The bits that are set in one of the bytes or more.
#[inline(always)]
fn all_bits(bytes: &[u8]) -> u8
    ensures { result < 128 → IsAscii bytes.now }
{
    let mut bits = 0;
    for byte in bytes {
        bits |= *byte;
    }
    bits
}

impl<'a> Cursor<'a> {
    /// The number of pairs of the map that must stand here; the cursor goes behind its head.
    ///
    /// `Short` and `Reserved` as `head` does; `Wrong` at the head where another kind of value
    /// stands. After a fault the cursor has not moved.
    pub fn map_len(&mut self) -> Result<u32, FormatFault>
        ensures found { IfOk result (λ pairs. HeadLies (Head.Map pairs) self.old self.new) }
        ensures unchanged { OnErr result (self.new ≡ self.old) }
        // It stays in the bytes that it goes over.
        ensures within { (bytes : List ℕ) → IsIn bytes self.old → IsIn bytes self.new }

        ensures exact { Steps (λ pairs. pairs) self.old self.new result (map_head_from self.old) }
    {
        let mut ahead = self.copy();
        let pairs = map_len_ahead(&mut ahead)?;
        *self = ahead;
        Ok(pairs)
    }

    /// The text that must stand here; the cursor goes behind it.
    ///
    /// `Short` and `Reserved` where it breaks off, as `skip` does. `Wrong` at its head where it is
    /// no str, `NotText` at its head where it isn't UTF-8. After a fault the cursor has not moved.
    pub fn text(&mut self) -> Result<&'a str, FormatFault>
        // What is taken is this text.
        ensures found { IfOk result (λ text. ValueLies str_of (Some text.now) self.old self.new) }
        // A fault is the first one of a value that must be text.
        ensures fault { IfErr result (λ f. IsFirstFault (WithBreaks TextFault self.old) f) }
        ensures unchanged { OnErr result (self.new ≡ self.old) }
        // It stays in the bytes that it goes over.
        ensures within { (bytes : List ℕ) → IsIn bytes self.old → IsIn bytes self.new }

        ensures exact { Steps (λ text. text.now) self.old self.new result (text_from self.old) }
    {
        if let Some((bytes, len)) = self.short_str()
            && let Some(text) = utf8_text(bytes)
        {
            self.pass(len);
            return Ok(text);
        }
        let mut ahead = self.copy();
        let text = text_ahead(&mut ahead)?;
        *self = ahead;
        Ok(text)
    }

    /// The bytes of the str that stands here, or None of a value of another kind; the cursor goes
    /// behind the value.
    ///
    /// `Short` and `Reserved` where the value breaks off, as `skip` does. After a fault the cursor
    /// has not moved.
    #[inline(always)]
    pub fn str_or_skip(&mut self) -> Result<Option<&'a [u8]>, FormatFault>
        // What is taken is a value with these bytes, or one that is no str.
        ensures found { IfOk result (λ bytes.
            ValueLies str_of (bytes_behind bytes) self.old self.new) }
        // A fault is the place where the value breaks off.
        ensures fault { IfErr result (λ f. Breaks 1 self.old f) }
        ensures unchanged { OnErr result (self.new ≡ self.old) }
        // It stays in the bytes that it goes over.
        ensures within { (bytes : List ℕ) → IsIn bytes self.old → IsIn bytes self.new }

        ensures exact { Steps bytes_behind self.old self.new result (str_from self.old) }
    {
        if let Some((bytes, len)) = self.short_str() {
            self.pass(len);
            return Ok(Some(bytes));
        }
        let mut ahead = self.copy();
        let bytes = str_or_skip_ahead(&mut ahead)?;
        *self = ahead;
        Ok(bytes)
    }

    /// The whole number from 0 to 2^64 - 1 that stands here, or None of another value; the cursor
    /// goes behind the value.
    ///
    /// `Short` and `Reserved` where the value breaks off, as `skip` does. After a fault the cursor
    /// has not moved.
    pub fn number_or_skip(&mut self) -> Result<Option<u64>, FormatFault>
        // What is taken is this number, or a value that is none.
        ensures found { IfOk result (λ number. ValueLies number_of number self.old self.new) }
        // A fault is the place where the value breaks off.
        ensures fault { IfErr result (λ f. Breaks 1 self.old f) }
        ensures unchanged { OnErr result (self.new ≡ self.old) }
        // It stays in the bytes that it goes over.
        ensures within { (bytes : List ℕ) → IsIn bytes self.old → IsIn bytes self.new }

        ensures exact { Steps (λ number. number) self.old self.new result (number_from self.old) }
    {
        if let Some((number, len)) = self.unsigned() {
            self.pass(len);
            return Ok(Some(number));
        }
        let mut ahead = self.copy();
        let number = number_or_skip_ahead(&mut ahead)?;
        *self = ahead;
        Ok(number)
    }
}

#[tactic(auto, unfolding(crate::specs::Maps::map_head_from))]
fn map_len_ahead(cursor: &mut Cursor<'_>) -> Result<u32, FormatFault>
    ensures { Advances (λ pairs. pairs) cursor.new result (map_head_from cursor.old) }
{
    let at = cursor.at();
    match cursor.head()? {
        Head::Map(pairs) => Ok(pairs),
        Head::Nil | Head::Bool(_) | Head::Int(_) | Head::Float => {
            Err(FormatFault::new(at, FaultKind::Wrong))
        }
        Head::Str(_) | Head::Bin(_) | Head::Array(_) | Head::Ext(_) => {
            Err(FormatFault::new(at, FaultKind::Wrong))
        }
    }
}

#[tactic(auto, unfolding(crate::specs::Maps::text_from))]
fn text_ahead<'a>(cursor: &mut Cursor<'a>) -> Result<&'a str, FormatFault>
    ensures { Advances (λ text. text.now) cursor.new result (text_from cursor.old) }
{
    let at = cursor.at();
    let Head::Str(len) = cursor.head()? else {
        return Err(FormatFault::new(at, FaultKind::Wrong));
    };
    let bytes = cursor.take(len)?;
    match utf8_text(bytes) {
        Some(text) => Ok(text),
        None => Err(FormatFault::new(at, FaultKind::NotText)),
    }
}

#[tactic(auto, unfolding(crate::specs::Maps::str_from))]
fn str_or_skip_ahead<'a>(cursor: &mut Cursor<'a>) -> Result<Option<&'a [u8]>, FormatFault>
    ensures { Advances bytes_behind cursor.new result (str_from cursor.old) }
{
    let mut ahead = cursor.copy();
    if let Head::Str(len) = ahead.head()? {
        let bytes = ahead.take(len)?;
        *cursor = ahead;
        return Ok(Some(bytes));
    }
    cursor.skip()?;
    Ok(None)
}

#[tactic(auto, unfolding(crate::specs::Maps::number_from))]
fn number_or_skip_ahead(cursor: &mut Cursor<'_>) -> Result<Option<u64>, FormatFault>
    ensures { Advances (λ number. number) cursor.new result (number_from cursor.old) }
{
    let mut ahead = cursor.copy();
    if let Head::Int(number) = ahead.head()?
        && let Ok(number) = u64::try_from(number)
    {
        *cursor = ahead;
        return Ok(Some(number));
    }
    cursor.skip()?;
    Ok(None)
}
