//! Package records out of JSON, as `repodata.json` has them.

ghost use Rattle.std.specs.Prelude.{◌≡◌, [], Some, None, unwrap_or, option_map, IfOk, IsErrOf, MatchResult};
ghost use Rattle.serde_json.specs.View.{view, items_view};
ghost use Rattle.serde_json.specs.Find.{as_str, as_array};
ghost use Rattle.conda_record.specs.Json.{said_at, number_of, texts_of, texts_in, digest_of, fields_of_json};
ghost use Rattle.conda_record.specs.declared.from_json.JsonRefusal.TheVariants.{Memory};

use crate::record::PackageRecord;
use hex::FromHex;
use mp_codec::Text;
use serde_json::Value;
use std::alloc::{AllocError, AllocFailed, Global};

/// Why a value of JSON gave no record.
#[derive(Clone, Copy, Debug, PartialEq, Eq)]
pub enum JsonRefusal {
    /// The value is no object, or its `name`, `version` or `build` is no string or isn't there.
    Fields,
    /// Memory ran out.
    Memory,
}

impl From<AllocError> for JsonRefusal {
    ghost from_gives = { λ _ refusal. refusal ≡ Memory };

    fn from(_error: AllocError) -> JsonRefusal {
        JsonRefusal::Memory
    }
}

impl PackageRecord {
    #[tactic(auto, unfolding(crate::specs::Json::fields_of_json))]
    /// The record that a value of JSON says. An optional key whose value is of another kind counts
    /// as missing.
    ///
    /// `Fields` where the value isn't an object, or one of the three required strings isn't there.
    pub fn from_json(alloc: Global, value: &Value) -> Result<PackageRecord, JsonRefusal>
        ensures ok { IfOk result (λ fields. fields_of_json (view value.now) ≡ Some fields) }
        ensures fields { IsErrOf result JsonRefusal.Fields
            → fields_of_json (view value.now) ≡ None }
    {
        Ok(PackageRecord {
            name: required(alloc, value, "name")?,
            version: required(alloc, value, "version")?,
            build: required(alloc, value, "build")?,
            build_number: number(value, "build_number").unwrap_or(0),
            depends: texts(alloc, value, "depends")?,
            constrains: texts(alloc, value, "constrains")?,
            subdir: optional(alloc, value, "subdir")?,
            md5: digest(value, "md5"),
            sha256: digest(value, "sha256"),
            size: number(value, "size"),
            timestamp: number(value, "timestamp"),
            license: optional(alloc, value, "license")?,
            noarch: optional(alloc, value, "noarch")?,
        })
    }
}

// The string behind a key, if that is what stands there.
fn text<'a>(value: &'a Value, key: &str) -> Option<&'a str>
    ensures { option_map (λ text. text.now) result ≡ said_at as_str key.now (view value.now) }
{
    value.get(key)?.as_str()
}

// A copy of the string that has to stand behind a key.
fn required(alloc: Global, value: &Value, key: &str) -> Result<Text, JsonRefusal>
    ensures ok { IfOk result (λ text. said_at as_str key.now (view value.now) ≡ Some text) }
    ensures fields { IsErrOf result JsonRefusal.Fields
        → said_at as_str key.now (view value.now) ≡ None }
{
    match text(value, key) {
        Some(text) => Ok(Text::copy(alloc, text)?),
        None => Err(JsonRefusal::Fields),
    }
}

// A copy of the string behind a key, if that is what stands there.
fn optional(alloc: Global, value: &Value, key: &str) -> Result<Option<Text>, AllocError>
    ensures { IfOk result (λ text. text ≡ said_at as_str key.now (view value.now)) }
{
    match text(value, key) {
        Some(text) => Ok(Some(Text::copy(alloc, text)?)),
        None => Ok(None),
    }
}

// The whole number behind a key, if that is what stands there.
fn number(value: &Value, key: &str) -> Option<u64>
    ensures { result ≡ said_at number_of key.now (view value.now) }
{
    value.get(key)?.as_u64()
}

// The digest whose hexadecimal digits stand behind a key, if that is what stands there.
fn digest<const N: usize>(value: &Value, key: &str) -> Option<[u8; N]>
    ensures { result ≡ said_at (digest_of N) key.now (view value.now) }
{
    <[u8; N] as FromHex>::from_hex(text(value, key)?).ok()
}

// Copies of the strings of the array behind a key, or none where something else stands there.
fn texts(alloc: Global, value: &Value, key: &str) -> Result<Vec<Text>, AllocError>
    ensures { IfOk result (λ texts.
        texts.items ≡ unwrap_or (said_at texts_of key.now (view value.now)) []) }
{
    match array(value, key) {
        Some(items) => copies(alloc, items),
        None => Ok(Vec::new(alloc)),
    }
}

// The elements of the array behind a key, if that is what stands there.
fn array<'a>(value: &'a Value, key: &str) -> Option<&'a [Value]>
    ensures { option_map (λ items. items_view items.now) result
        ≡ said_at as_array key.now (view value.now) }
{
    let items = value.get(key)?.as_array()?;
    Some(items.as_slice())
}

// Copies of the strings that some elements are, or none where one of them isn't a string.
fn copies(alloc: Global, items: &[Value]) -> Result<Vec<Text>, AllocError>
    ensures { IfOk result (λ texts.
        texts.items ≡ unwrap_or (texts_in (items_view items.now)) []) }
{
    let mut texts = Vec::with_capacity(alloc, items.len())?;
    for item in items {
        match item.as_str() {
            Some(text) => texts.push(Text::copy(alloc, text)?)?,
            None => return Ok(Vec::new(alloc)),
        }
    }
    Ok(texts)
}

#[cfg(test)]
mod tests;
