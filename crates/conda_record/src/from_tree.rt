//! Package records out of JSON values that borrow their text.

ghost use Rattle.std.specs.Prelude.{◌≡◌, [], unwrap_or, option_map, option_and_then, IfOk};
ghost use Rattle.json.specs.Value.{value_view};
ghost use Rattle.serde_json.specs.Find.{as_str};
ghost use Rattle.serde_json.specs.Read.{of_json};
ghost use Rattle.conda_record.specs.Json.{said_at, number_of, texts_of, digest_of, fields_with, fields_of_json};
ghost use Rattle.conda_record.specs.InTree.{data_in};

use crate::record::PackageRecord;
use crate::tree::Tree;
use hex::FromHex;
use json::Value;
use mp_codec::Text;
use std::alloc::{AllocError, Global};

impl PackageRecord {
    #[tactic(auto, unfolding(crate::specs::Json::fields_of_json))]
    /// The record that a value of JSON says, as `from_json` reads it. None where the value has a
    /// number that is out of range, isn't an object, or one of the three required strings isn't
    /// there.
    pub fn from_tree(alloc: Global, value: &Value<'_>) -> Result<Option<PackageRecord>, AllocError>
        ensures { IfOk result (λ read.
            read ≡ option_and_then fields_of_json (of_json (value_view value.now))) }
    {
        match Tree::new(value) {
            Some(tree) => record_in(alloc, tree),
            None => Ok(None),
        }
    }
}

// The record that some data says, if it is an object with the three required strings.
#[tactic(auto, unfolding(crate::specs::Json::fields_of_json))]
fn record_in(alloc: Global, tree: Tree<'_, '_>) -> Result<Option<PackageRecord>, AllocError>
    ensures { IfOk result (λ read. read ≡ fields_of_json (data_in tree.entry)) }
{
    let Some(name) = text(tree, "name") else {
        return Ok(None);
    };
    let Some(version) = text(tree, "version") else {
        return Ok(None);
    };
    let Some(build) = text(tree, "build") else {
        return Ok(None);
    };
    Ok(Some(record_with(alloc, name, version, build, tree)?))
}

// The record with these required texts.
fn record_with(
    alloc: Global,
    name: &str,
    version: &str,
    build: &str,
    tree: Tree<'_, '_>,
) -> Result<PackageRecord, AllocError>
    ensures { IfOk result (λ read.
        read ≡ fields_with name.now version.now build.now (data_in tree.entry)) }
{
    Ok(PackageRecord {
        name: Text::copy(alloc, name)?,
        version: Text::copy(alloc, version)?,
        build: Text::copy(alloc, build)?,
        build_number: whole(tree, "build_number").unwrap_or(0),
        depends: texts(alloc, tree, "depends")?,
        constrains: texts(alloc, tree, "constrains")?,
        subdir: optional(alloc, tree, "subdir")?,
        md5: digest(tree, "md5"),
        sha256: digest(tree, "sha256"),
        size: whole(tree, "size"),
        timestamp: whole(tree, "timestamp"),
        license: optional(alloc, tree, "license")?,
        noarch: optional(alloc, tree, "noarch")?,
    })
}

// The string behind a key, if that is what stands there.
fn text<'a>(tree: Tree<'_, 'a>, key: &str) -> Option<&'a str>
    ensures { option_map (λ text. text.now) result ≡ said_at as_str key.now (data_in tree.entry) }
{
    tree.get(key)?.as_str()
}

// A copy of the string behind a key, if that is what stands there.
fn optional(alloc: Global, tree: Tree<'_, '_>, key: &str) -> Result<Option<Text>, AllocError>
    ensures { IfOk result (λ text. text ≡ said_at as_str key.now (data_in tree.entry)) }
{
    match text(tree, key) {
        Some(text) => Ok(Some(Text::copy(alloc, text)?)),
        None => Ok(None),
    }
}

// The whole number behind a key, if that is what stands there.
fn whole(tree: Tree<'_, '_>, key: &str) -> Option<u64>
    ensures { result ≡ said_at number_of key.now (data_in tree.entry) }
{
    tree.get(key)?.as_u64()
}

// The digest whose hexadecimal digits stand behind a key, if that is what stands there.
fn digest<const N: usize>(tree: Tree<'_, '_>, key: &str) -> Option<[u8; N]>
    ensures { result ≡ said_at (digest_of N) key.now (data_in tree.entry) }
{
    <[u8; N] as FromHex>::from_hex(text(tree, key)?).ok()
}

// Copies of the strings of the array behind a key, or none where something else stands there.
fn texts(alloc: Global, tree: Tree<'_, '_>, key: &str) -> Result<Vec<Text>, AllocError>
    ensures { IfOk result (λ texts.
        texts.items ≡ unwrap_or (said_at texts_of key.now (data_in tree.entry)) []) }
{
    match tree.get(key) {
        Some(items) => items.texts(alloc),
        None => Ok(Vec::new(alloc)),
    }
}

#[cfg(test)]
mod tests;
