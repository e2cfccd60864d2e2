//! Writing an index behind what a vector holds.

ghost use Rattle.std.specs.Prelude.{◌≡◌, ◌<◌, ◌^◌, ◌++◌, true, length, take, OnOk, OnErr};
ghost use Rattle.std.specs.List.{flat_map, All};
ghost use Rattle.std.specs.Str.{is_utf8};
ghost use Rattle.mp_codec.specs.Writing.{bin_bytes};
ghost use Rattle.shard_index.specs.Index.{IndexOf};
ghost use Rattle.shard_index.specs.Writing.{
  entry_bytes,
  index_bytes,
  IsShort,
  IsWritable,
  IsEntry,
  contents_written,
  text_pair,
  version_pair,
  bases_pairs,
  info_pair,
  shards_pair,
};

use crate::info::{DEFAULT_BASE, DEFAULT_SHARDS_BASE};
use conda_name::Name;
use digest_gate::Digest;
use mp_codec::{cut_back, put_bin, put_map, put_str, put_uint};
use std::alloc::AllocError;

/// A name that is to be listed, and the digest of its shard.
#[derive(Debug, Drop)]
pub struct IndexRow {
    /// The name.
    pub name: Name,
    /// The digest of the name's shard.
    pub digest: Digest,
}

/// Appends the index of a subdir, whose packages and shards stand beside it, by the shortest
/// spellings: the version 1, the info, and the names in their order with their digests as bytes.
///
/// It has no time of its making, so equal names give equal bytes. At want of memory the vector is as
/// before. (`docs/FORMATS.md`, "Indexes".)
pub fn write_index(subdir: &str, rows: &[IndexRow], out: &mut Vec<u8>) -> Result<(), AllocError>
    requires { IsWritable subdir.now rows.now }
    ensures ok { OnOk result (out.new.items
        ≡ out.old.items ++ index_bytes subdir.now rows.now) }
    // What was written is read as the names and the subdir that it was written for.
    ensures read_again { OnOk result (IndexOf (index_bytes subdir.now rows.now)
        (contents_written subdir.now rows.now)) }
    ensures unchanged { OnErr result (out.new.items ≡ out.old.items) }
{
    let old = out.len();
    let outcome = put_index(out, subdir, rows);
    cut_back(out, old, outcome)
}

// Appends an index; at want of memory some of it may stand.
fn put_index(out: &mut Vec<u8>, subdir: &str, rows: &[IndexRow]) -> Result<(), AllocError>
    requires { IsWritable subdir.now rows.now }
    ensures ok { OnOk result (out.new.items
        ≡ out.old.items ++ index_bytes subdir.now rows.now) }
    ensures entries { OnOk result (All IsEntry rows.now) }
    ensures kept { OnErr result (take (length out.old.items) out.new.items ≡ out.old.items) }
{
    put_map(out, 3)?;
    put_version(out)?;
    put_info(out, subdir)?;
    put_shards(out, rows)
}

// Appends the version.
#[tactic(auto, unfolding(crate::specs::Writing::version_pair))]
fn put_version(out: &mut Vec<u8>) -> Result<(), AllocError>
    ensures ok { OnOk result (out.new.items ≡ out.old.items ++ version_pair) }
    ensures kept { OnErr result (take (length out.old.items) out.new.items ≡ out.old.items) }
{
    put_str(out, "version")?;
    put_uint(out, 1)
}

// Appends the info.
#[tactic(auto, unfolding(crate::specs::Writing::info_pair))]
fn put_info(out: &mut Vec<u8>, subdir: &str) -> Result<(), AllocError>
    requires { IsShort subdir.now }
    ensures ok { OnOk result (out.new.items ≡ out.old.items ++ info_pair subdir.now) }
    ensures kept { OnErr result (take (length out.old.items) out.new.items ≡ out.old.items) }
{
    put_str(out, "info")?;
    put_map(out, 3)?;
    put_bases(out)?;
    put_text(out, "subdir", subdir)
}

// Appends the bases that stand for missing ones.
#[tactic(auto, unfolding(crate::specs::Writing::bases_pairs))]
fn put_bases(out: &mut Vec<u8>) -> Result<(), AllocError>
    ensures ok { OnOk result (out.new.items ≡ out.old.items ++ bases_pairs) }
    ensures kept { OnErr result (take (length out.old.items) out.new.items ≡ out.old.items) }
{
    put_text(out, "base_url", DEFAULT_BASE)?;
    put_text(out, "shards_base_url", DEFAULT_SHARDS_BASE)
}

// Appends a key and a text.
#[tactic(auto, unfolding(crate::specs::Writing::text_pair))]
fn put_text(out: &mut Vec<u8>, key: &str, text: &str) -> Result<(), AllocError>
    requires { (IsShort key.now) × IsShort text.now }
    ensures ok { OnOk result (out.new.items ≡ out.old.items ++ text_pair key.now text.now) }
    ensures kept { OnErr result (take (length out.old.items) out.new.items ≡ out.old.items) }
{
    put_str(out, key)?;
    put_str(out, text)
}

// Appends the names with their digests.
#[tactic(auto, unfolding(crate::specs::Writing::shards_pair))]
fn put_shards(out: &mut Vec<u8>, rows: &[IndexRow]) -> Result<(), AllocError>
    requires { (length rows.now < 2 ^ 32) × All (λ x. IsShort x.name) rows.now }
    ensures ok { OnOk result (out.new.items ≡ out.old.items ++ shards_pair rows.now) }
    ensures entries { OnOk result (All IsEntry rows.now) }
    ensures kept { OnErr result (take (length out.old.items) out.new.items ≡ out.old.items) }
{
    put_str(out, "shards")?;
    put_map(out, rows.len() as u32)?;
    put_entries(out, rows)
}

// Appends names with their digests, one behind the other.
fn put_entries(out: &mut Vec<u8>, rows: &[IndexRow]) -> Result<(), AllocError>
    requires { All (λ x. IsShort x.name) rows.now }
    ensures ok { OnOk result (out.new.items ≡ out.old.items ++ flat_map entry_bytes rows.now) }
    ensures entries { OnOk result (All IsEntry rows.now) }
    ensures kept { OnErr result (take (length out.old.items) out.new.items ≡ out.old.items) }
{
    for row in rows {
        put_entry(out, row)?;
    }
    Ok(())
}

// Appends a name with its digest.
#[tactic(auto, unfolding(crate::specs::Writing::entry_bytes))]
fn put_entry(out: &mut Vec<u8>, row: &IndexRow) -> Result<(), AllocError>
    requires { IsShort row.now.name }
    ensures ok { OnOk result (out.new.items ≡ out.old.items ++ entry_bytes row.now) }
    ensures entry { OnOk result (IsEntry row.now) }
    ensures kept { OnErr result (take (length out.old.items) out.new.items ≡ out.old.items) }
{
    let name = shown(row);
    put_str(out, name)?;
    put_digest(out, row.digest.0)
}

// Appends the bytes of a digest.
fn put_digest(out: &mut Vec<u8>, digest: [u8; 32]) -> Result<(), AllocError>
    ensures ok { OnOk result (out.new.items ≡ out.old.items ++ bin_bytes digest) }
    ensures length { length digest ≡ 32 }
    ensures unchanged { OnErr result (out.new.items ≡ out.old.items) }
{
    put_bin(out, &digest)
}

// The name of a row, which is UTF-8.
fn shown(row: &IndexRow) -> &str
    ensures same { result.now ≡ row.now.name }
    ensures text { is_utf8 row.now.name ≡ true }
{
    row.name.as_str()
}
