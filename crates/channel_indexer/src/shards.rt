//! The bytes of the shards and of the index, with the names under which they are put.

ghost use Rattle.std.specs.Prelude.{◌≡◌, ◌≤◌, ◌<◌, ◌^◌, ◌++◌, true, length, map, IfOk, OnErr};
ghost use Rattle.std.specs.Ordering.{nat_cmp};
ghost use Rattle.std.specs.Cmp.Lexicographic.{slice_cmp};
ghost use Rattle.std.specs.List.Sorted.{IsStrictlySortedBy};
ghost use Rattle.std.specs.List.{All};
ghost use Rattle.conda_name.specs.Name.{IsName};
ghost use Rattle.channel_store.specs.Names.{is_place, is_store_name, input_name, index_name};
ghost use Rattle.digest_gate.specs.Digest.{IsDigest};
ghost use Rattle.channel_indexer.specs.Groups.{AreGroupsOf};
ghost use Rattle.channel_indexer.specs.Grouped.{group_of};
ghost use Rattle.channel_indexer.specs.Shards.{shard_file, shard_put, listed_of, index_put};
ghost use Rattle.channel_indexer.specs.Prepared.{MakesShard, MakesIndex, Prepares};

use crate::fault::{IndexFault, Large};
use crate::putting::Put;
use channel_store::{MOST_SERVED_BYTES, subdir_of};
use conda_name::Name;
use digest_gate::Digest;
use mp_codec::Text;
use shard_file::{FileRecord, can_write_shard, write_shard};
use shard_index::{IndexRow, write_index};
use std::alloc::{AllocError, Global};
use std::collections::BTreeMap;

// No head of MessagePack says a length of so many.
const MOST_SAID: u64 = 0x1_0000_0000;

/// What is to be put: the shards, ascending by their names, and the index.
#[derive(Drop)]
pub(crate) struct Prepared {
    pub(crate) shards: Vec<Put>,
    pub(crate) index: Put,
}

// The shard of one name, and its entry in the index.
#[derive(Drop)]
struct Made {
    put: Put,
    row: IndexRow,
}

/// The shards and the index of some groups of records.
///
/// `TooLong` with the least name whose shard is too long, or else with the index where it is. No
/// group is kept behind its bytes.
pub(crate) fn prepare(
    alloc: Global,
    place: &str,
    groups: BTreeMap<String, Vec<FileRecord>>,
) -> Result<Prepared, IndexFault>
    requires place { is_place place.now ≡ true }
    requires named { All IsName (map (λ g. g.name) (map group_of groups.entries)) }
    requires ascending { IsStrictlySortedBy (slice_cmp nat_cmp)
        (map (λ g. g.name) (map group_of groups.entries)) }
    ensures { Prepares place.now (map group_of groups.entries) result }
{
    let mut shards = Vec::with_capacity(alloc, groups.len())?;
    let mut rows = Vec::with_capacity(alloc, groups.len())?;
    for (name, records) in groups {
        let Made { put, row } = shard(alloc, place, name.as_str(), &records)?;
        shards.push(put)?;
        rows.push(row)?;
    }
    let index = index(alloc, place, &rows)?;
    Ok(Prepared { shards, index })
}

// The shard of one name.
fn shard(alloc: Global, place: &str, name: &str, records: &[FileRecord]) -> Result<Made, IndexFault>
    requires place { is_place place.now ≡ true }
    requires name { IsName name.now }
    ensures { MakesShard place.now (record { name = name.now; rows = records.now }) result }
{
    let name = name_of(alloc, name)?;
    if name.as_str().len() as u64 >= MOST_SAID || !can_write_shard(records) {
        return Err(IndexFault::TooLong(Large::Shard(name)));
    }
    let mut bytes = Vec::new(alloc);
    write_shard(records, &mut bytes)?;
    if bytes.len() > MOST_SERVED_BYTES {
        return Err(IndexFault::TooLong(Large::Shard(name)));
    }
    let digest = Digest::of(&bytes);
    let put = Put {
        name: shard_name(alloc, place, &digest)?,
        bytes,
    };
    Ok(Made {
        put,
        row: IndexRow { name, digest },
    })
}

// The name that a text is. A text that is a name is refused for want of memory alone.
fn name_of(alloc: Global, text: &str) -> Result<Name, IndexFault>
    requires { IsName text.now }
    ensures ok { IfOk result (λ name. name ≡ text.now) }
    ensures err { OnErr result (result ≡ Err IndexFault.Memory) }
{
    Name::read(alloc, text).map_err(|_| IndexFault::Memory)
}

// The index of these names.
fn index(alloc: Global, place: &str, rows: &[IndexRow]) -> Result<Put, IndexFault>
    requires place { is_place place.now ≡ true }
    requires ascending { IsStrictlySortedBy (slice_cmp nat_cmp) (map (λ x. x.name) rows.now) }
    requires short { All (λ x. length x.name < 2 ^ 32) rows.now }
    ensures { MakesIndex place.now rows.now result }
{
    if rows.len() as u64 >= MOST_SAID {
        return Err(IndexFault::TooLong(Large::Index));
    }
    let mut bytes = Vec::new(alloc);
    write_index(subdir_of(place), rows, &mut bytes)?;
    if bytes.len() > MOST_SERVED_BYTES {
        return Err(IndexFault::TooLong(Large::Index));
    }
    Ok(Put {
        name: index_name(alloc, place)?,
        bytes,
    })
}

/// The name of the file at a place that is indexed.
pub(crate) fn input_name(alloc: Global, place: &str) -> Result<Text, AllocError>
    requires { is_place place.now ≡ true }
    ensures name { IfOk result (λ name. name ≡ input_name place.now) }
    ensures stored { IfOk result (λ name. is_store_name name ≡ true) }
{
    joined(alloc, place, "/repodata.json")
}

// The name of the index of a place.
fn index_name(alloc: Global, place: &str) -> Result<Text, AllocError>
    requires { is_place place.now ≡ true }
    ensures name { IfOk result (λ name. name ≡ index_name place.now) }
    ensures stored { IfOk result (λ name. is_store_name name ≡ true) }
{
    joined(alloc, place, "/repodata_shards.msgpack")
}

// The name of the shard with this digest.
fn shard_name(alloc: Global, place: &str, digest: &Digest) -> Result<Text, AllocError>
    requires place { is_place place.now ≡ true }
    requires digest { IsDigest digest.now }
    ensures name { IfOk result (λ name. name ≡ shard_file place.now digest.now) }
    ensures stored { IfOk result (λ name. is_store_name name ≡ true) }
{
    shard_text(alloc, place, digest)
}

fn shard_text(alloc: Global, place: &str, digest: &Digest) -> Result<Text, AllocError>
    ensures { IfOk result (λ name. name ≡ shard_file place.now digest.now) }
{
    let mut behind = hex::encode(alloc, digest.0)?;
    behind.push_str(".msgpack")?;
    let folder = joined(alloc, place, "/shards/")?;
    joined(alloc, folder.as_str(), behind.as_str())
}

// Two texts, one behind the other.
fn joined(alloc: Global, front: &str, behind: &str) -> Result<Text, AllocError>
    ensures { IfOk result (λ text. text ≡ front.now ++ behind.now) }
{
    let mut text = String::from_str(alloc, front)?;
    text.push_str(behind)?;
    Text::copy(alloc, text.as_str())
}
