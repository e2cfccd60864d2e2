//! Writing a shard behind what a vector holds.

ghost use Rattle.std.specs.Prelude.{◌≡◌, ◌+◌, ◌<◌, ◌≤◌, ◌^◌, ◌++◌, ℕ, Bool, Some, None, OnOk, OnErr, length, take, codes, vec_len};
ghost use Rattle.std.specs.Bool.{Decides};
ghost use Rattle.std.specs.Ordering.{is_lt};
ghost use Rattle.std.specs.List.{flat_map, All};
ghost use Rattle.std.specs.List.Sorted.{IsStrictlySortedBy};
ghost use Rattle.mp_codec.specs.Writing.{str_bytes, array_head, pair_bytes};
ghost use Rattle.shard_file.specs.Rows.{ShardOf};
ghost use Rattle.shard_file.specs.Writing.{
  stands_in,
  rows_under,
  file_bytes,
  files_bytes,
  files_pair,
  removed_pair,
  shard_bytes,
  row_cmp,
  IsWritableRow,
  AreWritable,
  IsReadableRow,
  bytes_under,
  IsReadableUnder,
};
ghost use Rattle.conda_record.specs.Writing.{AreText};

use crate::shard::FileRecord;
use mp_codec::{cut_back, put_array, put_map, put_str};
use std::alloc::AllocError;
use std::cmp::Ordering;

/// Whether these files can be written as one shard: they ascend by their names, `packages` first at
/// one name, none stands twice, and they, their names, texts and lists are fewer than 2^32.
pub fn can_write_shard(files: &[FileRecord]) -> bool
    ensures { Decides result (AreWritable files.now) }
{
    (files.len() as u64) < 0x1_0000_0000 && are_ascending(files) && is_each_writable(files)
}

// Whether each file comes before those that follow it.
fn are_ascending(files: &[FileRecord]) -> bool
    ensures { Decides result (IsStrictlySortedBy row_cmp files.now) }
{
    for i in 1..files.len() {
        if !comes_before(&files[i - 1], &files[i]) {
            return false;
        }
    }
    true
}

// Whether the first file comes before the second.
fn comes_before(first: &FileRecord, second: &FileRecord) -> bool
    ensures { result ≡ is_lt (row_cmp first.now second.now) }
{
    match first.file.as_str().cmp(second.file.as_str()) {
        Ordering::Less => true,
        Ordering::Equal => !first.conda && second.conda,
        Ordering::Greater => false,
    }
}

// Whether each file's name and record can be written.
fn is_each_writable(files: &[FileRecord]) -> bool
    ensures { Decides result (All IsWritableRow files.now) }
{
    for file in files {
        if !is_row_writable(file) {
            return false;
        }
    }
    true
}

// Whether the file's name and record can be written.
fn is_row_writable(file: &FileRecord) -> bool
    ensures { Decides result (IsWritableRow file.now) }
{
    (file.file.as_str().len() as u64) < 0x1_0000_0000 && file.value.is_writable()
}

/// Appends the shard of these files: a map of `packages`, `packages.conda` and an empty `removed`,
/// by the shortest spellings, the files of each in their order.
///
/// `can_write_shard` is the test of the condition.
/// At want of memory the vector is as before. (CEP 16, "shards"; `docs/FORMATS.md`, "Shards".)
pub fn write_shard(files: &[FileRecord], out: &mut Vec<u8>) -> Result<(), AllocError>
    requires { AreWritable files.now }
    ensures ok { OnOk result (out.new.items ≡ out.old.items ++ shard_bytes files.now) }
    // What was written is read as these files, where nothing follows it.
    ensures read_again { OnOk result (ShardOf (shard_bytes files.now) files.now) }
    ensures unchanged { OnErr result (out.new.items ≡ out.old.items) }
{
    let old = out.len();
    let outcome = put_shard(out, files);
    cut_back(out, old, outcome)
}

// Appends a shard; at want of memory some of it may stand.
fn put_shard(out: &mut Vec<u8>, files: &[FileRecord]) -> Result<(), AllocError>
    requires { AreWritable files.now }
    ensures ok { OnOk result (out.new.items ≡ out.old.items ++ shard_bytes files.now) }
    ensures rows { OnOk result (All IsReadableRow files.now) }
    ensures kept { OnErr result (take (length out.old.items) out.new.items ≡ out.old.items) }
{
    put_map(out, 3)?;
    put_files(out, "packages", files, false)?;
    put_files(out, "packages.conda", files, true)?;
    put_removed(out)
}

// Appends the key `removed` and an empty list.
#[tactic(auto, unfolding(crate::specs::Writing::removed_pair))]
fn put_removed(out: &mut Vec<u8>) -> Result<(), AllocError>
    ensures ok { OnOk result (out.new.items ≡ out.old.items ++ removed_pair) }
    ensures kept { OnErr result (take (length out.old.items) out.new.items ≡ out.old.items) }
{
    put_str(out, "removed")?;
    put_array(out, 0)
}

// Appends the key of one of the two maps of files, and that map.
#[tactic(auto, unfolding(crate::specs::Writing::files_pair, crate::specs::Writing::files_bytes))]
fn put_files(
    out: &mut Vec<u8>,
    key: &str,
    files: &[FileRecord],
    conda: bool,
) -> Result<(), AllocError>
    requires { (length key.now < 2 ^ 32) × AreWritable files.now }
    ensures ok { OnOk result (out.new.items ≡ out.old.items ++ files_pair key.now conda files.now) }
    ensures rows { OnOk result (All (IsReadableUnder conda) files.now) }
    ensures kept { OnErr result (take (length out.old.items) out.new.items ≡ out.old.items) }
{
    put_str(out, key)?;
    put_map(out, count(files, conda))?;
    put_rows(out, files, conda)
}

// Whether the file stands in this one of the two maps.
fn is_under(file: &FileRecord, conda: bool) -> bool
    ensures { result ≡ stands_in conda file.now }
{
    file.conda == conda
}

// How many of the files stand in this one of the two maps.
fn count(files: &[FileRecord], conda: bool) -> u32
    requires { length files.now < 2 ^ 32 }
    ensures { result ≡ length (rows_under conda files.now) }
{
    let mut count = 0;
    for file in files {
        count += u32::from(is_under(file, conda));
    }
    count
}

// Appends those of the files that stand in this one of the two maps.
fn put_rows(out: &mut Vec<u8>, files: &[FileRecord], conda: bool) -> Result<(), AllocError>
    requires { All IsWritableRow files.now }
    ensures ok { OnOk result (out.new.items
        ≡ out.old.items ++ flat_map file_bytes (rows_under conda files.now)) }
    ensures rows { OnOk result (All (IsReadableUnder conda) files.now) }
    ensures kept { OnErr result (take (length out.old.items) out.new.items ≡ out.old.items) }
{
    for file in files {
        put_row_if(out, file, conda)?;
    }
    Ok(())
}

// Appends a file name and its record, if the file stands in this one of the two maps.
fn put_row_if(out: &mut Vec<u8>, file: &FileRecord, conda: bool) -> Result<(), AllocError>
    requires { IsWritableRow file.now }
    ensures ok { OnOk result (out.new.items ≡ out.old.items ++ bytes_under conda file.now) }
    ensures row { OnOk result (IsReadableUnder conda file.now) }
    ensures kept { OnErr result (take (length out.old.items) out.new.items ≡ out.old.items) }
{
    if !is_under(file, conda) {
        return Ok(());
    }
    put_row(out, file)
}

// Appends a file name and its record.
#[tactic(auto, unfolding(crate::specs::Writing::file_bytes))]
fn put_row(out: &mut Vec<u8>, file: &FileRecord) -> Result<(), AllocError>
    requires { IsWritableRow file.now }
    ensures ok { OnOk result (out.new.items ≡ out.old.items ++ file_bytes file.now) }
    ensures row { OnOk result (IsReadableRow file.now) }
    ensures kept { OnErr result (take (length out.old.items) out.new.items ≡ out.old.items) }
{
    put_str(out, name_of(file))?;
    file.value.write(out)
}

// The name of the file, which is text.
fn name_of(file: &FileRecord) -> &str
    ensures same { result.now ≡ file.now.file }
    ensures text { AreText file.now.file }
{
    file.file.as_str()
}
