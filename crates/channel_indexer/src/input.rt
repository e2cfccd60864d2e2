//! The records of `repodata.json`.

ghost use Rattle.std.specs.Prelude.{◌≡◌, ◌++◌, ◌<◌, ◌^◌, OnOk, OnErr, vec_len};
ghost use Rattle.serde_json.specs.View.{view, members_view};
ghost use Rattle.serde_json.specs.Find.{get};
ghost use Rattle.gateway_words.specs.Reading.{Gives};
ghost use Rattle.channel_indexer.specs.Input.{fault_of, json_in, members_of, row_of, row_if_named, rows_of, rows_in, rows_from};
ghost use Rattle.conda_name.specs.Name.{name_of};
ghost use Rattle.channel_indexer.specs.Seen.{members_lent, behind};

use crate::fault::IndexFault;
use crate::plain::{PlainRefusal, plain_rows};
use conda_name::{Name, NameRefusal};
use conda_record::{JsonRefusal, PackageRecord};
use mp_codec::Text;
use serde_json::error::Category;
use serde_json::{Map, Value};
use shard_file::FileRecord;
use std::alloc::Global;

/// What `repodata.json` says, and the value of JSON that says it, if one was made.
#[derive(Drop)]
pub(crate) struct Input {
    pub(crate) records: Vec<FileRecord>,
    pub(crate) value: Option<Value>,
}

/// The records that the bytes of `repodata.json` say, those of `packages` first, each part in the
/// order of its file names. A plain file needs no value; any other one is read as a value, which
/// decides what is wrong.
pub(crate) fn read(alloc: Global, bytes: Vec<u8>) -> Result<Input, IndexFault>
    ensures { Gives (λ input. input.records.items) fault_of result (rows_from bytes.items) }
{
    match plain_rows(alloc, &bytes) {
        Ok(records) => Ok(Input {
            records,
            value: None,
        }),
        Err(PlainRefusal::Memory) => Err(IndexFault::Memory),
        Err(PlainRefusal::Irregular) => read_value(alloc, bytes),
    }
}

// The records by the value that the bytes are. The bytes are given back before the records are
// made. The value goes with them: its pieces are many and small, and an allocator that gets them
// back joins them all for the next large piece that it is asked for.
#[tactic(auto, unfolding(crate::specs::Input::rows_from))]
fn read_value(alloc: Global, bytes: Vec<u8>) -> Result<Input, IndexFault>
    ensures { Gives (λ input. input.records.items) fault_of result (rows_from bytes.items) }
{
    let value = parsed(alloc, &bytes)?;
    drop(bytes);
    Ok(Input {
        records: records_in(alloc, &value)?,
        value: Some(value),
    })
}

// The value that the bytes are.
fn parsed(alloc: Global, bytes: &[u8]) -> Result<Value, IndexFault>
    ensures { Gives view fault_of result (json_in bytes.now) }
{
    let error = match Value::from_slice(alloc, bytes) {
        Ok(value) => return Ok(value),
        Err(error) => error,
    };
    match error.classify() {
        Category::Memory => Err(IndexFault::Memory),
        _ => Err(IndexFault::Json),
    }
}

#[tactic(auto, using(crate::proofs::InputLemmas::behind_nothing))]
// The records of both parts of the value.
fn records_in(alloc: Global, value: &Value) -> Result<Vec<FileRecord>, IndexFault>
    ensures { Gives (λ rows. rows.items) fault_of result (rows_in (view value.now)) }
{
    if !value.is_object() {
        return Err(IndexFault::Json);
    }
    let packages = part(value, "packages")?;
    let conda = part(value, "packages.conda")?;
    let mut records = Vec::with_capacity(alloc, count(packages) + count(conda))?;
    add_records(alloc, &mut records, packages, false)?;
    add_records(alloc, &mut records, conda, true)?;
    Ok(records)
}

// The files behind a key, if the key is there.
fn part<'a>(value: &'a Value, key: &str) -> Result<Option<&'a Map<String, Value>>, IndexFault>
    ensures { Gives members_lent fault_of result (members_of (get key.now (view value.now))) }
{
    let Some(part) = value.get(key) else {
        return Ok(None);
    };
    match part.as_object() {
        Some(files) => Ok(Some(files)),
        None => Err(IndexFault::Json),
    }
}

// How many files a part has, none where it is missing.
fn count(files: Option<&Map<String, Value>>) -> usize
    ensures { result < 2 ^ 63 }
{
    match files {
        Some(files) => files.len(),
        None => 0,
    }
}

// Appends the records of the files of a part, none where it is missing.
fn add_records(
    alloc: Global,
    records: &mut Vec<FileRecord>,
    files: Option<&Map<String, Value>>,
    conda: bool,
) -> Result<(), IndexFault>
    ensures { Gives (λ _. records.new.items) fault_of result
        (behind records.old.items (rows_of conda (members_lent files.entry))) }
{
    match files {
        Some(files) => add_records_of_files(alloc, records, files, conda),
        None => Ok(()),
    }
}

// Appends the records of some files, in the order of their names.
fn add_records_of_files(
    alloc: Global,
    records: &mut Vec<FileRecord>,
    files: &Map<String, Value>,
    conda: bool,
) -> Result<(), IndexFault>
    ensures { Gives (λ _. records.new.items) fault_of result
        (behind records.old.items (rows_of conda (members_view files.now.entries))) }
{
    for (file, value) in files {
        records.push(record(alloc, file.as_str(), conda, value)?)?;
    }
    Ok(())
}

// The record of one file.
fn record(alloc: Global, file: &str, conda: bool, value: &Value) -> Result<FileRecord, IndexFault>
    ensures { Gives (λ row. row) fault_of result (row_of conda file.now (view value.now)) }
{
    match PackageRecord::from_json(alloc, value) {
        Ok(value) => named(alloc, file, conda, value),
        Err(JsonRefusal::Fields) => Err(IndexFault::Fields(Text::copy(alloc, file)?)),
        Err(JsonRefusal::Memory) => Err(IndexFault::Memory),
    }
}

// The record of one file, whose name has to be that of a package.
pub(crate) fn named(
    alloc: Global,
    file: &str,
    conda: bool,
    value: PackageRecord,
) -> Result<FileRecord, IndexFault>
    ensures { Gives (λ row. row) fault_of result
        (row_if_named conda file.now value (name_of value.name)) }
{
    match Name::read(alloc, value.view().name()) {
        Ok(_) => Ok(FileRecord {
            file: Text::copy(alloc, file)?,
            conda,
            value,
        }),
        Err(NameRefusal::Memory) => Err(IndexFault::Memory),
        Err(NameRefusal::Empty | NameRefusal::Char(_)) => {
            Err(IndexFault::Fields(Text::copy(alloc, file)?))
        }
    }
}
