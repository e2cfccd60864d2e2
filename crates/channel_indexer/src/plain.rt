//! The records of a plain `repodata.json`, in one pass over its tokens: the keys of the file and the
//! file names of both parts ascend, and nothing is wrong with it. Any other file is read as a value
//! of JSON, which decides what is wrong.

ghost use Rattle.std.specs.Prelude.{◌≡◌, ◌<◌, [], ◌∷◌, length, Ok, Some, IfOk, IfSome, OnOk, IsTrue, option_map};
ghost use Rattle.json.specs.Token.{Token as SpecToken};
ghost use Rattle.json.specs.Json.{read_key, value};
ghost use Rattle.json.specs.Value.{value_view};
ghost use Rattle.serde_json.specs.Data.{Data, Members, object};
ghost use Rattle.serde_json.specs.Read.{of_json};
ghost use Rattle.channel_indexer.specs.declared.plain.PlainRefusal.TheVariants.{Irregular, Memory};
ghost use Rattle.channel_indexer.specs.Input.{row_of, rows_of, rows_in, rows_from};
ghost use Rattle.channel_indexer.specs.Seen.{behind};
ghost use Rattle.channel_indexer.specs.Plain.{IsNext, value_in, members_in, rows_behind};

use crate::fault::IndexFault;
use crate::input::named;
use conda_record::{PackageRecord, is_data};
use json::{Reader, Scratch, Token, Value};
use mp_codec::utf8_text;
use shard_file::FileRecord;
use std::alloc::{AllocError, AllocFailed, Global};
use std::cmp::Ordering;

// How deep arrays and objects may nest in a value behind a key of the file, where the whole file is
// at most 127 deep.
const PART_DEPTH: usize = 126;

// The same in the record of a file of a part.
const RECORD_DEPTH: usize = 125;

/// Why a file was not read as a plain one.
#[derive(Drop)]
pub(crate) enum PlainRefusal {
    /// It is not plain.
    Irregular,
    /// Memory ran out.
    Memory,
}

impl From<AllocError> for PlainRefusal {
    ghost from_gives = { λ _ refusal. refusal ≡ Memory };

    fn from(_error: AllocError) -> PlainRefusal {
        PlainRefusal::Memory
    }
}

impl<T: Drop> From<AllocFailed<T>> for PlainRefusal {
    ghost from_gives = { λ _ refusal. refusal ≡ Memory };

    fn from(_error: AllocFailed<T>) -> PlainRefusal {
        PlainRefusal::Memory
    }
}

impl From<json::Invalid> for PlainRefusal {
    ghost from_gives = { λ _ refusal. refusal ≡ Irregular };

    fn from(_error: json::Invalid) -> PlainRefusal {
        PlainRefusal::Irregular
    }
}

/// The rows of a plain file, those of `packages` first.
#[tactic(auto, unfolding(crate::specs::Input::rows_from))]
pub(crate) fn plain_rows(alloc: Global, bytes: &[u8]) -> Result<Vec<FileRecord>, PlainRefusal>
    ensures { IfOk result (λ rows. rows_from bytes.now ≡ Ok rows.items) }
{
    let text = utf8_text(bytes).ok_or(PlainRefusal::Irregular)?;
    let mut scratch = Scratch::new(alloc);
    let mut reader = Reader::new(text, &mut scratch)?;
    rows_of_file(alloc, &mut reader)
}

// The rows of the one object that all tokens are.
fn rows_of_file(alloc: Global, reader: &mut Reader<'_>) -> Result<Vec<FileRecord>, PlainRefusal>
    ensures { IfOk result (λ rows. (d : Data) × (value_in 127 reader.old ≡ Some (d, []))
        × (rows_in d ≡ Ok rows.items)) }
{
    begin_object(reader)?;
    let rows = rows_of_keys(alloc, reader)?;
    match reader.next() {
        Some(_) => Err(PlainRefusal::Irregular),
        None => Ok(rows),
    }
}

// Takes the brace that opens an object.
fn begin_object(reader: &mut Reader<'_>) -> Result<(), PlainRefusal>
    ensures { OnOk result (reader.old ≡ SpecToken.begin_object ∷ reader.new) }
{
    match reader.next() {
        Some(Token::BeginObject) => Ok(()),
        _ => Err(PlainRefusal::Irregular),
    }
}

// The rows behind the keys of the file, up to the brace that closes it.
fn rows_of_keys(alloc: Global, reader: &mut Reader<'_>) -> Result<Vec<FileRecord>, PlainRefusal>
    ensures { IfOk result (λ rows. (top : Members)
        × (members_in 126 reader.old ≡ Some (top, reader.new))
        × (rows_in (object top) ≡ Ok rows.items)) }
{
    let mut rows = Vec::new(alloc);
    let mut last: Option<&str> = None;
    'keys: while let Some(key) = next_key(reader, last)? {
        add_rows(alloc, reader, key, &mut rows)?;
        last = Some(key);
    }
    Ok(rows)
}

// The next key of an object, which has to come behind the last one, or None where the object ends.
fn next_key<'a>(
    reader: &mut Reader<'a>,
    last: Option<&str>,
) -> Result<Option<&'a str>, PlainRefusal>
    ensures key { IfOk result
        (λ key. read_key reader.old ≡ Some (option_map (λ k. k.now) key, reader.new)) }
    ensures next { IfOk result (λ key. IfSome key (λ k. IsNext last.entry k.now)) }
{
    let Some(key) = reader.next_key()? else {
        return Ok(None);
    };
    if is_next(last, key) {
        Ok(Some(key))
    } else {
        Err(PlainRefusal::Irregular)
    }
}

// Whether a key comes behind the last one, if there is one.
fn is_next(last: Option<&str>, key: &str) -> bool
    ensures { IsTrue result → IsNext last.entry key.now }
{
    match last {
        Some(last) => matches!(last.cmp(key), Ordering::Less),
        None => true,
    }
}

// Appends the rows of the value behind a key of the file.
fn add_rows(
    alloc: Global,
    reader: &mut Reader<'_>,
    key: &str,
    rows: &mut Vec<FileRecord>,
) -> Result<(), PlainRefusal>
    ensures rows { OnOk result ((d : Data) × (value_in 126 reader.old ≡ Some (d, reader.new))
        × (behind rows.old.items (rows_behind key.now d) ≡ Ok rows.new.items)) }
    ensures shorter { OnOk result (length reader.new < length reader.old) }
{
    if key == "packages" {
        return add_part(alloc, reader, false, rows);
    }
    if key == "packages.conda" {
        return add_part(alloc, reader, true, rows);
    }
    pass_value(alloc, reader)
}

// Passes a value that has no rows.
fn pass_value(alloc: Global, reader: &mut Reader<'_>) -> Result<(), PlainRefusal>
    ensures value { OnOk result ((d : Data) × (value_in 126 reader.old ≡ Some (d, reader.new))) }
    ensures shorter { OnOk result (length reader.new < length reader.old) }
{
    let value = read_value(alloc, reader, PART_DEPTH)?;
    if is_data(&value) {
        Ok(())
    } else {
        Err(PlainRefusal::Irregular)
    }
}

// The next value, nested no deeper than the number.
fn read_value<'a>(
    alloc: Global,
    reader: &mut Reader<'a>,
    depth: usize,
) -> Result<Value<'a>, PlainRefusal>
    ensures value { IfOk result (λ v. value depth reader.old ≡ Some (value_view v, reader.new)) }
    ensures shorter { OnOk result (length reader.new < length reader.old) }
{
    match Value::read(alloc, reader, depth) {
        Ok(value) => Ok(value),
        Err(json::Error::OutOfMemory) => Err(PlainRefusal::Memory),
        Err(_) => Err(PlainRefusal::Irregular),
    }
}

// Appends the rows of the files of a part.
fn add_part(
    alloc: Global,
    reader: &mut Reader<'_>,
    conda: bool,
    rows: &mut Vec<FileRecord>,
) -> Result<(), PlainRefusal>
    ensures rows { OnOk result ((files : Members)
        × (value_in 126 reader.old ≡ Some (object files, reader.new))
        × (behind rows.old.items (rows_of conda files) ≡ Ok rows.new.items)) }
    ensures shorter { OnOk result (length reader.new < length reader.old) }
{
    begin_object(reader)?;
    add_files(alloc, reader, conda, rows)
}

// Appends the rows of the files of a part, up to the brace that closes it.
fn add_files(
    alloc: Global,
    reader: &mut Reader<'_>,
    conda: bool,
    rows: &mut Vec<FileRecord>,
) -> Result<(), PlainRefusal>
    ensures rows { OnOk result ((files : Members)
        × (members_in 125 reader.old ≡ Some (files, reader.new))
        × (behind rows.old.items (rows_of conda files) ≡ Ok rows.new.items)) }
    ensures shorter { OnOk result (length reader.new < length reader.old) }
{
    let mut last: Option<&str> = None;
    'files: while let Some(file) = next_key(reader, last)? {
        rows.push(read_row(alloc, reader, file, conda)?)?;
        last = Some(file);
    }
    Ok(())
}

// The row of one file, whose value is next.
fn read_row(
    alloc: Global,
    reader: &mut Reader<'_>,
    file: &str,
    conda: bool,
) -> Result<FileRecord, PlainRefusal>
    ensures row { IfOk result (λ row. (d : Data)
        × (value_in 125 reader.old ≡ Some (d, reader.new))
        × (row_of conda file.now d ≡ Ok row)) }
    ensures shorter { OnOk result (length reader.new < length reader.old) }
{
    let value = read_value(alloc, reader, RECORD_DEPTH)?;
    plain_row(alloc, file, conda, &value)
}

// The row of one file and of its value.
fn plain_row(
    alloc: Global,
    file: &str,
    conda: bool,
    value: &Value<'_>,
) -> Result<FileRecord, PlainRefusal>
    ensures { IfOk result (λ row. (d : Data) × (of_json (value_view value.now) ≡ Some d)
        × (row_of conda file.now d ≡ Ok row)) }
{
    let fields = PackageRecord::from_tree(alloc, value)?.ok_or(PlainRefusal::Irregular)?;
    match named(alloc, file, conda, fields) {
        Ok(row) => Ok(row),
        Err(IndexFault::Memory) => Err(PlainRefusal::Memory),
        Err(_) => Err(PlainRefusal::Irregular),
    }
}
