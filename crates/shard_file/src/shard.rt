//! A shard.

use crate::reading::sorted_rows;
use crate::refusal::ShardRefusal;
use crate::spans::FileSpans;
use conda_record::{PackageRecord, RecordRefusal, RecordView};
use mp_codec::Text;
use std::alloc::Global;
use std::marker::Model;

/// A package file with its record. Contracts see a row.
#[derive(Debug, Drop)]
pub struct FileRecord {
    /// The name of the package file.
    pub file: Text,
    /// Whether it stands in `packages.conda`, and not in `packages`.
    pub conda: bool,
    /// The record of the file.
    pub value: PackageRecord,
}

impl Model for FileRecord {
    ghost use Rattle.shard_file.specs.Rows.{Row};

    ghost Value = { Row };

    ghost view = { λ row. record { file = row.file; conda = row.conda; fields = row.value } };
}

/// A row of a shard, to look at: a file and its record.
#[derive(Clone, Copy)]
pub struct ShardRow<'a> {
    /// The name of the package file.
    pub file: &'a str,
    /// Whether it stands in `packages.conda`, and not in `packages`.
    pub conda: bool,
    /// What its record says.
    pub view: RecordView<'a>,
}

/// A shard: the rows of some bytes, with the bytes, which are kept once: a row is places in them.
/// Contracts see both; the rows are those that the bytes spell, by this type.
#[derive(Debug, Drop)]
pub struct Shard {
    pub(crate) bytes: Vec<u8>,
    pub(crate) rows: Vec<FileSpans>,
}

impl Model for Shard {
    ghost use Rattle.shard_file.specs.Rows.{Contents, ShardOf};
    ghost use Rattle.shard_file.specs.Spans.{rows_at};

    ghost Value = { Contents };

    ghost view = { λ shard. record {
      bytes = shard.bytes.items;
      rows = rows_at shard.bytes.items shard.rows.items;
    } };

    ghost invariant = { λ shard.
        ∥ ShardOf shard.bytes.items (rows_at shard.bytes.items shard.rows.items) ∥₁ };
}

impl Shard {
    ghost use Rattle.std.specs.Prelude.{◌≡◌, length, slice_get, List, None, IfOk, IfErr, IfSome, MatchResult};
    ghost use Rattle.std.specs.Option.{option_map};
    ghost use Rattle.mp_codec.specs.Fault.{IsFirstFault};
    ghost use Rattle.shard_file.specs.Rows.{Row, ShardOf, ShardFault};
    ghost use Rattle.gateway_words.specs.Reading.{Gives};
    ghost use Rattle.shard_file.specs.Reading.{shard_of};
    ghost use Rattle.shard_file.specs.Seen.{row_seen, fault_of, bytes_back};

    /// The shard that the bytes spell, all of the bytes.
    ///
    /// `Fault` with the first fault that stands in the bytes: a value that breaks off, a part of
    /// another kind, a file name or a required text that is no text, a required key that is missing,
    /// a known key or a file name that stands twice, bytes behind the shard. `Memory` where memory
    /// runs out. Each hands the bytes back.
    /// (CEP 16, "shards"; `docs/FORMATS.md`, "Shards".)
    pub fn read(alloc: Global, bytes: Vec<u8>) -> Result<Shard, ShardRefusal>
        // What is read is spelled by the bytes, and nothing is wrong with them.
        ensures found { IfOk result (λ shard. ShardOf bytes.items shard.rows) }
        // What is spelled with nothing wrong is read, unless memory runs out.
        ensures only { (rows : List Row) → ShardOf bytes.items rows
            → MatchResult result (λ shard. shard.rows ≡ rows) (λ e. fault_of e ≡ None) }
        // A fault is the first one.
        ensures fault { IfErr result (λ e.
            IfSome (fault_of e) (IsFirstFault (ShardFault bytes.items))) }

        ensures exact { Gives (λ shard. shard.rows) fault_of result (shard_of bytes.items) }

        ensures back { MatchResult result (λ shard. shard.bytes ≡ bytes.items)
            (λ e. bytes_back e ≡ bytes.items) }
    {
        match sorted_rows(alloc, bytes.as_slice()) {
            Ok(rows) => Ok(Shard { bytes, rows }),
            Err(RecordRefusal::Fault(fault)) => Err(ShardRefusal::Fault(fault, bytes)),
            Err(RecordRefusal::Memory) => Err(ShardRefusal::Memory(bytes)),
        }
    }

    /// Says that the rows are those that the bytes spell; it does nothing.
    pub fn tell(&self)
        ensures { ∥ ShardOf self.now.bytes self.now.rows ∥₁ }
    {
        let _rows = &self.rows;
    }

    /// How many rows the shard has.
    pub fn len(&self) -> usize
        ensures { result ≡ length self.now.rows }
    {
        self.rows.len()
    }

    /// The row at a place, counted from 0, or None where the place is not below `len`.
    pub fn row(&self, i: usize) -> Option<ShardRow<'_>>
        ensures { option_map row_seen result ≡ slice_get self.now.rows i }
    {
        match self.rows.get(i) {
            Some(row) => Some(row.shown(self.bytes.as_slice())),
            None => None,
        }
    }

    /// The bytes that spell the shard.
    pub fn bytes(&self) -> &[u8]
        ensures { result.now ≡ self.now.bytes }
    {
        self.bytes.as_slice()
    }
}
