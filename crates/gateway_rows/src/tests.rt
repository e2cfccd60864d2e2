//! Runs of `show`, `index` and `closure`, and what the rows share.

use gateway_tool::Note;
use mp_codec::FormatFault;

mod bad_files;
mod channels;
mod closure;
mod index;
mod limits;
mod outside;
mod shards;
mod stops;
mod texts;
mod words;

/// The most bytes that a test's sink holds, unless it says otherwise.
pub const ROOM: usize = 1000;

/// A shard with one file, `a-1-0.conda`, of the package `a`.
pub const ONE_FILE: &str = "81 ae 7061636b616765732e636f6e6461 81 ab 612d312d302e636f6e6461
    83 a4 6e616d65 a1 61 a7 76657273696f6e a1 31 a5 6275696c64 a1 30";

/// The line of that file.
pub const ONE_LINE: &str = "a-1-0.conda 1 0 0\n";

/// The status of an answer, and the fault of an input that is no shard.
pub fn seen(answer: (u8, Note)) -> (u8, Option<FormatFault>) {
    match answer.1 {
        Note::Shard(fault) => (answer.0, Some(fault)),
        Note::Nothing | Note::Indexing(_) | Note::File(_, _) => (answer.0, None),
    }
}
