//! A row of a shard as places in its bytes.

ghost use Rattle.std.specs.Prelude.{◌≡◌};
ghost use Rattle.mp_codec.specs.Span.{raw_at};
ghost use Rattle.shard_file.specs.Spans.{row_at};
ghost use Rattle.shard_file.specs.Seen.{row_seen};

use crate::shard::ShardRow;
use conda_record::RecordSpans;
use mp_codec::Span;

// A package file with its record, whose texts stand in the shard's bytes. Contracts see its row in
// given bytes by `row_at` (`specs/Spans`).
#[derive(Debug, Drop)]
pub(crate) struct FileSpans {
    pub(crate) file: Span,
    pub(crate) conda: bool,
    pub(crate) value: RecordSpans,
}

impl FileSpans {
    // The bytes of the file name, as they stand in these bytes; they are not tested again.
    pub(crate) fn name<'a>(&self, bytes: &'a [u8]) -> &'a [u8]
        ensures { result.now ≡ raw_at bytes.now self.now.file }
    {
        match self.file.part(bytes) {
            Some(name) => name,
            None => &[],
        }
    }

    // The row in these bytes, to look at.
    pub(crate) fn shown<'a>(&'a self, bytes: &'a [u8]) -> ShardRow<'a>
        ensures { row_seen result ≡ row_at bytes.now self.now }
    {
        ShardRow {
            file: self.file.text(bytes),
            conda: self.conda,
            view: self.value.view(bytes),
        }
    }
}
