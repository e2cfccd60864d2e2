//! Files from values of MessagePack, three a file, and the shard of them.

use anyhow::anyhow;
use conda_record::PackageRecord;
use mp_codec::{Cursor, Head, Text};
use shard_file::{FileRecord, can_write_shard, write_shard};
use std::alloc::Global;

fn next_file(alloc: Global, cursor: &mut Cursor<'_>) -> anyhow::Result<FileRecord> {
    let file = cursor.text().map_err(|fault| anyhow!("{fault:?}"))?;
    let conda = cursor.head().map_err(|fault| anyhow!("{fault:?}"))?;
    let value = PackageRecord::read(alloc, cursor).map_err(|refusal| anyhow!("{refusal:?}"))?;
    Ok(FileRecord {
        file: Text::copy(alloc, file)?,
        conda: matches!(conda, Head::Bool(true)),
        value,
    })
}

/// The shard of the files that stand in a piece.
pub(crate) fn shard_of(alloc: Global, piece: &[u8]) -> anyhow::Result<Vec<u8>> {
    let mut cursor = Cursor::new(piece);
    let mut files = Vec::new(alloc);
    for _ in 0..piece.len() {
        if cursor.is_end() {
            break;
        }
        files.push(next_file(alloc, &mut cursor)?)?;
    }
    if !can_write_shard(files.as_slice()) {
        return Err(anyhow!("the files are out of order"));
    }
    let mut out = Vec::new(alloc);
    write_shard(files.as_slice(), &mut out)?;
    Ok(out)
}
