//! The bytes of the indexes and shards of a world.

use crate::row::{Row, pieces_of};
use anyhow::Context;
use digest_gate::Digest;
use mp_codec::{put_array, put_bin, put_map, put_str, put_uint};
use std::alloc::{AllocError, Global};

fn put_text(out: &mut Vec<u8>, text: &str) -> Result<(), AllocError> {
    if text.len() as u64 >= 0x1_0000_0000 {
        return Err(AllocError);
    }
    put_str(out, text)
}

fn put_pair(out: &mut Vec<u8>, key: &str, value: &str) -> Result<(), AllocError> {
    put_text(out, key)?;
    put_text(out, value)
}

fn put_count(out: &mut Vec<u8>, count: usize) -> anyhow::Result<()> {
    let count = u32::try_from(count).ok().context("there are too many")?;
    put_map(out, count)?;
    Ok(())
}

fn put_depends(alloc: Global, out: &mut Vec<u8>, row: &Row<'_>) -> anyhow::Result<()> {
    let depends = pieces_of(alloc, row.depends)?;
    let count = u32::try_from(depends.len())
        .ok()
        .context("there are too many")?;
    put_array(out, count)?;
    for text in depends.iter() {
        put_text(out, text)?;
    }
    Ok(())
}

fn put_record(alloc: Global, out: &mut Vec<u8>, row: &Row<'_>) -> anyhow::Result<()> {
    put_map(out, 5)?;
    put_pair(out, "name", row.name)?;
    put_pair(out, "version", row.version)?;
    put_pair(out, "build", "0")?;
    put_text(out, "build_number")?;
    put_uint(out, 0)?;
    put_text(out, "depends")?;
    put_depends(alloc, out, row)
}

// The rows of one map of a shard.
fn put_files(
    alloc: Global,
    out: &mut Vec<u8>,
    rows: &[Row<'_>],
    conda: bool,
) -> anyhow::Result<()> {
    let mut count: usize = 0;
    for row in rows {
        if row.conda == conda {
            count = count.saturating_add(1);
        }
    }
    put_count(out, count)?;
    for row in rows {
        if row.conda == conda {
            put_text(out, row.file)?;
            put_record(alloc, out, row)?;
        }
    }
    Ok(())
}

/// The bytes of the shard that a slot's index lists under a name.
pub(crate) fn shard_bytes(
    alloc: Global,
    rows: &[Row<'_>],
    channel: &str,
    subdir: &str,
    shard: &str,
) -> anyhow::Result<Vec<u8>> {
    let mut own = Vec::new(alloc);
    for row in rows {
        if row.is_in(channel, subdir) && row.shard == shard {
            own.push(*row)?;
        }
    }
    let mut out = Vec::new(alloc);
    put_map(&mut out, 2)?;
    put_text(&mut out, "packages")?;
    put_files(alloc, &mut out, own.as_slice(), false)?;
    put_text(&mut out, "packages.conda")?;
    put_files(alloc, &mut out, own.as_slice(), true)?;
    Ok(out)
}

// The names that a slot's index lists, each once.
fn shards_of<'a>(
    alloc: Global,
    rows: &[Row<'a>],
    channel: &str,
    subdir: &str,
) -> Result<Vec<&'a str>, AllocError> {
    let mut shards: Vec<&'a str> = Vec::new(alloc);
    for row in rows {
        if row.is_in(channel, subdir) && !shards.contains(&row.shard) {
            shards.push(row.shard)?;
        }
    }
    Ok(shards)
}

/// The bytes of the index of a slot.
pub(crate) fn index_bytes(
    alloc: Global,
    rows: &[Row<'_>],
    channel: &str,
    subdir: &str,
) -> anyhow::Result<Vec<u8>> {
    let shards = shards_of(alloc, rows, channel, subdir)?;
    let mut out = Vec::new(alloc);
    put_map(&mut out, 3)?;
    put_text(&mut out, "version")?;
    put_uint(&mut out, 1)?;
    put_text(&mut out, "info")?;
    put_map(&mut out, 1)?;
    put_pair(&mut out, "subdir", subdir)?;
    put_text(&mut out, "shards")?;
    put_count(&mut out, shards.len())?;
    for shard in shards.iter() {
        let bytes = shard_bytes(alloc, rows, channel, subdir, shard)?;
        put_text(&mut out, shard)?;
        put_bin(&mut out, &Digest::of(&bytes).0)?;
    }
    Ok(out)
}
