//! The input has pieces, one behind the other: 4 bytes of a length, high byte first, and so many bytes.
//!
//! `bench_tool shards TURNS < FILE` reads each piece by `Shard::read` TURNS times, and prints how many
//! shards and rows one turn reads. `bench_tool shards copy TURNS < FILE` takes and gives back the copies
//! of the pieces that such turns read; the time of one beside the other is that of reading
//! (`bench/decode`).
//!
//! `bench_tool shards rows < FILE` prints each row of each shard, a line a field, texts in hexadecimal
//! digits. `bench_tool shards write < FILE` takes each piece as values, three a file (its name, whether
//! it stands in packages.conda, its record), writes the shard of these files, and prints its bytes in
//! hexadecimal digits, a line a shard (`bench/shard_msgpack`).

use crate::copies::copied;
use crate::words::Words;
use crate::writing;
use anyhow::{Context, anyhow};
use conda_record::RecordView;
use shard_file::{Shard, ShardRow};
use std::alloc::Global;

// The first piece of some bytes, and what is behind it.
pub(crate) fn first_piece(bytes: &[u8]) -> Option<(&[u8], &[u8])> {
    let (head, rest) = bytes.split_first_chunk::<4>()?;
    rest.split_at_checked(u32::from_be_bytes(*head) as usize)
}

fn read_shard(alloc: Global, piece: &[u8]) -> anyhow::Result<Shard> {
    Shard::read(alloc, copied(alloc, piece)?).map_err(|refusal| anyhow!("{refusal:?}"))
}

// How many shards and rows were read. The counts stand still at the end of their type.
#[derive(Clone, Copy)]
struct Tally {
    shards: u64,
    rows: u64,
}

fn read_all(alloc: Global, bytes: &[u8]) -> anyhow::Result<Tally> {
    let mut tally = Tally { shards: 0, rows: 0 };
    let mut left = bytes;
    for _ in 0..bytes.len() {
        let Some((piece, rest)) = first_piece(left) else {
            break;
        };
        let shard = read_shard(alloc, piece)?;
        tally.shards = tally.shards.saturating_add(1);
        tally.rows = tally.rows.saturating_add(shard.len() as u64);
        left = rest;
    }
    Ok(tally)
}

fn print_tally(rt: &(impl Print + AllocGlobal), bytes: &[u8], turns: u32) -> anyhow::Result<()> {
    let mut tally = Tally { shards: 0, rows: 0 };
    for _ in 0..turns {
        tally = read_all(rt.alloc(), bytes)?;
    }
    println!(rt; "shards {} rows {} turns {turns}", tally.shards, tally.rows)?;
    Ok(())
}

fn copy_all(alloc: Global, bytes: &[u8]) -> anyhow::Result<Tally> {
    let mut tally = Tally { shards: 0, rows: 0 };
    let mut left = bytes;
    for _ in 0..bytes.len() {
        let Some((piece, rest)) = first_piece(left) else {
            break;
        };
        let copy = copied(alloc, piece)?;
        tally.shards = tally.shards.saturating_add(u64::from(!copy.is_empty()));
        left = rest;
    }
    Ok(tally)
}

fn print_copied(rt: &(impl Print + AllocGlobal), bytes: &[u8], turns: u32) -> anyhow::Result<()> {
    let mut tally = Tally { shards: 0, rows: 0 };
    for _ in 0..turns {
        tally = copy_all(rt.alloc(), bytes)?;
    }
    println!(rt; "shards {} turns {turns}", tally.shards)?;
    Ok(())
}

fn print_text(rt: &(impl Print + AllocGlobal), key: &str, text: &[u8]) -> anyhow::Result<()> {
    let digits = hex::encode(rt.alloc(), text)?;
    println!(rt; "{key} {digits}")?;
    Ok(())
}

fn print_text_if(
    rt: &(impl Print + AllocGlobal),
    key: &str,
    text: Option<&str>,
) -> anyhow::Result<()> {
    match text {
        Some(text) => print_text(rt, key, text.as_bytes()),
        None => Ok(()),
    }
}

fn print_number_if(
    rt: &(impl Print + AllocGlobal),
    key: &str,
    n: Option<u64>,
) -> anyhow::Result<()> {
    if let Some(n) = n {
        println!(rt; "{key} {n}")?;
    }
    Ok(())
}

fn print_lists(rt: &(impl Print + AllocGlobal), view: RecordView<'_>) -> anyhow::Result<()> {
    for i in 0..view.depends_len() {
        print_text_if(rt, "depends", view.depend(i))?;
    }
    for i in 0..view.constrains_len() {
        print_text_if(rt, "constrains", view.constrain(i))?;
    }
    Ok(())
}

fn print_digests(rt: &(impl Print + AllocGlobal), view: RecordView<'_>) -> anyhow::Result<()> {
    if let Some(digest) = view.md5() {
        print_text(rt, "md5", &digest)?;
    }
    if let Some(digest) = view.sha256() {
        print_text(rt, "sha256", &digest)?;
    }
    Ok(())
}

fn print_record(rt: &(impl Print + AllocGlobal), view: RecordView<'_>) -> anyhow::Result<()> {
    print_text(rt, "name", view.name().as_bytes())?;
    print_text(rt, "version", view.version().as_bytes())?;
    print_text(rt, "build", view.build().as_bytes())?;
    println!(rt; "build_number {}", view.build_number())?;
    print_lists(rt, view)?;
    print_text_if(rt, "subdir", view.subdir())?;
    print_digests(rt, view)?;
    print_number_if(rt, "size", view.size())?;
    print_number_if(rt, "timestamp", view.timestamp())?;
    print_text_if(rt, "license", view.license())?;
    print_text_if(rt, "noarch", view.noarch())
}

fn print_row(rt: &(impl Print + AllocGlobal), row: ShardRow<'_>) -> anyhow::Result<()> {
    print_text(rt, "file", row.file.as_bytes())?;
    println!(rt; "conda {}", row.conda)?;
    print_record(rt, row.view)
}

fn print_rows(rt: &(impl Print + AllocGlobal), bytes: &[u8]) -> anyhow::Result<()> {
    let mut left = bytes;
    for _ in 0..bytes.len() {
        let Some((piece, rest)) = first_piece(left) else {
            break;
        };
        let shard = read_shard(rt.alloc(), piece)?;
        println!(rt; "shard {}", shard.len())?;
        for i in 0..shard.len() {
            print_row(rt, shard.row(i).context("a row is missing")?)?;
        }
        left = rest;
    }
    Ok(())
}

fn print_written(rt: &(impl Print + AllocGlobal), bytes: &[u8]) -> anyhow::Result<()> {
    let mut left = bytes;
    for _ in 0..bytes.len() {
        let Some((piece, rest)) = first_piece(left) else {
            break;
        };
        let shard = writing::shard_of(rt.alloc(), piece)?;
        println!(rt; "{}", hex::encode(rt.alloc(), shard.as_slice())?)?;
        left = rest;
    }
    Ok(())
}

/// Reads, prints or writes shards.
pub(crate) fn run(
    rt: &(impl Print + AllocGlobal),
    words: Words,
    input: &[u8],
) -> anyhow::Result<()> {
    match words.first() {
        Some("rows") => print_rows(rt, input),
        Some("write") => print_written(rt, input),
        Some("copy") => print_copied(rt, input, words.turns_behind()?),
        Some(_) | None => print_tally(rt, input, words.turns()?),
    }
}
