//! `bench_tool names TURNS < FILE` reads the length of an index as 4 bytes, high byte first, the index,
//! and a name on each line behind it. It looks each name up by `Index::lookup` TURNS times, and prints
//! how many names there are and how many were found in all (`bench/lookup`).
//!
//! `bench_tool names map < FILE` prints the index's bases, its subdir, its number of names, and for
//! each name its digest, or `-` where it isn't listed (`bench/index_msgpack`).

use crate::words::Words;
use anyhow::{Context, anyhow};
use shard_index::Index;
use std::alloc::Global;
use std::str;

// The index, and the lines behind it.
fn index_and_lines(alloc: Global, input: &[u8]) -> anyhow::Result<(Index, &str)> {
    let (len, rest) = input
        .split_first_chunk::<4>()
        .context("there is no length")?;
    let (bytes, lines) = rest
        .split_at_checked(u32::from_be_bytes(*len) as usize)
        .context("the index is cut")?;
    let index = Index::read(alloc, bytes).map_err(|refusal| anyhow!("{refusal:?}"))?;
    let lines = str::from_utf8(lines).ok().context("the names are no text")?;
    Ok((index, lines))
}

// How many of the names are listed.
fn count_listed(index: &Index, names: &[&str]) -> usize {
    names
        .iter()
        .filter(|name| index.lookup(name).is_some())
        .count()
}

fn print_counts(
    rt: &(impl Print + AllocGlobal),
    index: &Index,
    lines: &str,
    turns: u32,
) -> anyhow::Result<()> {
    let mut names = Vec::new(rt.alloc());
    for name in lines.lines() {
        names.push(name)?;
    }
    let mut listed: usize = 0;
    for _ in 0..turns {
        listed = listed.wrapping_add(count_listed(index, names.as_slice()));
    }
    println!(rt; "names {} turns {turns} listed {listed}", names.len())?;
    Ok(())
}

fn print_map(rt: &(impl Print + AllocGlobal), index: &Index, lines: &str) -> anyhow::Result<()> {
    println!(rt; "{}", index.base_url())?;
    println!(rt; "{}", index.shards_base_url())?;
    println!(rt; "{}", index.subdir())?;
    println!(rt; "{}", index.len())?;
    for name in lines.lines() {
        let mut digits = Vec::new(rt.alloc());
        match index.lookup(name) {
            Some(digest) => digest.put_hex(&mut digits)?,
            None => digits.push(b'-')?,
        }
        let digits = str::from_utf8(&digits).ok().context("digits are text")?;
        println!(rt; "{name} {digits}")?;
    }
    Ok(())
}

/// Looks names up, or prints what the index says.
pub(crate) fn run(
    rt: &(impl Print + AllocGlobal),
    words: Words,
    input: &[u8],
) -> anyhow::Result<()> {
    let (index, lines) = index_and_lines(rt.alloc(), input)?;
    match words.first() {
        Some("map") => print_map(rt, &index, lines),
        Some(_) | None => print_counts(rt, &index, lines, words.turns()?),
    }
}
