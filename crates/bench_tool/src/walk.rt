//! `bench_tool skip TURNS < FILE` walks the MessagePack values of the input by `Cursor::skip` up to its
//! end, TURNS times, and prints how many bytes one turn walks (`bench/skip`).

ghost use Rattle.std.specs.Prelude.{◌≡◌, length, IfOk, IfErr, OnOk};
ghost use Rattle.bench_tool.specs.Walk.{AreValues, BreakOff};

use crate::words::Words;
use anyhow::anyhow;
use mp_codec::{Cursor, FormatFault};

// How many bytes the values take that stand one behind the other up to the end. It is compiled as a
// function of its own, as the loop in C is, so that no other yardstick's values take its registers.
#[inline(never)]
fn walk(bytes: &[u8]) -> Result<usize, FormatFault>
    ensures all { IfOk result (λ walked. walked ≡ length bytes.now) }
    ensures values { OnOk result (AreValues bytes.now) }
    ensures fault { IfErr result (λ f. BreakOff bytes.now f) }
{
    let mut cursor = Cursor::new(bytes);
    while !cursor.is_end() {
        cursor.skip()?;
    }
    Ok(cursor.at())
}

// Walks the bytes so often. Each turn goes as far as the one before it came, so none can be left
// out by the compiler.
fn walk_often(bytes: &[u8], turns: u32) -> Result<usize, FormatFault>
    ensures all { IfOk result (λ walked. walked ≡ length bytes.now) }
    ensures fault { IfErr result (λ f. BreakOff bytes.now f) }
{
    let mut walked = bytes.len();
    for _ in 0..turns {
        walked = walk(&bytes[..walked])?;
    }
    Ok(walked)
}

/// Walks the input, and prints how far.
pub(crate) fn run(rt: &impl Print, words: Words, input: &[u8]) -> anyhow::Result<()> {
    let turns = words.turns()?;
    let walked = walk_often(input, turns).map_err(|fault| anyhow!("{fault:?}"))?;
    println!(rt; "bytes {walked} turns {turns}")?;
    Ok(())
}
