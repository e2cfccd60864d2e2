//! `bench_tool versions TURNS < FILE` reads a version from each line, compares each of them with each
//! by `Version::compare` TURNS times, and prints how many pairs were in ascending order and how many
//! were equal, over all turns (`bench/versions`).
//!
//! `bench_tool versions pairs < FILE` reads two texts with a blank between them from each line, and
//! prints a line for each: `<`, `=`, `>`, or `?` where one of them is no version
//! (`bench/versions_order`).

ghost use Rattle.std.specs.Prelude.{◌≡◌};
ghost use Rattle.bench_tool.specs.Sign.{sign_of, sign_of_texts};

use crate::words::Words;
use anyhow::{Context, anyhow};
use conda_version::Version;
use std::cmp::Ordering;
use std::str;

// The sign of an order.
fn sign(order: Ordering) -> char
    ensures { result ≡ sign_of order }
{
    match order {
        Ordering::Less => '<',
        Ordering::Equal => '=',
        Ordering::Greater => '>',
    }
}

// The sign between two texts, `?` where one of them is no version.
fn sign_between(left: &str, right: &str) -> char
    ensures { result ≡ sign_of_texts left.now right.now }
{
    let Ok(left) = Version::read(left) else {
        return '?';
    };
    let Ok(right) = Version::read(right) else {
        return '?';
    };
    sign(left.compare(right))
}

// How many pairs were in ascending order, and how many were equal. The counts of so many turns
// that they pass the end of their type begin again at 0.
#[derive(Clone, Copy)]
struct Tally {
    less: u64,
    equal: u64,
}

impl Tally {
    // The counts with one more pair's.
    fn with(self, order: Ordering) -> Tally {
        Tally {
            less: self.less.wrapping_add((order == Ordering::Less) as u64),
            equal: self.equal.wrapping_add((order == Ordering::Equal) as u64),
        }
    }

    // The counts with those of each version beside each, itself included.
    fn with_all(self, versions: &[Version<'_>]) -> Tally {
        let mut tally = self;
        for left in versions {
            for right in versions {
                tally = tally.with(left.compare(*right));
            }
        }
        tally
    }
}

fn print_signs(rt: &(impl Print + Alloc), pairs: &str) -> anyhow::Result<()> {
    for line in pairs.lines() {
        let (left, right) = line.split_once(' ').context("a line has no blank")?;
        println!(rt; "{}", sign_between(left, right))?;
    }
    Ok(())
}

fn print_tally(rt: &(impl Print + AllocGlobal), texts: &str, turns: u32) -> anyhow::Result<()> {
    let mut versions = Vec::new(rt.alloc());
    for line in texts.lines() {
        versions.push(Version::read(line).map_err(|fault| anyhow!("{line}: {fault:?}"))?)?;
    }
    let mut tally = Tally { less: 0, equal: 0 };
    for _ in 0..turns {
        tally = tally.with_all(versions.as_slice());
    }
    println!(rt;
        "versions {} turns {turns} less {} equal {}",
        versions.len(),
        tally.less,
        tally.equal
    )?;
    Ok(())
}

/// Compares the versions of the input, or prints a sign for each pair.
pub(crate) fn run(
    rt: &(impl Print + AllocGlobal),
    words: Words,
    input: &[u8],
) -> anyhow::Result<()> {
    let text = str::from_utf8(input).ok().context("the input is no text")?;
    match words.first() {
        Some("pairs") => print_signs(rt, text),
        Some(_) | None => print_tally(rt, text, words.turns()?),
    }
}
