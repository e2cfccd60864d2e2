//! `bench_tool bodies TURNS < FILE` reads entries: a digest of 32 bytes, a length of 4 bytes, high byte
//! first, and so many bytes. It checks each by `Body::check` TURNS times, and prints how many bodies
//! and bytes one turn checks (`bench/digest`).

ghost use Rattle.std.specs.Prelude.{◌<◌, length, IfOk};

use crate::copies::copied;
use crate::words::Words;
use anyhow::{Context, anyhow};
use digest_gate::{Body, Digest};
use std::alloc::Global;

// The first entry's body, checked, and the bytes behind the entry.
fn first_body(alloc: Global, input: &[u8]) -> anyhow::Result<(Body, &[u8])>
    ensures shorter { IfOk result (λ r. length r.1.now < length input.now) }
{
    let (digest, rest) = input
        .split_first_chunk::<32>()
        .context("an entry ends within its digest")?;
    let (len, rest) = rest
        .split_first_chunk::<4>()
        .context("an entry ends within its length")?;
    let (bytes, behind) = rest
        .split_at_checked(u32::from_be_bytes(*len) as usize)
        .context("an entry ends within its bytes")?;
    let body = Body::check(copied(alloc, bytes)?, Digest(*digest)).map_err(|_| anyhow!(
        "an entry has another digest"
    ))?;
    Ok((body, behind))
}

// The bodies of all entries, each checked.
fn bodies_in(alloc: Global, input: &[u8]) -> anyhow::Result<Vec<Body>> {
    let mut bodies = Vec::new(alloc);
    let mut rest = input;
    while !rest.is_empty() {
        let (body, behind) = first_body(alloc, rest)?;
        bodies.push(body)?;
        rest = behind;
    }
    Ok(bodies)
}

// The same bodies, each checked again.
fn checked_again(alloc: Global, bodies: Vec<Body>) -> anyhow::Result<Vec<Body>> {
    let mut checked = Vec::new(alloc);
    for body in bodies {
        let want = body.digest();
        let body = Body::check(body.into_bytes(), want).map_err(|_| anyhow!(
            "an entry has another digest"
        ))?;
        checked.push(body)?;
    }
    Ok(checked)
}

/// Checks the entries of the input, and prints how many.
pub(crate) fn run(
    rt: &(impl Print + AllocGlobal),
    words: Words,
    input: &[u8],
) -> anyhow::Result<()> {
    let turns = words.turns()?.max(1);
    let mut bodies = bodies_in(rt.alloc(), input)?;
    for _ in 1..turns {
        bodies = checked_again(rt.alloc(), bodies)?;
    }
    let size = input.len().saturating_sub(bodies.len().saturating_mul(36));
    println!(rt; "bodies {} bytes {size} turns {turns}", bodies.len())?;
    Ok(())
}
