//! A plan to which indexes and shards come in an order that dice decide.

ghost use Rattle.std.specs.Prelude.{◌≡◌, IfOk, true};
ghost use Rattle.digest_gate.specs.Digest.{digest_of};
ghost use Rattle.closure_plan.specs.Plan.{has_need};

use crate::bytes::{index_bytes, shard_bytes};
use crate::dice::Dice;
use crate::holders::{OwnLeaf, OwnPin};
use crate::row::Row;
use anyhow::{Context, anyhow};
use closure_plan::{Answer, Need, Plan};
use closure_request::Request;
use digest_gate::{Body, Digest};
use shard_file::Leaf;
use shard_index::Index;
use std::alloc::Global;

// More steps than any world here needs.
const STEPS: u64 = 1_000_000;

/// The files of the answer to a request, each as `channel/subdir/file` with a blank behind it.
pub(crate) fn answer(
    alloc: Global,
    rows: &[Row<'_>],
    request: Request,
    dice: &mut Dice,
) -> anyhow::Result<String> {
    let mut plan: Plan<OwnPin, OwnLeaf> = Plan::new(alloc, request)?;
    for _ in 0..STEPS {
        if plan.is_done() {
            break;
        }
        step(alloc, rows, &mut plan, dice)?;
    }
    if !plan.is_done() {
        return Err(anyhow!("the plan never ends"));
    }
    let answer = plan.finish()?;
    text_of(alloc, &answer)
}

// The files of an answer.
fn text_of(alloc: Global, answer: &Answer<OwnPin, OwnLeaf>) -> anyhow::Result<String> {
    let mut text = String::new(alloc);
    for i in 0..answer.len() {
        if let Some(row) = answer.row(i) {
            text.push_str(row.channel)?;
            text.push_str("/")?;
            text.push_str(row.subdir)?;
            text.push_str("/")?;
            text.push_str(row.file)?;
            text.push_str(" ")?;
        }
    }
    Ok(text)
}

// Marks some needs, takes in what the one behind them needs, and takes the marks away.
fn step(
    alloc: Global,
    rows: &[Row<'_>],
    plan: &mut Plan<OwnPin, OwnLeaf>,
    dice: &mut Dice,
) -> anyhow::Result<()> {
    let mut ahead = Vec::new(alloc);
    for _ in 0..dice.roll(6) {
        if let Some(need) = plan.next() {
            plan.mark(need);
            ahead.push(need)?;
        }
    }
    if let Some(need) = plan.next() {
        plan.mark(need);
        take_in(alloc, rows, plan, need)?;
    }
    for need in ahead.iter() {
        plan.unmark(*need);
    }
    Ok(())
}

// Takes in what a marked need needs.
fn take_in(
    alloc: Global,
    rows: &[Row<'_>],
    plan: &mut Plan<OwnPin, OwnLeaf>,
    need: Need,
) -> anyhow::Result<()>
    requires { has_need plan.old.marked need ≡ true }
{
    match need {
        Need::Index(slot) => {
            let index = index_of(alloc, rows, plan, slot)?;
            plan.pin(slot, OwnPin(index))?;
            Ok(())
        }
        Need::Shard(slot, n) => match plan.digest(need) {
            Some(digest) => {
                let leaf = leaf_of(alloc, rows, plan, slot, n, digest)?;
                plan.give(need, OwnLeaf(leaf))?;
                Ok(())
            }
            None => Err(anyhow!("the need has no digest")),
        },
    }
}

// The name of the channel of a slot, which its address ends with.
fn channel_of(plan: &Plan<OwnPin, OwnLeaf>, slot: usize) -> anyhow::Result<&str> {
    let base = plan.base(slot).context("there is no such slot")?;
    base.as_str()
        .strip_prefix("http://h/")
        .and_then(|rest| rest.strip_suffix("/"))
        .context("the address is another")
}

// The index of a slot.
fn index_of(
    alloc: Global,
    rows: &[Row<'_>],
    plan: &Plan<OwnPin, OwnLeaf>,
    slot: usize,
) -> anyhow::Result<Index> {
    let channel = channel_of(plan, slot)?;
    let subdir = plan.subdir(slot).context("there is no such slot")?;
    let bytes = index_bytes(alloc, rows, channel, subdir)?;
    Index::read(alloc, &bytes).map_err(|refusal| anyhow!("{refusal:?}"))
}

// The shard of a slot and a name, whose bytes have a digest.
fn leaf_of(
    alloc: Global,
    rows: &[Row<'_>],
    plan: &Plan<OwnPin, OwnLeaf>,
    slot: usize,
    n: usize,
    digest: Digest,
) -> anyhow::Result<Leaf>
    ensures { IfOk result (λ leaf. digest_of leaf.bytes ≡ digest) }
{
    let channel = channel_of(plan, slot)?;
    let subdir = plan.subdir(slot).context("there is no such slot")?;
    let name = plan.name(n).context("there is no such name")?;
    let bytes = shard_bytes(alloc, rows, channel, subdir, name.as_str())?;
    leaf_of_bytes(alloc, bytes, digest)
}

// The shard of some bytes, which have a digest.
fn leaf_of_bytes(alloc: Global, bytes: Vec<u8>, digest: Digest) -> anyhow::Result<Leaf>
    ensures { IfOk result (λ leaf. digest_of leaf.bytes ≡ digest) }
{
    match Body::check(bytes, digest) {
        Ok(body) => match Leaf::read(alloc, body) {
            Ok(leaf) => Ok(leaf),
            Err(_) => Err(anyhow!("the bytes are no shard")),
        },
        Err(_) => Err(anyhow!("the bytes have another digest")),
    }
}
