//! Yardsticks, and no part of the gateway: each does one thing of the libraries over and over, so that
//! its speed can be measured from outside, or prints what it read, so that it can be held against
//! another program. The scripts in bench/ call it.
//!
//! `bench_tool YARDSTICK [WORD [WORD]] < FILE`; the yardsticks are `skip`, `shards`, `bodies`, `flight`,
//! `names` and `versions`, each in a module of its own, which says what its words and its input are.
#![tactic(auto)]

mod bodies;
mod copies;
mod flights;
mod names;
mod shards;
mod versions;
mod walk;
mod words;
mod writing;

use crate::words::Words;
use anyhow::{Context, anyhow};
use std::env;
use std::io::Read;

fn main(rt: HostRuntime) -> anyhow::Result<()> {
    let mut input = Vec::new(rt.alloc());
    rt.reader().read_to_end(&mut input)?;
    let mut given = env::args(&rt)?.skip(1);
    let yardstick = given.next().context("a yardstick must be named")?;
    let words = Words {
        first: given.next(),
        second: given.next(),
    };
    match yardstick.as_str() {
        "skip" => walk::run(&rt, words, &input),
        "shards" => shards::run(&rt, words, &input),
        "bodies" => bodies::run(&rt, words, &input),
        "flight" => flights::run(&rt, words, &input),
        "names" => names::run(&rt, words, &input),
        "versions" => versions::run(&rt, words, &input),
        other => Err(anyhow!("there is no yardstick {other}")),
    }
}
