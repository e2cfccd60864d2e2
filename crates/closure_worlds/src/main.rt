//! Closures of small worlds, held against what they have to be, and no part of the gateway: a table of
//! requests whose answers were worked out by hand, and 500 worlds that are made by a generator, in each
//! of which indexes and shards arrive in several orders, and every answer is compared with that of a
//! walk over sets which knows nothing of plans.
#![tactic(auto)]

mod arrival;
mod ask;
mod bytes;
mod dice;
mod holders;
mod row;
mod sets;
mod table;
mod worlds;

fn main(rt: HostRuntime) -> anyhow::Result<()> {
    let table = table::run(rt.alloc())?;
    println!(rt; "requests by hand {} wrong {}", table.tried, table.wrong)?;
    let worlds = worlds::run(rt.alloc())?;
    println!(rt; "worlds {} wrong {}", worlds.tried, worlds.wrong)?;
    Ok(())
}
