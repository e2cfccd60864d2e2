//! The plan of an indexing: all that is to be put, made before the first put.

ghost use Rattle.std.specs.Prelude.{◌≡◌, true};
ghost use Rattle.channel_store.specs.Names.{is_place};
ghost use Rattle.channel_indexer.specs.Indexing.{Plans};

use crate::fault::IndexFault;
use crate::groups::{grouped, sort};
use crate::input::read;
use crate::shards::{Prepared, prepare};
use serde_json::Value;
use std::alloc::Global;

/// What is to be put, and of how many names and records it is.
#[derive(Drop)]
pub(crate) struct Plan {
    pub(crate) prepared: Prepared,
    pub(crate) names: u64,
    pub(crate) files: u64,
    // The value that was read, if one was made. It is given back last.
    value: Option<Value>,
}

/// The plan of indexing what these bytes of `repodata.json` say.
pub(crate) fn planned(alloc: Global, place: &str, bytes: Vec<u8>) -> Result<Plan, IndexFault>
    requires { is_place place.now ≡ true }
    ensures { Plans place.now bytes.items result }
{
    let input = read(alloc, bytes)?;
    let mut records = input.records;
    let files = records.len() as u64;
    sort(&mut records)?;
    let groups = grouped(alloc, records)?;
    let names = groups.len() as u64;
    Ok(Plan {
        prepared: prepare(alloc, place, groups)?,
        names,
        files,
        value: input.value,
    })
}
