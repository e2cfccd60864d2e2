//! Indexing a subdir of a channel.

ghost use Rattle.std.specs.Prelude.{◌≡◌, ◌≤◌, true, List, None, IfOk, IfErr, IfSome, IsErrOf};
ghost use Rattle.gateway_words.specs.Causes.{Rose};
ghost use Rattle.channel_store.specs.Names.{is_place};
ghost use Rattle.shard_file.specs.Rows.{Row};
ghost use Rattle.channel_indexer.specs.Groups.{Group};
ghost use Rattle.channel_indexer.specs.Store.{stored_fault, fault_of_store};
ghost use Rattle.channel_indexer.specs.Indexing.{AnswersFault, GivesInput, IsIndexable, IsIndexed, PlaceFault, StopsAt};

use crate::fault::{IndexFault, Large};
use crate::plan::planned;
use crate::putting::put_prepared;
use crate::shards::input_name;
use channel_store::{Got, Store, StoreRefusal};
use std::alloc::Global;

const MOST_INPUT: u64 = 536_870_912;

/// What an indexing did.
#[derive(Clone, Copy, Debug, PartialEq, Eq)]
pub struct Summary {
    /// How many package names have a shard.
    pub names: u64,
    /// How many package files the shards list.
    pub files: u64,
    /// How many shards were put.
    pub written: u64,
    /// How many shards stood already.
    pub kept: u64,
}

/// Indexes the subdir at a place of a store: reads `repodata.json` there, puts a shard for each
/// package name, ascending by the names, and last the index. A shard that stands already is not put
/// again, and old shards are left. All bytes are made before the first put.
///
/// `NoFile`, `Json`, `Fields` and `TooLong` by the file that stands there, `StoreFault` where the
/// store failed.
pub fn index_subdir<S: Store>(
    alloc: Global,
    store: &mut S,
    place: &str,
) -> Result<Summary, IndexFault>
    requires { is_place place.now ≡ true }

    // What was done to the files.
    ensures ok { IfOk result (λ summary. IfSome (S.files store.old)
        (λ told. IsIndexed place.now told (S.files store.new) summary)) }
    // A fault other than the store's stands in the stored bytes.
    ensures fault { IfErr result (λ e. IfSome (stored_fault e)
        (λ f. IfSome (S.files store.old) (λ told. PlaceFault place.now told f))) }
    // A fault that stands there is answered, unless memory runs out or the store fails.
    ensures broken { IfSome (S.files store.old) (λ told. (f : IndexFault)
        → PlaceFault place.now told f → AnswersFault f result) }
    // A place with nothing wrong is indexed, unless memory runs out or the store fails.
    ensures only { IfSome (S.files store.old) (λ told. (stood : List Row) (groups : List Group)
        → IsIndexable place.now told stood groups → IfErr result (λ e. stored_fault e ≡ None)) }
    // Whatever is answered, some puts were made, from the first one on, and nothing else changed.
    ensures stop { IfSome (S.files store.old)
        (λ told. StopsAt place.now told (S.files store.new)) }

    ensures later { S.faults store.old ≤ S.faults store.new }
    ensures cause { IsErrOf result IndexFault.StoreFault
        → Rose (S.faults store.old) (S.faults store.new) }
{
    let bytes = input(alloc, store, place)?;
    let plan = planned(alloc, place, bytes)?;
    let kept = put_prepared(alloc, store, &plan.prepared).map_err(of_store)?;
    Ok(Summary {
        names: plan.names,
        files: plan.files,
        written: plan.names - kept,
        kept,
    })
}

// The bytes of `repodata.json` at a place.
fn input<S: Store>(alloc: Global, store: &mut S, place: &str) -> Result<Vec<u8>, IndexFault>
    requires { is_place place.now ≡ true }
    ensures gives { IfSome (S.files store.old) (λ told. GivesInput place.now told result) }
    ensures same { S.files store.new ≡ S.files store.old }

    ensures later { S.faults store.old ≤ S.faults store.new }
    ensures cause { IsErrOf result IndexFault.StoreFault
        → Rose (S.faults store.old) (S.faults store.new) }
{
    let name = input_name(alloc, place)?;
    match store.get(alloc, name.as_str(), MOST_INPUT) {
        Ok(Got::Bytes(bytes)) => Ok(bytes),
        Ok(Got::Absent) => Err(IndexFault::NoFile),
        Ok(Got::Long) => Err(IndexFault::TooLong(Large::Input)),
        Err(refusal) => Err(of_store(refusal)),
    }
}

// The answer to a refusal of the store.
fn of_store(refusal: StoreRefusal) -> IndexFault
    ensures { result ≡ fault_of_store refusal }
{
    match refusal {
        StoreRefusal::Failed => IndexFault::StoreFault,
        StoreRefusal::Memory => IndexFault::Memory,
    }
}
