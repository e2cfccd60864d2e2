//! Reading the indexes and shards of a store.

ghost use Rattle.std.specs.Prelude.{◌≡◌, ◌≤◌, true, IfOk, IfSome, IsErrOf};
ghost use Rattle.gateway_words.specs.Causes.{Rose};
ghost use Rattle.gateway_words.specs.Limits.{most_served_bytes};
ghost use Rattle.gateway_words.specs.Reading.{Gives};
ghost use Rattle.digest_gate.specs.Digest.{digest_of, text_of};
ghost use Rattle.channel_store.specs.Names.{index_name, is_store_name, shard_name};
ghost use Rattle.channel_store.specs.Store.{found_in};
ghost use Rattle.store_closure.specs.Files.{index_found, index_in, rows_checked, rows_found, rows_in};
ghost use Rattle.store_closure.specs.Seen.{bad_by, bytes_found, why_of};
ghost use Rattle.store_closure.specs.Runs.{of_file};
ghost use Rattle.store_closure.specs.Stops.{bad_of};

use crate::names::{index_name, shard_name};
use crate::places::StorePlace;
use crate::stop::{BadFile, FileWhy, Stop};
use channel_store::{Got, MOST_SERVED_BYTES, Store, StoreRefusal};
use digest_gate::{Body, Digest};
use mp_codec::Text;
use shard_file::{Leaf, LeafRefusal};
use shard_index::{Index, IndexRefusal};
use std::alloc::Global;

// Why a file gave nothing.
#[derive(Drop)]
pub(crate) enum Refused {
    // It is bad.
    Bad(FileWhy),
    // The store failed.
    Failed,
    // Memory ran out.
    Memory,
}

// What the index of a place says.
pub(crate) fn index_at<S: Store>(
    alloc: Global,
    store: &mut S,
    place: &StorePlace,
) -> Result<Index, Stop>
    ensures gives { IfSome (S.files store.old) (λ told. Gives (λ index. index) bad_of result
        (of_file (index_name place.now) (λ index. index) (index_in told place.now))) }
    ensures same { S.files store.new ≡ S.files store.old }
    ensures later { S.faults store.old ≤ S.faults store.new }
    ensures cause { IsErrOf result Stop.Failed → Rose (S.faults store.old) (S.faults store.new) }
{
    let name = index_name(alloc, place.as_str())?;
    match index_of_file(alloc, store, &name) {
        Ok(index) => Ok(index),
        Err(refused) => Err(stop(name, refused)),
    }
}

// The shard of a place and a digest.
pub(crate) fn leaf_at<S: Store>(
    alloc: Global,
    store: &mut S,
    place: &StorePlace,
    digest: Digest,
) -> Result<Leaf, Stop>
    ensures gives { IfSome (S.files store.old) (λ told. Gives (λ leaf. leaf.rows) bad_of result
        (of_file (shard_name place.now (text_of digest)) (λ rows. rows)
        (rows_in told place.now digest))) }
    ensures digest { IfOk result (λ leaf. digest_of leaf.bytes ≡ digest) }
    ensures same { S.files store.new ≡ S.files store.old }
    ensures later { S.faults store.old ≤ S.faults store.new }
    ensures cause { IsErrOf result Stop.Failed → Rose (S.faults store.old) (S.faults store.new) }
{
    let name = shard_name(alloc, place.as_str(), digest)?;
    match leaf_of_file(alloc, store, &name, digest) {
        Ok(leaf) => Ok(leaf),
        Err(refused) => Err(stop(name, refused)),
    }
}

// Why there is no answer, where the file of a name gave nothing.
fn stop(name: Text, refused: Refused) -> Stop
    ensures bad { bad_of result ≡ bad_by name refused }
    ensures failed { result ≡ Stop.Failed → refused ≡ Refused.Failed }
{
    match refused {
        Refused::Bad(why) => Stop::Bad(BadFile { name, why }),
        Refused::Failed => Stop::Failed,
        Refused::Memory => Stop::Memory,
    }
}

// What the file of a name says as an index.
fn index_of_file<S: Store>(alloc: Global, store: &mut S, name: &Text) -> Result<Index, Refused>
    requires { is_store_name name.now ≡ true }
    ensures gives { IfSome (S.files store.old) (λ told. Gives (λ index. index) why_of result
        (index_found (found_in told name.now most_served_bytes))) }
    ensures same { S.files store.new ≡ S.files store.old }
    ensures later { S.faults store.old ≤ S.faults store.new }
    ensures cause { IsErrOf result Refused.Failed
        → Rose (S.faults store.old) (S.faults store.new) }
{
    let bytes = bytes_of_file(alloc, store, name)?;
    match Index::read(alloc, &bytes) {
        Ok(index) => Ok(index),
        Err(IndexRefusal::Fault(fault)) => Err(Refused::Bad(FileWhy::Format(fault))),
        Err(IndexRefusal::Memory) => Err(Refused::Memory),
    }
}

// What the file of a name says as the shard of a digest.
fn leaf_of_file<S: Store>(
    alloc: Global,
    store: &mut S,
    name: &Text,
    digest: Digest,
) -> Result<Leaf, Refused>
    requires { is_store_name name.now ≡ true }
    ensures gives { IfSome (S.files store.old) (λ told. Gives (λ leaf. leaf.rows) why_of result
        (rows_found digest (found_in told name.now most_served_bytes))) }
    ensures digest { IfOk result (λ leaf. digest_of leaf.bytes ≡ digest) }
    ensures same { S.files store.new ≡ S.files store.old }
    ensures later { S.faults store.old ≤ S.faults store.new }
    ensures cause { IsErrOf result Refused.Failed
        → Rose (S.faults store.old) (S.faults store.new) }
{
    let bytes = bytes_of_file(alloc, store, name)?;
    leaf_of(alloc, bytes, digest)
}

// The shard that bytes are, where they have a digest.
fn leaf_of(alloc: Global, bytes: Vec<u8>, digest: Digest) -> Result<Leaf, Refused>
    ensures gives { Gives (λ leaf. leaf.rows) why_of result (rows_checked digest bytes.items) }
    ensures digest { IfOk result (λ leaf. digest_of leaf.bytes ≡ digest) }
    ensures cause { IsErrOf result Refused.Failed → ⊥ }
{
    let body = match Body::check(bytes, digest) {
        Ok(body) => body,
        Err(mismatch) => {
            return Err(Refused::Bad(FileWhy::Digest {
                want: mismatch.want,
                got: mismatch.got,
            }));
        }
    };
    match Leaf::read(alloc, body) {
        Ok(leaf) => Ok(leaf),
        Err(LeafRefusal::Fault(fault, _)) => Err(Refused::Bad(FileWhy::Format(fault))),
        Err(LeafRefusal::Memory(_)) => Err(Refused::Memory),
    }
}

// The bytes of the file of a name.
fn bytes_of_file<S: Store>(alloc: Global, store: &mut S, name: &Text) -> Result<Vec<u8>, Refused>
    requires { is_store_name name.now ≡ true }
    ensures gives { IfSome (S.files store.old) (λ told. Gives (λ bytes. bytes.items) why_of
        result (bytes_found (found_in told name.now most_served_bytes))) }
    ensures same { S.files store.new ≡ S.files store.old }
    ensures later { S.faults store.old ≤ S.faults store.new }
    ensures cause { IsErrOf result Refused.Failed
        → Rose (S.faults store.old) (S.faults store.new) }
{
    match store.get(alloc, name.as_str(), MOST_SERVED_BYTES as u64) {
        Ok(Got::Bytes(bytes)) => Ok(bytes),
        Ok(Got::Absent) => Err(Refused::Bad(FileWhy::Absent)),
        Ok(Got::Long) => Err(Refused::Bad(FileWhy::Long)),
        Err(StoreRefusal::Failed) => Err(Refused::Failed),
        Err(StoreRefusal::Memory) => Err(Refused::Memory),
    }
}
