//! Putting files into a store, one after another.

ghost use Rattle.std.specs.Prelude.{◌≡◌, ◌↔◌, ◌≤◌, IsTrue, IfOk, OnOk, OnErr, IfSome, IsErrOf, count_by, length, vec_len};
ghost use Rattle.gateway_words.specs.Causes.{Rose};
ghost use Rattle.channel_store.specs.Store.{with_file, IsEither};
ghost use Rattle.channel_indexer.specs.Puts.{with_puts, StopsWithin, stands_in, AreApart};
ghost use Rattle.channel_indexer.specs.Prepared.{puts_of};

use crate::shards::Prepared;
use channel_store::{Got, Store, StoreRefusal};
use mp_codec::Text;
use std::alloc::Global;
use std::marker::Model;

/// A file that is to be put, whose name is a store name. Contracts see its name and its bytes.
#[derive(Debug, Drop)]
pub(crate) struct Put {
    pub(crate) name: Text,
    pub(crate) bytes: Vec<u8>,
}

impl Model for Put {
    ghost use Rattle.std.specs.Prelude.{◌≡◌, true};
    ghost use Rattle.channel_store.specs.Names.{is_store_name};
    ghost use Rattle.channel_indexer.specs.Puts as puts;

    ghost Value = { puts.Put };

    ghost view = { λ put. record { name = put.name; bytes = put.bytes.items } };

    ghost invariant = { λ put. is_store_name put.name ≡ true };
}

// Puts a file, unless it stands with these bytes already, and says whether it stood.
fn put_unless_there<S: Store>(alloc: Global, store: &mut S, put: &Put) -> Result<bool, StoreRefusal>
    ensures ok { OnOk result (S.files store.new
        ≡ with_file put.now.name put.now.bytes (S.files store.old)) }
    ensures there { IfOk result (λ there. IfSome (S.files store.old)
        (λ told. there ≡ stands_in told put.now)) }
    ensures stop { OnErr result (IsEither (S.files store.old)
        (with_file put.now.name put.now.bytes (S.files store.old)) (S.files store.new)) }

    ensures later { S.faults store.old ≤ S.faults store.new }
    ensures cause { IsErrOf result StoreRefusal.Failed
        → Rose (S.faults store.old) (S.faults store.new) }
{
    let name = put.name.as_str();
    if let Got::Bytes(there) = store.get(alloc, name, put.bytes.len() as u64)? {
        if there == put.bytes {
            return Ok(true);
        }
    }
    store.put(alloc, name, &put.bytes)?;
    Ok(false)
}

/// Puts files in their order, those that stand already left as they are, and counts these.
pub(crate) fn put_all<S: Store>(
    alloc: Global,
    store: &mut S,
    puts: &[Put],
) -> Result<u64, StoreRefusal>
    ensures ok { OnOk result (S.files store.new ≡ with_puts puts.now (S.files store.old)) }
    ensures kept { IfOk result (λ kept. IfSome (S.files store.old)
        (λ told. AreApart puts.now → kept ≡ count_by (stands_in told) puts.now)) }
    ensures few { IfOk result (λ kept. kept ≤ length puts.now) }
    ensures stop { StopsWithin puts.now (S.files store.old) (S.files store.new) }

    ensures later { S.faults store.old ≤ S.faults store.new }
    ensures cause { IsErrOf result StoreRefusal.Failed
        → Rose (S.faults store.old) (S.faults store.new) }
{
    let mut kept = 0;
    for put in puts {
        if put_unless_there(alloc, store, put)? {
            kept += 1;
        }
    }
    Ok(kept)
}

/// Puts the shards, and the index behind them, and counts the shards that stood already.
pub(crate) fn put_prepared<S: Store>(
    alloc: Global,
    store: &mut S,
    prepared: &Prepared,
) -> Result<u64, StoreRefusal>
    ensures ok { OnOk result (S.files store.new
        ≡ with_puts (puts_of prepared.now) (S.files store.old)) }
    ensures kept { IfOk result (λ kept. IfSome (S.files store.old) (λ told.
        AreApart prepared.now.shards.items
        → kept ≡ count_by (stands_in told) prepared.now.shards.items)) }
    ensures few { IfOk result (λ kept. kept ≤ vec_len prepared.now.shards) }
    ensures stop { StopsWithin (puts_of prepared.now) (S.files store.old) (S.files store.new) }

    ensures later { S.faults store.old ≤ S.faults store.new }
    ensures cause { IsErrOf result StoreRefusal.Failed
        → Rose (S.faults store.old) (S.faults store.new) }
{
    let kept = put_all(alloc, store, &prepared.shards)?;
    put_last(alloc, store, &prepared.index)?;
    Ok(kept)
}

// Puts a file, whatever stands under its name.
fn put_last<S: Store>(alloc: Global, store: &mut S, put: &Put) -> Result<(), StoreRefusal>
    ensures ok { OnOk result (S.files store.new
        ≡ with_file put.now.name put.now.bytes (S.files store.old)) }
    ensures stop { OnErr result (IsEither (S.files store.old)
        (with_file put.now.name put.now.bytes (S.files store.old)) (S.files store.new)) }

    ensures later { S.faults store.old ≤ S.faults store.new }
    ensures cause { IsErrOf result StoreRefusal.Failed
        → Rose (S.faults store.old) (S.faults store.new) }
{
    store.put(alloc, put.name.as_str(), &put.bytes)
}
