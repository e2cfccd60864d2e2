//! The store names of an index and of a shard.

ghost use Rattle.std.specs.Prelude.{◌≡◌, ◌++◌, true, length, IfOk};
ghost use Rattle.hex.specs.Hex.{encode_lower};
ghost use Rattle.digest_gate.specs.Digest.{text_of};
ghost use Rattle.channel_store.specs.Names.{index_name, is_place, is_store_name, shard_name};

use digest_gate::Digest;
use mp_codec::Text;
use std::alloc::{AllocError, Global};

// The name of the index of a place.
pub(crate) fn index_name(alloc: Global, place: &str) -> Result<Text, AllocError>
    requires { is_place place.now ≡ true }
    ensures name { IfOk result (λ name. name ≡ index_name place.now) }
    ensures stored { IfOk result (λ name. is_store_name name ≡ true) }
{
    joined(alloc, place, "/repodata_shards.msgpack")
}

// The name of the shard of a place and a digest.
pub(crate) fn shard_name(alloc: Global, place: &str, digest: Digest) -> Result<Text, AllocError>
    requires { is_place place.now ≡ true }
    ensures name { IfOk result (λ name. name ≡ shard_name place.now (text_of digest)) }
    ensures stored { IfOk result (λ name. is_store_name name ≡ true) }
{
    shard_text(alloc, place, digest.0.as_slice())
}

// The name of the shard of a place and the bytes of a digest.
fn shard_text(alloc: Global, place: &str, digest: &[u8]) -> Result<Text, AllocError>
    requires place { is_place place.now ≡ true }
    requires size { length digest.now ≡ 32 }
    ensures name { IfOk result (λ name. name ≡ shard_name place.now (encode_lower digest.now)) }
    ensures stored { IfOk result (λ name. is_store_name name ≡ true) }
{
    shard_parts(alloc, place, digest)
}

// The parts of that name, one behind the other.
fn shard_parts(alloc: Global, place: &str, digest: &[u8]) -> Result<Text, AllocError>
    ensures { IfOk result (λ name. name ≡ shard_name place.now (encode_lower digest.now)) }
{
    let mut behind = hex::encode(alloc, digest)?;
    behind.push_str(".msgpack")?;
    let folder = joined(alloc, place, "/shards/")?;
    joined(alloc, folder.as_str(), behind.as_str())
}

// Two texts, one behind the other.
pub(crate) fn joined(alloc: Global, front: &str, behind: &str) -> Result<Text, AllocError>
    ensures { IfOk result (λ text. text ≡ front.now ++ behind.now) }
{
    let mut text = String::from_str(alloc, front)?;
    text.push_str(behind)?;
    Text::copy(alloc, text.as_str())
}
