//! The address of a shard.

ghost use Rattle.std.specs.Prelude.{◌≡◌, ◌≤◌, ◌*◌, true, length, IfOk};
ghost use Rattle.std.specs.List.{list_all};
ghost use Rattle.std.specs.String.{string_bytes};
ghost use Rattle.hex.specs.Hex.{encode_lower};
ghost use Rattle.link_io.specs.Address.{is_address_byte};
ghost use Rattle.channel_url.specs.Addresses.{most_of_shards_base, is_slashed, shard_url};

use digest_gate::Digest;
use link_io::HttpUrl;
use std::alloc::{AllocError, Global};

/// The address of the shard with a digest below a base of shards.
pub fn shard_url(alloc: Global, base: &HttpUrl, digest: &Digest) -> Result<HttpUrl, AllocError>
    requires slashed { is_slashed base.now ≡ true }
    requires short { length base.now ≤ most_of_shards_base }
    ensures { IfOk result (λ url. url ≡ shard_url base.now digest.now) }
{
    let digits = digits_of(alloc, &digest.0)?;
    let name = base.followed_by(alloc, digits.as_str())?;
    name.followed_by(alloc, ".msgpack")
}

// Two digits for each byte, which may all stand in an address.
fn digits_of(alloc: Global, bytes: &[u8]) -> Result<String, AllocError>
    ensures ok { IfOk result (λ text. string_bytes text ≡ encode_lower bytes.now) }
    ensures size { IfOk result (λ text. length (string_bytes text) ≡ 2 * length bytes.now) }
    ensures fit { IfOk result (λ text. list_all is_address_byte (string_bytes text) ≡ true) }
{
    hex::encode(alloc, bytes)
}
