//! The address of an index.

ghost use Rattle.std.specs.Prelude.{◌≡◌, ◌≤◌, true, length, IfOk};
ghost use Rattle.std.specs.List.{list_all};
ghost use Rattle.link_io.specs.Address.{is_address_byte};
ghost use Rattle.channel_url.specs.Addresses.{most_of_channel_base, is_slashed, index_url};

use link_io::HttpUrl;
use std::alloc::{AllocError, Global};

/// The address of the index of a subdir below a channel's base.
pub fn index_url(alloc: Global, base: &HttpUrl, subdir: &str) -> Result<HttpUrl, AllocError>
    requires slashed { is_slashed base.now ≡ true }
    requires short { length base.now ≤ most_of_channel_base }
    requires subdir { (length subdir.now ≤ 64) × (list_all is_address_byte subdir.now ≡ true) }
    ensures { IfOk result (λ url. url ≡ index_url base.now subdir.now) }
{
    let folder = base.followed_by(alloc, subdir)?;
    folder.followed_by(alloc, "/repodata_shards.msgpack")
}
