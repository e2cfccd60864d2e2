//! A channel.

ghost use Rattle.std.specs.Prelude.{◌≡◌, IfOk};

use link_io::HttpUrl;
use mp_codec::Text;
use std::alloc::{AllocError, Global};
use std::marker::Model;

/// A channel: its name, and the address below which its subdirs stand. Contracts see its `Site`.
#[derive(Debug, Drop)]
pub struct Channel {
    /// The name, by which specs mean the channel.
    pub name: Text,
    /// The address, which ends in `/` where the request is well formed.
    pub base: HttpUrl,
}

impl Model for Channel {
    ghost use Rattle.closure_request.specs.Request.{Site};

    ghost Value = { Site };

    ghost view = { λ c. record { name = c.name; base = c.base } };
}

impl Channel {
    /// A copy.
    pub fn copy(&self, alloc: Global) -> Result<Channel, AllocError>
        ensures { IfOk result (λ channel. channel ≡ self.now) }
    {
        Ok(Channel {
            name: Text::copy(alloc, self.name.as_str())?,
            base: self.base.copy(alloc)?,
        })
    }
}
