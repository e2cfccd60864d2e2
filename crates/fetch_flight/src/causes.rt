//! Why a fetch has no value.

use digest_gate::Digest;
use link_io::UrlFault;
use mp_codec::FormatFault;

/// What is wrong with the bytes of a shard or an index.
#[derive(Clone, Copy, Debug, PartialEq, Eq)]
pub enum Malformed {
    /// The first fault that stands in the bytes.
    Format(FormatFault),
    /// The index's base of shards, joined to its own address, is none.
    Base(UrlFault),
}

/// Why a fetch has no value.
#[derive(Clone, Copy, Debug, PartialEq, Eq)]
pub enum Cause {
    /// The connection failed.
    Link,
    /// The status is 404 or 410.
    Absent,
    /// The status is another one than 200, 404 and 410.
    Status(u16),
    /// The bytes are no reply of the accepted form.
    BadReply,
    /// The head or the body is too long.
    TooLong,
    /// The body of a shard has another digest than its key.
    Digest {
        /// The digest of the key.
        want: Digest,
        /// The digest of the body.
        got: Digest,
    },
    /// The body is no shard, or no index with a base of shards.
    Malformed(Malformed),
}
