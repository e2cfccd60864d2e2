//! Why a shard could not be read.

use mp_codec::FormatFault;

/// Why bytes could not be read as a shard. The bytes are handed back.
#[derive(Debug, Drop)]
pub enum ShardRefusal {
    /// The bytes are no shard: the first fault that stands in them.
    Fault(FormatFault, Vec<u8>),
    /// Memory ran out.
    Memory(Vec<u8>),
}
