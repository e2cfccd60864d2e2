//! What a command tells beside its status.

use channel_indexer::IndexFault;
use mp_codec::{FormatFault, Text};
use store_closure::FileWhy;

/// What a command tells beside its status.
#[derive(Debug, Drop)]
pub enum Note {
    /// Nothing: with every status but that of a bad file.
    Nothing,
    /// The input of `show` is no shard: the first fault that stands in it.
    Shard(FormatFault),
    /// A place can't be indexed, by the file that stands there.
    Indexing(IndexFault),
    /// A file of the store that `closure` needs is bad: its store name, and why.
    File(Text, FileWhy),
}
