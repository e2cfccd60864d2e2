//! Why a subdir was not indexed.

ghost use Rattle.std.specs.Prelude.{◌≡◌};
ghost use Rattle.channel_indexer.specs.declared.fault.IndexFault.TheVariants.{Memory};
ghost use Rattle.channel_indexer.specs.Faults.{number_of};

use conda_name::Name;
use mp_codec::Text;
use std::alloc::{AllocError, AllocFailed};

/// What has too many bytes.
#[derive(Debug, Drop)]
pub enum Large {
    /// `repodata.json`.
    Input,
    /// The shard of this name, the least whose shard is too long.
    Shard(Name),
    /// The index.
    Index,
}

/// Why a subdir was not indexed.
#[derive(Debug, Drop)]
pub enum IndexFault {
    /// There is no `repodata.json`. Its number is 1.
    NoFile,
    /// `repodata.json` is not JSON, or not an object with objects behind `packages` and
    /// `packages.conda`. Its number is 2.
    Json,
    /// The first file whose record lacks a required string, or whose name is no package name. Its
    /// number is 3.
    Fields(Text),
    /// The store failed. Its number is 4.
    StoreFault,
    /// Something has too many bytes. Its number is 5.
    TooLong(Large),
    /// Memory ran out.
    Memory,
}

impl IndexFault {
    /// The number of a fault, from 1 to 5. Want of memory has none.
    pub fn number(&self) -> Option<u64>
        ensures { result ≡ number_of self.now }
    {
        match self {
            IndexFault::NoFile => Some(1),
            IndexFault::Json => Some(2),
            IndexFault::Fields(_) => Some(3),
            IndexFault::StoreFault => Some(4),
            IndexFault::TooLong(_) => Some(5),
            IndexFault::Memory => None,
        }
    }
}

impl From<AllocError> for IndexFault {
    ghost from_gives = { λ _ fault. fault ≡ Memory };

    fn from(_error: AllocError) -> IndexFault {
        IndexFault::Memory
    }
}

impl<T: Drop> From<AllocFailed<T>> for IndexFault {
    ghost from_gives = { λ _ fault. fault ≡ Memory };

    fn from(_error: AllocFailed<T>) -> IndexFault {
        IndexFault::Memory
    }
}
