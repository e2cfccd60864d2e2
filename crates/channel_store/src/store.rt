//! What a store of files does.

ghost use Rattle.std.specs.Prelude.{◌≡◌, ℕ, ◌≤◌, true, Option, IfOk, OnOk, IfSome, IsErrOf};
ghost use Rattle.gateway_words.specs.Causes.{Rose};
ghost use Rattle.channel_store.specs.Names.{is_store_name};
ghost use Rattle.channel_store.specs.Store.{Files, found, found_in, with_file, without_file, IsEither};

use std::alloc::{AllocError, AllocFailed, Global};

/// What a store has under a name.
#[derive(Debug, Drop)]
pub enum Got {
    /// No file.
    Absent,
    /// The bytes of the file.
    Bytes(Vec<u8>),
    /// A file with more bytes than were asked for.
    Long,
}

/// Why a store didn't do what it was asked.
#[derive(Clone, Copy, Debug, PartialEq, Eq)]
pub enum StoreRefusal {
    /// The store failed, and its count of faults rose.
    Failed,
    /// Memory ran out.
    Memory,
}

impl From<AllocError> for StoreRefusal {
    ghost use Rattle.std.specs.Prelude.{◌≡◌};
    ghost use Rattle.channel_store.specs.declared.store.StoreRefusal.TheVariants as refusal;

    ghost from_gives = { λ _ e. e ≡ refusal.Memory };

    fn from(_: AllocError) -> Self {
        StoreRefusal::Memory
    }
}

impl<T: Drop> From<AllocFailed<T>> for StoreRefusal {
    ghost use Rattle.std.specs.Prelude.{◌≡◌};
    ghost use Rattle.channel_store.specs.declared.store.StoreRefusal.TheVariants as refusal;

    ghost from_gives = { λ _ e. e ≡ refusal.Memory };

    fn from(_: AllocFailed<T>) -> Self {
        StoreRefusal::Memory
    }
}

/// Files by store names (`is_store_name`).
pub trait Store {
    /// The files, where the store tells them.
    ghost files: { Self → Option Files };

    /// How often a call has failed. It never falls.
    ghost faults: { Self → ℕ };

    /// The file of a name, if it is there and has at most `limit` bytes. It changes no file.
    ///
    /// `Failed` where the store failed.
    fn get(&mut self, alloc: Global, name: &str, limit: u64) -> Result<Got, StoreRefusal>
        requires { is_store_name name.now ≡ true }

        ensures ok { IfOk result (λ got. IfSome (files self.old)
            (λ told. found got ≡ found_in told name.now limit)) }
        ensures same { files self.new ≡ files self.old }

        ensures later { faults self.old ≤ faults self.new }
        ensures cause { IsErrOf result StoreRefusal.Failed
            → Rose (faults self.old) (faults self.new) };

    /// Puts a file of these bytes under a name, in the place of the one that stands there.
    ///
    /// `Failed` where the store failed: the old file stands, or none where there was none, or the
    /// new one stands, whole. At want of memory nothing has changed. No other file changes.
    fn put(&mut self, alloc: Global, name: &str, bytes: &[u8]) -> Result<(), StoreRefusal>
        requires { is_store_name name.now ≡ true }

        ensures ok { OnOk result (files self.new
            ≡ with_file name.now bytes.now (files self.old)) }
        ensures failed { IsErrOf result StoreRefusal.Failed → IsEither (files self.old)
            (with_file name.now bytes.now (files self.old)) (files self.new) }
        ensures memory { IsErrOf result StoreRefusal.Memory → files self.new ≡ files self.old }

        ensures later { faults self.old ≤ faults self.new }
        ensures cause { IsErrOf result StoreRefusal.Failed
            → Rose (faults self.old) (faults self.new) };

    /// Takes the file of a name away. It is Ok where there is none.
    ///
    /// `Failed` where the store failed: the file stands or is gone. At want of memory nothing has
    /// changed. No other file changes.
    fn remove(&mut self, alloc: Global, name: &str) -> Result<(), StoreRefusal>
        requires { is_store_name name.now ≡ true }

        ensures ok { OnOk result (files self.new ≡ without_file name.now (files self.old)) }
        ensures failed { IsErrOf result StoreRefusal.Failed → IsEither (files self.old)
            (without_file name.now (files self.old)) (files self.new) }
        ensures memory { IsErrOf result StoreRefusal.Memory → files self.new ≡ files self.old }

        ensures later { faults self.old ≤ faults self.new }
        ensures cause { IsErrOf result StoreRefusal.Failed
            → Rose (faults self.old) (faults self.new) };
}
