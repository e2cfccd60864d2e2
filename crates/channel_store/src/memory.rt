//! A store in memory, with the numbers of the calls that fail.

ghost use Rattle.std.specs.Prelude.{◌≡◌, ◌↔◌, ◌≤◌, true, map, Some, IfOk, OnOk, OnErr, IsErrOf, IsErr};
ghost use Rattle.std.specs.Ordering.{nat_cmp};
ghost use Rattle.std.specs.Cmp.Lexicographic.{slice_cmp};
ghost use Rattle.std.specs.Option.{option_map};
ghost use Rattle.std.specs.FinMap as finite;
ghost use Rattle.gateway_words.specs.Causes.{Rose};
ghost use Rattle.channel_store.specs.Store.{found, found_in};
ghost use Rattle.channel_store.specs.Memory.{store_of, first_file, fails_next, counted};

use crate::{Got, Store, StoreRefusal};
use mp_codec::Text;
use std::alloc::Global;
use std::collections::BTreeMap;
use std::marker::Model;

/// A store in memory. Its calls are counted from 0.
#[derive(Drop)]
pub struct MemStore {
    // The files that it was made of and that were not taken away; those of `later` come before them.
    first: Vec<(Text, Vec<u8>)>,
    later: BTreeMap<String, Vec<u8>>,
    fails: Vec<u64>,
    fails_from: Option<u64>,
    calls: u64,
    faults: u64,
}

impl Model for MemStore {
    ghost use Rattle.channel_store.specs.Memory.{MemoryStore, store_code, files_of};

    ghost Value = { MemoryStore };

    ghost coded = { store_code };

    ghost view = { λ s. record {
      files = files_of s.later.entries s.first.items;
      fails = s.fails.items;
      fails_from = s.fails_from;
      calls = s.calls;
      faults = s.faults;
    } };
}

impl MemStore {
    /// A store of these files; of two with one name the first counts. A call fails where its number
    /// is in `fails`, or where `fails_from` has a number that isn't above it. It takes no memory of
    /// its own.
    pub fn new(
        alloc: Global,
        files: Vec<(Text, Vec<u8>)>,
        fails: Vec<u64>,
        fails_from: Option<u64>,
    ) -> MemStore
        ensures { result ≡ store_of files.items fails.items fails_from }
    {
        MemStore {
            first: files,
            later: BTreeMap::new(alloc),
            fails,
            fails_from,
            calls: 0,
            faults: 0,
        }
    }

    /// The bytes of a file, or None where the name has no file.
    pub fn file(&self, name: &str) -> Option<&[u8]>
        ensures { option_map (λ bytes. bytes.now) result ≡ finite.get self.now.files name.now }
    {
        match self.later.get(name) {
            Some(bytes) => Some(bytes.as_slice()),
            None => first_named(&self.first, name),
        }
    }

    // Counts a call, and fails where that call is to fail.
    fn count_call(&mut self) -> Result<(), StoreRefusal>
        ensures fails { IsErr result ↔ (fails_next self.old ≡ true) }
        ensures failed { OnErr result (result ≡ Err StoreRefusal.Failed) }
        ensures after { self.new ≡ counted self.old }

        ensures later { self.old.faults ≤ self.new.faults }
        ensures cause { OnErr result (Rose self.old.faults self.new.faults) }
    {
        let number = self.calls;
        self.calls = number.saturating_add(1);
        if self.fails_from.is_some_and(|from| from <= number) || self.fails.contains(&number) {
            self.faults = self.faults.saturating_add(1);
            return Err(StoreRefusal::Failed);
        }
        Ok(())
    }
}

// The bytes of the first file of this name.
fn first_named<'a>(files: &'a [(Text, Vec<u8>)], name: &str) -> Option<&'a [u8]>
    ensures { option_map (λ bytes. bytes.now) result
        ≡ finite.find (slice_cmp nat_cmp) name.now (map first_file files.now) }
{
    for (known, bytes) in files {
        if known.as_str() == name {
            return Some(bytes.as_slice());
        }
    }
    None
}

impl Store for MemStore {
    ghost files = { λ s. Some s.files };

    ghost faults = { λ s. s.faults };

    fn get(&mut self, alloc: Global, name: &str, limit: u64) -> Result<Got, StoreRefusal>
        ensures ok { IfOk result (λ got. found got ≡ found_in self.old.files name.now limit) }

        // Which calls fail, and what each leaves.
        ensures fails { IsErrOf result StoreRefusal.Failed ↔ (fails_next self.old ≡ true) }
        ensures after { self.new ≡ counted self.old }

        ensures later { self.old.faults ≤ self.new.faults }
        ensures cause { IsErrOf result StoreRefusal.Failed
            → Rose self.old.faults self.new.faults }
    {
        self.count_call()?;
        match self.file(name) {
            None => Ok(Got::Absent),
            Some(bytes) if bytes.len() as u64 > limit => Ok(Got::Long),
            Some(bytes) => Ok(Got::Bytes(bytes.to_vec(alloc)?)),
        }
    }

    fn put(&mut self, alloc: Global, name: &str, bytes: &[u8]) -> Result<(), StoreRefusal>
        ensures ok { OnOk result (self.new ≡ record (counted self.old) {
          files = finite.insert self.old.files name.now bytes.now;
        }) }
        ensures err { OnErr result (self.new ≡ counted self.old) }
        ensures fails { IsErrOf result StoreRefusal.Failed ↔ (fails_next self.old ≡ true) }

        ensures later { self.old.faults ≤ self.new.faults }
        ensures cause { IsErrOf result StoreRefusal.Failed
            → Rose self.old.faults self.new.faults }
    {
        self.count_call()?;
        let name = String::from_str(alloc, name)?;
        let bytes = bytes.to_vec(alloc)?;
        self.later.insert(name, bytes)?;
        Ok(())
    }

    fn remove(&mut self, _alloc: Global, name: &str) -> Result<(), StoreRefusal>
        ensures ok { OnOk result (self.new ≡ record (counted self.old) {
          files = finite.remove self.old.files name.now;
        }) }
        ensures err { OnErr result (self.new ≡ counted self.old) }
        ensures fails { IsErrOf result StoreRefusal.Failed ↔ (fails_next self.old ≡ true) }

        ensures later { self.old.faults ≤ self.new.faults }
        ensures cause { IsErrOf result StoreRefusal.Failed
            → Rose self.old.faults self.new.faults }
    {
        self.count_call()?;
        self.later.remove(name);
        self.first.retain(|file| file.0.as_str() != name);
        Ok(())
    }
}
