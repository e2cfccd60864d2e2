//! The real store: the files of the current folder. It tells nothing of them.
//!
//! A file is put whole: it is written beside the one that it takes the place of, and renamed. A
//! shard's bytes are on the disk before its name is; and before an index is put, the names of all
//! shards are. So a power cut never leaves an index that lists what is not there.

ghost use Rattle.std.specs.Prelude.{◌≡◌, ◌≤◌, None, IsErrOf, IfOk, OnErr};
ghost use Rattle.gateway_words.specs.Causes.{Rose};
ghost use Rattle.channel_store.specs.Folder.{failed_calls};

use crate::temporary::{Temporary, remove_left};
use crate::{Got, Store, StoreRefusal, is_shard_name};
use std::alloc::Global;
use std::fs::{self, File};
use std::io::{self, ErrorKind, Read};
use std::rt::Files;

/// The files of the current folder, by their paths in it. It tells none of them.
#[derive(Drop)]
pub struct FolderStore<R> {
    rt: R,
    faults: u64,
}

impl<R: Files + Drop> FolderStore<R> {
    /// A store of the current folder, which it reaches by the runtime's value.
    pub fn new(rt: R) -> Self
        ensures { failed_calls result ≡ 0 }
    {
        FolderStore { rt, faults: 0 }
    }

    // What came of a call; a failure for another cause than memory is counted.
    fn counted<T: Drop>(&mut self, answer: io::Result<T>) -> Result<T, StoreRefusal>
        ensures later { failed_calls self.old ≤ failed_calls self.new }
        ensures cause { IsErrOf result StoreRefusal.Failed
            → Rose (failed_calls self.old) (failed_calls self.new) }
    {
        match answer {
            Ok(value) => Ok(value),
            Err(error) if error.kind() == ErrorKind::OutOfMemory => Err(StoreRefusal::Memory),
            Err(_) => {
                self.faults = self.faults.saturating_add(1);
                Err(StoreRefusal::Failed)
            }
        }
    }

    // What came of a call behind which a file stands; each failure is counted, also one for memory.
    fn counted_behind(&mut self, answer: io::Result<()>) -> Result<(), StoreRefusal>
        ensures later { failed_calls self.old ≤ failed_calls self.new }
        ensures cause { OnErr result (Rose (failed_calls self.old) (failed_calls self.new)) }
        ensures failed { OnErr result (result ≡ Err StoreRefusal.Failed) }
    {
        if answer.is_ok() {
            return Ok(());
        }
        self.faults = self.faults.saturating_add(1);
        Err(StoreRefusal::Failed)
    }
}

impl<R: Files<File = File> + Drop> Store for FolderStore<R> {
    ghost files = { λ _. None };

    ghost faults = { λ s. s.faults };

    fn get(&mut self, alloc: Global, name: &str, limit: u64) -> Result<Got, StoreRefusal> {
        let got = read(&self.rt, alloc, name, limit);
        self.counted(got)
    }

    fn put(&mut self, alloc: Global, name: &str, bytes: &[u8]) -> Result<(), StoreRefusal> {
        let put = write(&self.rt, alloc, name, bytes);
        self.counted(put)?;
        let synced = sync_behind(&self.rt, name);
        self.counted_behind(synced)
    }

    fn remove(&mut self, _alloc: Global, name: &str) -> Result<(), StoreRefusal> {
        let removed = match fs::remove_file(&self.rt, name) {
            Err(error) if error.kind() == ErrorKind::NotFound => Ok(()),
            removed => removed,
        };
        self.counted(removed)
    }
}

// A file from this length on is a long one.
const LONG_FILE_BYTES: u64 = 96 * 1024;

// The least room of a long file: the C library keeps no block of this length for later.
const LONG_ROOM_BYTES: u64 = 32 * 1024 * 1024 + 1;

// How much room is made for so many bytes. That of a long file goes back to the system as soon as its
// bytes are dropped, so that a server keeps no more than short files need; the room is not touched
// where the file does not reach.
fn room_for(bytes: u64) -> u64 {
    if bytes < LONG_FILE_BYTES {
        bytes
    } else {
        bytes.max(LONG_ROOM_BYTES)
    }
}

// The bytes of a file; of one that is too long, no more than one byte behind the limit is read. What is
// no plain file is not opened, since that can wait for another program. Room is made at once, for the file
// and for a byte behind it, so that most files are there after one read, and their end after a second.
fn read<R: Files>(rt: &R, alloc: Global, name: &str, limit: u64) -> io::Result<Got> {
    let size = match fs::metadata(rt, name) {
        Ok(found) if found.is_file() => found.len(),
        Ok(_) => return Err(io::Error::from(ErrorKind::InvalidInput)),
        Err(error) if error.kind() == ErrorKind::NotFound => return Ok(Got::Absent),
        Err(error) => return Err(error),
    };
    let file = match fs::open(rt, name) {
        Ok(file) => file,
        Err(error) if error.kind() == ErrorKind::NotFound => return Ok(Got::Absent),
        Err(error) => return Err(error),
    };
    let mut bytes = Vec::new(alloc);
    let whole = size.min(limit).saturating_add(1);
    if bytes.reserve(room_for(whole) as usize).is_err() {
        bytes.reserve(whole as usize)?;
    }
    file.take(limit.saturating_add(1)).read_to_end(&mut bytes)?;
    if bytes.len() as u64 > limit {
        return Ok(Got::Long);
    }
    Ok(Got::Bytes(bytes))
}

// Writes a file beside the one that it takes the place of, so that neither is ever there in part.
// Before any file but a shard is put, the folders of its place are on the disk.
fn write<R: Files<File = File>>(rt: &R, alloc: Global, name: &str, bytes: &[u8]) -> io::Result<()> {
    let folder = folder_of(name);
    fs::create_dir_all(rt, folder)?;
    if !is_shard_name(name) {
        settle(rt, alloc, folder)?;
    }
    let mut temporary = Temporary::new(rt, alloc, folder)?;
    temporary.write(bytes)?;
    temporary.put(name)
}

// Removes what killed runs left at a place, and makes sure that the names of its shards, its folders
// and those above it are on the disk.
fn settle<R: Files<File = File>>(rt: &R, alloc: Global, place: &str) -> io::Result<()> {
    let shards = format!(in alloc; "{place}/shards")?;
    for folder in [shards.as_str(), place] {
        remove_left(rt, alloc, folder)?;
    }
    let channel = folder_of(place);
    for folder in [shards.as_str(), place, channel, folder_of(channel)] {
        sync_if_there(rt, folder)?;
    }
    Ok(())
}

// Makes sure of the folder of a file that was put, if it is no shard: a shard's folder is made sure of
// before the next index is put.
fn sync_behind<R: Files<File = File>>(rt: &R, name: &str) -> io::Result<()> {
    if is_shard_name(name) {
        return Ok(());
    }
    sync_if_there(rt, folder_of(name))
}

// Makes sure that the names in a folder are on the disk, if there is such a folder.
fn sync_if_there<R: Files<File = File>>(rt: &R, folder: &str) -> io::Result<()> {
    match File::open(rt, folder) {
        Ok(folder) => folder.sync_all(),
        Err(error) if error.kind() == ErrorKind::NotFound => Ok(()),
        Err(error) => Err(error),
    }
}

// The folder in which a file stands.
fn folder_of(name: &str) -> &str {
    match name.rsplit_once('/') {
        Some((folder, _)) => folder,
        None => ".",
    }
}
