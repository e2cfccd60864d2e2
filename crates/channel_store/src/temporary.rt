//! The file that is written before it is put in the place of another.
//!
//! Each has a name of its own, by a number, and its lock is held as long as it is open. So a file of
//! such a name whose lock is free was left by a run that was killed, and no run takes the file of
//! another that is still going.

use std::alloc::{AllocError, Global};
use std::fs::{self, File, TryLockError};
use std::io::{self, ErrorKind, Write};
use std::os::unix::fs::MetadataExt;
use std::rt::Files;

// How many temporary files a folder has at most.
const MOST_IN_FOLDER: u32 = 64;

/// A file of its own in a folder, which is removed where it is dropped.
pub(crate) struct Temporary<'a, R: Files<File = File>> {
    rt: &'a R,
    path: String,
    file: File,
}

impl<R: Files<File = File>> Drop for Temporary<'_, R> {
    fn drop(self) {
        let _ = fs::remove_file(self.rt, self.path.as_str());
        let Temporary {
            rt: _,
            path: _,
            file: _,
        } = self;
    }
}

impl<'a, R: Files<File = File>> Temporary<'a, R> {
    /// A new file in this folder, by the first number that isn't taken. What a killed run left on
    /// the way there is removed.
    ///
    /// An error where all numbers are taken, and where the folder can't be written.
    pub(crate) fn new(rt: &'a R, alloc: Global, folder: &str) -> io::Result<Temporary<'a, R>> {
        for number in 0..MOST_IN_FOLDER {
            let path = path_of(alloc, folder, number)?;
            let _ = remove_if_left(rt, path.as_str());
            if let Some(file) = create(rt, path.as_str())? {
                return Ok(Temporary { rt, path, file });
            }
        }
        Err(io::Error::from(ErrorKind::AlreadyExists))
    }

    /// Writes these bytes, which are on the disk when it returns.
    pub(crate) fn write(&mut self, bytes: &[u8]) -> io::Result<()> {
        self.file.write_all(bytes)?;
        self.file.sync_data()
    }

    /// Puts the file in the place of the one at this path.
    pub(crate) fn put(self, path: &str) -> io::Result<()> {
        fs::rename(self.rt, self.path.as_str(), path)?;
        let Temporary {
            rt: _,
            path: _,
            file: _,
        } = self;
        Ok(())
    }
}

/// Removes the temporary files of a folder that killed runs left.
pub(crate) fn remove_left<R: Files<File = File>>(
    rt: &R,
    alloc: Global,
    folder: &str,
) -> Result<(), AllocError> {
    for number in 0..MOST_IN_FOLDER {
        let path = path_of(alloc, folder, number)?;
        let _ = remove_if_left(rt, path.as_str());
    }
    Ok(())
}

// The path of the temporary file of this number.
fn path_of(alloc: Global, folder: &str, number: u32) -> Result<String, AllocError> {
    format!(in alloc; "{folder}/{number}.temporary")
}

// A new file at this path whose lock is ours, or none where the path is taken. It never opens what
// stands there. Where the lock can't be taken the new file is removed again, if it is still at the path.
fn create<R: Files<File = File>>(rt: &R, path: &str) -> io::Result<Option<File>> {
    let file = match File::options().write(true).create_new(true).open(rt, path) {
        Ok(file) => file,
        Err(error) if error.kind() == ErrorKind::AlreadyExists => return Ok(None),
        Err(error) => return Err(error),
    };
    match is_ours(rt, path, &file) {
        Ok(ours) => Ok(ours.then_some(file)),
        Err(error) => {
            if let Ok(true) = is_at(rt, path, &file) {
                let _ = fs::remove_file(rt, path);
            }
            Err(error)
        }
    }
}

// Removes the plain file at this path, if its lock is free. The lock is held until it is gone.
fn remove_if_left<R: Files<File = File>>(rt: &R, path: &str) -> io::Result<()> {
    if !fs::symlink_metadata(rt, path)?.is_file() {
        return Ok(());
    }
    let file = File::open(rt, path)?;
    if is_ours(rt, path, &file)? {
        fs::remove_file(rt, path)?;
    }
    Ok(())
}

// Takes the lock of an open file, and says whether the lock was free and the file is still the one at
// this path. No other run removes or renames it then.
fn is_ours<R: Files<File = File>>(rt: &R, path: &str, file: &File) -> io::Result<bool> {
    match file.try_lock() {
        Ok(()) => is_at(rt, path, file),
        Err(TryLockError::WouldBlock) => Ok(false),
        Err(TryLockError::Error(error)) => Err(error),
    }
}

// Whether an open file is the one at this path.
fn is_at<R: Files<File = File>>(rt: &R, path: &str, file: &File) -> io::Result<bool> {
    let ours = file.metadata()?;
    match fs::symlink_metadata(rt, path) {
        Ok(there) => Ok(there.dev() == ours.dev() && there.ino() == ours.ino()),
        Err(error) if error.kind() == ErrorKind::NotFound => Ok(false),
        Err(error) => Err(error),
    }
}
