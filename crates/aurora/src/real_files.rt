//! What the disk file and the output file are asked at their opening, and the refusals that are passed over.

use std::fs::{File, TryLockError};
use std::io::ErrorKind;
use std::{fs, io};

/// Whether this error of a sync says that the file is of a kind that can't be synced, as a pipe or a terminal.
fn is_unsyncable(error: io::Error) -> bool {
    matches!(
        error.kind(),
        ErrorKind::InvalidInput | ErrorKind::Unsupported
    )
}

/// Syncs the file's bytes and length. Where the file is of a kind that can't be synced nothing is done.
pub fn sync_where_possible(file: &File) -> io::Result<()> {
    match file.sync_all() {
        Ok(()) => Ok(()),
        Err(error) => {
            if is_unsyncable(error) {
                Ok(())
            } else {
                Err(error)
            }
        }
    }
}

/// Locks the whole file for this opening of it, and doesn't wait. The lock ends with the file's last handle.
pub fn lock(file: &File) -> io::Result<()> {
    match file.try_lock() {
        Ok(()) => Ok(()),
        Err(TryLockError::WouldBlock) => Err(io::Error::new(
            ErrorKind::WouldBlock,
            "already in use",
        )),
        Err(TryLockError::Error(error)) => Err(error),
    }
}

/// Syncs the folder that has the file of this name, so that the file is found there after a power cut.
pub fn sync_folder_of(rt: &HostRuntime, name: &str) -> io::Result<()> {
    let path = fs::canonicalize(rt, name)?;
    match path.parent() {
        Some(folder) => sync_where_possible(&File::open(rt, folder)?),
        None => Ok(()),
    }
}
