//! A sink that appends to a file.
ghost use Rattle.std.specs.Prelude.{◌≡◌, ◌<◌, ◌≤◌, None, length, IfOk};

use crate::again::write_some;
use crate::faults::Faults;
use crate::real_files::{lock, sync_folder_of, sync_where_possible};
use dev_traits::{Failed, Sink};
use lists::NoMemory;
use std::fs::{File, OpenOptions};
use std::io;
use std::io::ErrorKind;

/// A file that is appended to, made where it is absent. A regular file is locked while it is open. Bytes are taken once
/// they are synced, where the file is of a kind that can be. Where it can't be opened or locked the count is 0, and each
/// put fails; after a fault each put fails too, since bytes that couldn't be synced may stand in the file.
///
/// It tells no content. The first failure is told on standard error.
#[derive(Drop)]
pub struct FileSink<'a> {
    name: &'a str,
    file: Option<File>,
    count: u64,
    faults: Faults<'a>,
}

fn open_to_append(rt: &HostRuntime, name: &str) -> io::Result<(File, u64)> {
    let file = OpenOptions::new().append(true).create(true).open(rt, name)?;
    if file.metadata()?.is_file() {
        lock(&file)?;
        sync_where_possible(&file)?;
        sync_folder_of(rt, name)?;
    }
    let count = file.metadata()?.len();
    Ok((file, count))
}

// Writes as many of the bytes as the file takes at once, at least one, and syncs them.
fn append(file: &mut Option<File>, bytes: &[u8]) -> io::Result<usize>
    ensures { IfOk result (λ n. (0 < n) × (n ≤ length bytes.now)) }
{
    match file {
        Some(file) => {
            let n = write_some(file, bytes)?;
            if n == 0 {
                return Err(io::Error::from(ErrorKind::WriteZero));
            }
            sync_where_possible(file)?;
            Ok(n)
        }
        None => Err(io::Error::from(ErrorKind::NotFound)),
    }
}

impl<'a> FileSink<'a> {
    /// Opens the file of this name, taken relative to the working directory.
    pub fn open(rt: &'a HostRuntime, name: &'a str) -> Result<FileSink<'a>, NoMemory> {
        let mut faults = Faults::new(rt);
        let (file, count) = match open_to_append(rt, name) {
            Ok((file, count)) => (Some(file), count),
            Err(error) => {
                if error.kind() == ErrorKind::OutOfMemory {
                    return Err(NoMemory);
                }
                faults.tell(name, error);
                (None, 0)
            }
        };
        Ok(FileSink {
            name,
            file,
            count,
            faults,
        })
    }
}

impl Sink for FileSink<'_> {
    ghost view = { λ s. record {
      faults = s.faults.count;
      count = s.count;
      bytes = None;
    } };

    ghost counted = { λ s bytes told. Prim.cc };

    fn taken(&self) -> u64 {
        self.count
    }

    fn put(&mut self, bytes: &[u8]) -> Result<usize, Failed> {
        let room = u64::MAX - self.count;
        let piece = if bytes.len() as u64 <= room {
            bytes
        } else {
            &bytes[..room as usize]
        };
        match append(&mut self.file, piece) {
            Ok(n) => {
                self.count += n as u64;
                Ok(n)
            }
            Err(error) => {
                self.file = None;
                self.faults.add(self.name, error);
                Err(Failed)
            }
        }
    }
}
