//! The files of a directory.
ghost use Rattle.std.specs.Prelude.{◌≡◌, None};

use crate::again::read_some;
use crate::faults::Faults;
use dev_traits::{Files, FilesFailed};
use std::alloc::Global;
use std::fs::File;
use std::io;
use std::io::ErrorKind;

/// The most bytes of a file that are read.
const MOST_BYTES: u64 = 1 << 32;

/// Files by name, taken relative to the working directory. A file that is longer than 2^32 bytes is a fault.
///
/// They tell no content. The first file that isn't there or can't be read is told on standard error.
#[derive(Drop)]
pub struct DirFiles<'a> {
    rt: &'a HostRuntime,
    faults: Faults<'a>,
}

impl<'a> DirFiles<'a> {
    pub fn new(rt: &'a HostRuntime) -> DirFiles<'a> {
        DirFiles {
            rt,
            faults: Faults::new(rt),
        }
    }
}

fn read_all(rt: &HostRuntime, alloc: Global, name: &str) -> io::Result<Vec<u8>> {
    let mut file = File::open(rt, name)?;
    let mut bytes = Vec::new(alloc);
    let mut piece = [0u8; 4096];
    for _ in 0..=MOST_BYTES {
        let n = read_some(&mut file, &mut piece)?;
        if n == 0 {
            return Ok(bytes);
        }
        if bytes.len() as u64 + n as u64 > MOST_BYTES {
            break;
        }
        bytes.extend_from_slice(&piece[..n])?;
    }
    Err(io::Error::from(ErrorKind::FileTooLarge))
}

impl Files for DirFiles<'_> {
    ghost view = { λ f. record {
      faults = f.faults.count;
      contents = None;
    } };

    fn read(&mut self, alloc: Global, name: &str) -> Result<Option<Vec<u8>>, FilesFailed> {
        match read_all(self.rt, alloc, name) {
            Ok(bytes) => Ok(Some(bytes)),
            Err(error) => match error.kind() {
                ErrorKind::NotFound | ErrorKind::NotADirectory => {
                    self.faults.tell(name, error);
                    Ok(None)
                }
                ErrorKind::OutOfMemory => Err(FilesFailed::NoMemory),
                _ => {
                    self.faults.add(name, error);
                    Err(FilesFailed::Failed)
                }
            },
        }
    }
}
