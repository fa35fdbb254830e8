//! A disk in a file.
ghost use Rattle.std.specs.Prelude.{◌≡◌, ◌<◌, ◌*◌, ◌^◌, IfOk, IsErr};
ghost use Rattle.dev_traits.specs.Counts.{HasCause};

use crate::count::raised;
use crate::faults::Faults;
use crate::real_files::{lock, sync_folder_of};
use dev_traits::{Disk, Failed};
use lists::NoMemory;
use std::fs::{File, OpenOptions};
use std::io;
use std::io::{ErrorKind, Seek, SeekFrom};
use std::os::unix::fs::FileExt;

/// The blocks of a file that can't be opened.
const UNKNOWN_BLOCKS: u64 = 16;

/// A file or block device of whole blocks of 4,096 bytes; bytes past the last whole block aren't used. It is locked while
/// it is open. Where it can't be opened or locked it has 16 blocks, and each call fails.
///
/// It tells no content: any bytes may be read, and a stop may leave any. The first failure is told on standard error.
#[derive(Drop)]
pub struct FileDisk<'a> {
    name: &'a str,
    file: Option<File>,
    blocks: u64,
    faults: Faults<'a>,
    writes: u64,
    /// How many calls there were.
    moment: u64,
    ghost sized: { 4096 * blocks < 2 ^ 64 },
}

fn open_to_write(rt: &HostRuntime, name: &str) -> io::Result<(File, u64)>
    ensures { IfOk result (λ r. 4096 * r.1 < 2 ^ 64) }
{
    let mut file = OpenOptions::new().read(true).write(true).open(rt, name)?;
    lock(&file)?;
    let bytes = file.seek(SeekFrom::End(0))?;
    if file.metadata()?.is_file() {
        sync_folder_of(rt, name)?;
    }
    Ok((file, bytes / 4096))
}

fn read_whole(file: &Option<File>, place: u64, into: &mut [u8]) -> io::Result<()> {
    match file {
        Some(file) => file.read_exact_at(into, place),
        None => Err(io::Error::from(ErrorKind::NotFound)),
    }
}

fn write_whole(file: &Option<File>, place: u64, bytes: &[u8]) -> io::Result<()> {
    match file {
        Some(file) => file.write_all_at(bytes, place),
        None => Err(io::Error::from(ErrorKind::NotFound)),
    }
}

// The file's length never changes, so its data alone is synced.
fn sync_whole(file: &Option<File>) -> io::Result<()> {
    match file {
        Some(file) => file.sync_data(),
        None => Err(io::Error::from(ErrorKind::NotFound)),
    }
}

impl<'a> FileDisk<'a> {
    /// Opens the file of this name, taken relative to the working directory.
    pub fn open(rt: &'a HostRuntime, name: &'a str) -> Result<FileDisk<'a>, NoMemory> {
        let mut faults = Faults::new(rt);
        let (file, blocks) = match open_to_write(rt, name) {
            Ok((file, blocks)) => (Some(file), blocks),
            Err(error) => {
                if error.kind() == ErrorKind::OutOfMemory {
                    return Err(NoMemory);
                }
                faults.tell(name, error);
                (None, UNKNOWN_BLOCKS)
            }
        };
        Ok(FileDisk {
            name,
            file,
            blocks,
            faults,
            writes: 0,
            moment: 0,
        })
    }

    // What a call answers; a failure is counted.
    fn answered(&mut self, done: io::Result<()>) -> Result<(), Failed>
        ensures faults { HasCause self.old.faults.count self.new.faults.count (IsErr result) }
        ensures blocks { self.new.blocks ≡ self.old.blocks }
        ensures writes { self.new.writes ≡ self.old.writes }
        ensures moment { self.new.moment ≡ self.old.moment }
    {
        match done {
            Ok(()) => Ok(()),
            Err(error) => {
                self.faults.add(self.name, error);
                Err(Failed)
            }
        }
    }
}

impl Disk for FileDisk<'_> {
    ghost use Rattle.dev_traits.specs.Untold.{untold_view, untold_reading};

    ghost view = { λ d. untold_view d.blocks d.moment d.faults.count d.writes };

    ghost reading_left = { λ d. untold_reading d.blocks d.moment d.faults.count d.writes };

    ghost fewer_later = { λ d t u image le left. left };

    ghost image_size = { λ d t image left. left.0 };

    ghost image_bytes = { λ d t image left. left.1 };

    fn blocks(&self) -> u64 {
        self.blocks
    }

    fn moment(&self) -> u64 {
        self.moment
    }

    fn read_at(&mut self, place: u64, into: &mut [u8]) -> Result<(), Failed> {
        self.moment = raised(self.moment);
        let done = read_whole(&self.file, place, into);
        self.answered(done)
    }

    fn write_at(&mut self, place: u64, bytes: &[u8]) -> Result<(), Failed> {
        self.moment = raised(self.moment);
        self.writes = raised(self.writes);
        let done = write_whole(&self.file, place, bytes);
        self.answered(done)
    }

    fn sync(&mut self) -> Result<(), Failed> {
        self.moment = raised(self.moment);
        let done = sync_whole(&self.file);
        self.answered(done)
    }
}
