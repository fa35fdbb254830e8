//! The descriptors of the standard streams.

use std::fs::File;
use std::os::fd::AsRawFd;
use std::os::unix::fs::MetadataExt;
use std::{fs, io};

/// The file that stands where a standard stream is closed. It is opened for reading alone, so that what is written there
/// fails as on the closed stream.
pub const NOTHING: &str = "/dev/null";

/// The highest descriptor of a standard stream.
const LAST_STREAM: i32 = 2;

fn take_lowest(rt: &HostRuntime) -> io::Result<Option<File>> {
    let file = File::open(rt, NOTHING)?;
    if file.as_raw_fd() <= LAST_STREAM {
        Ok(Some(file))
    } else {
        Ok(None)
    }
}

/// Takes those of the descriptors 0, 1 and 2 that are closed. A file that is opened while they are held gets none of
/// them.
pub fn take_closed(rt: &HostRuntime) -> io::Result<[Option<File>; 3]> {
    Ok([take_lowest(rt)?, take_lowest(rt)?, take_lowest(rt)?])
}

/// Whether the name is that of the regular file into which standard output goes, so that a line would change its bytes.
pub fn is_standard_output(rt: &HostRuntime, name: &str) -> bool {
    match (fs::metadata(rt, name), fs::metadata(rt, "/dev/stdout")) {
        (Ok(file), Ok(output)) => {
            file.is_file() && file.dev() == output.dev() && file.ino() == output.ino()
        }
        (Ok(_) | Err(_), _) => false,
    }
}
