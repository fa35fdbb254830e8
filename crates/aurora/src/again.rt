//! Reads and writes that are made again where a signal comes before they did anything.
ghost use Rattle.std.specs.Prelude.{◌≤◌, length, IfOk};

use std::io;
use std::io::{ErrorKind, Read, Write};

fn is_interrupted(error: io::Error) -> bool {
    error.kind() == ErrorKind::Interrupted
}

/// Reads once: how many bytes were read, 0 at the end.
pub fn read_some<R: Read>(from: &mut R, into: &mut [u8]) -> io::Result<usize>
    ensures { IfOk result (λ n. n ≤ length into.new) }
{
    for _ in 0..u64::MAX {
        match from.read(into) {
            Ok(n) => return Ok(n),
            Err(error) => {
                if !is_interrupted(error) {
                    return Err(error);
                }
            }
        }
    }
    Err(io::Error::from(ErrorKind::Interrupted))
}

/// Writes once: how many of the bytes were written.
pub fn write_some<W: Write>(to: &mut W, bytes: &[u8]) -> io::Result<usize>
    ensures { IfOk result (λ n. n ≤ length bytes.now) }
{
    for _ in 0..u64::MAX {
        match to.write(bytes) {
            Ok(n) => return Ok(n),
            Err(error) => {
                if !is_interrupted(error) {
                    return Err(error);
                }
            }
        }
    }
    Err(io::Error::from(ErrorKind::Interrupted))
}
