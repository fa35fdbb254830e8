//! A sink that writes to standard output.
ghost use Rattle.std.specs.Prelude.{◌≡◌, None};

use crate::again::write_some;
use crate::faults::Faults;
use dev_traits::{Failed, Sink};
use std::io;
use std::io::{ErrorKind, Stdout};

/// What standard output is called where its failure is told.
const NAME: &str = "standard output";

/// Standard output, which is written to at once. The count begins at 0.
///
/// It tells no content. The first failure is told on standard error.
#[derive(Drop)]
pub struct LineSink<'a> {
    out: Stdout,
    count: u64,
    faults: Faults<'a>,
}

impl<'a> LineSink<'a> {
    pub fn new(rt: &'a HostRuntime) -> LineSink<'a> {
        LineSink {
            out: rt.stdout(),
            count: 0,
            faults: Faults::new(rt),
        }
    }
}

impl Sink for LineSink<'_> {
    ghost view = { λ s. record {
      faults = s.faults.count;
      count = s.count;
      bytes = None;
    } };

    ghost counted = { λ s bytes told. Prim.cc };

    fn taken(&self) -> u64 {
        self.count
    }

    fn put(&mut self, bytes: &[u8]) -> Result<usize, Failed> {
        let room = u64::MAX - self.count;
        let piece = if bytes.len() as u64 <= room {
            bytes
        } else {
            &bytes[..room as usize]
        };
        match write_some(&mut self.out, piece) {
            Ok(n) if n > 0 => {
                self.count += n as u64;
                Ok(n)
            }
            Ok(_) => {
                self.faults.add(NAME, io::Error::from(ErrorKind::WriteZero));
                Err(Failed)
            }
            Err(error) => {
                self.faults.add(NAME, error);
                Err(Failed)
            }
        }
    }
}
