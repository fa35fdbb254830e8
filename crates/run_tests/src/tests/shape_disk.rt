//! A disk of any size that tells its number of blocks alone.
ghost use Rattle.std.specs.Prelude.{◌≡◌};
ghost use Rattle.dev_traits.specs.Counts.{one_more};

use dev_traits::{Disk, Failed};

/// A disk without memory: what is read of it is what the caller's buffer has. No call of it fails.
#[derive(Drop)]
pub struct Shape {
    blocks: u64,
    writes: u64,
}

impl Shape {
    pub fn of(blocks: u64) -> Shape {
        Shape { blocks, writes: 0 }
    }
}

/// One more, or the last value again.
fn raised(n: u64) -> u64
    ensures { result ≡ one_more n }
{
    if n < u64::MAX { n + 1 } else { n }
}

impl Disk for Shape {
    ghost use Rattle.dev_traits.specs.Untold.{untold_view, untold_reading};

    ghost view = { λ d. untold_view d.blocks 0 0 d.writes };

    ghost reading_left = { λ d. untold_reading d.blocks 0 0 d.writes };

    ghost fewer_later = { λ d t u image le left. left };

    ghost image_size = { λ d t image left. left.0 };

    ghost image_bytes = { λ d t image left. left.1 };

    fn blocks(&self) -> u64 {
        self.blocks
    }

    fn moment(&self) -> u64 {
        0
    }

    fn read_at(&mut self, _: u64, _: &mut [u8]) -> Result<(), Failed> {
        Ok(())
    }

    fn write_at(&mut self, _: u64, _: &[u8]) -> Result<(), Failed> {
        self.writes = raised(self.writes);
        Ok(())
    }

    fn sync(&mut self) -> Result<(), Failed> {
        Ok(())
    }
}
