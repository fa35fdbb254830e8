//! The group that the engine keeps.
ghost use Rattle.std.specs.Prelude.{◌≡◌};
ghost use Rattle.group_defs.specs.Output.{room};
ghost use Rattle.flat_kernel.specs.Engine.{group_in, IsRunnable};

use crate::process_memory::ProcessMemory;
use group_defs::{Next, ObjectRec, Open, Out};
use lists::Seq;
use rv64_core::{DecodeCache, Regs};

/// What no step changes while the process runs. The process has no parent.
#[derive(Debug, Drop)]
pub struct Fixed {
    pub pid: u32,
    pub brk_base: u64,
    pub brk: u64,
    pub fds: Seq<(u32, u64)>,
    pub objects: Seq<ObjectRec>,
    pub opens: Seq<Open>,
    pub next: Next,
}

/// A group of at most one process. Once the process has ended, only the next numbers and the output count. The words that
/// were decoded are no part of the group, and change nothing of what it does.
#[derive(Drop)]
pub struct EngineGroup {
    pub running: bool,
    pub regs: Regs,
    pub memory: ProcessMemory,
    pub fixed: Fixed,
    pub out: Out,
    pub decoded: DecodeCache,
}

/// The most bytes of output behind the mark.
const MOST_OUTPUT: u64 = 1_048_576;

impl EngineGroup {
    /// How many bytes the process may write before the next barrier.
    pub fn room(&self) -> u64
        requires { IsRunnable (group_in self.now) }
        ensures { result ≡ room self.now.out }
    {
        let last = self.out.from + self.out.bytes.len() as u64;
        MOST_OUTPUT - (last - self.out.mark)
    }
}
