//! How a call ends.
ghost use Rattle.std.specs.Prelude.{◌≡◌};
ghost use Rattle.command_words.specs.End.{status_of as number_of};

/// Why a call ended. `epoch` is the last acknowledged one at Done, Stuck and Spent, and that of the newest open slot at
/// Occupied, Damaged and Worn; `turns` are the turns of this run, `output` is the last position of the output.
#[derive(Clone, Copy, Debug, Drop, PartialEq, Eq)]
pub enum End {
    /// No process is running, and all is on the disk and released.
    Done { epoch: u64, turns: u64, output: u64 },
    /// Each running process waits, and all is on the disk and released.
    Stuck { epoch: u64, turns: u64, output: u64 },
    /// All turns are made, and the group is neither done nor stuck.
    Spent { epoch: u64, turns: u64, output: u64 },
    /// The words aren't this call's.
    Usage,
    /// The words ask for what isn't built yet.
    NotBuilt,
    /// The disk has no open slot to restore from.
    NoCheckpoint,
    /// A run wants a disk without an open slot.
    Occupied { epoch: u64 },
    /// A slot is open, and the disk holds no group.
    Damaged { epoch: u64 },
    DiskFault,
    SinkFault,
    FilesFault,
    /// The last barrier's checkpoint needs more blocks than are free. What was acknowledged before stands.
    DiskFull { need: u64, free: u64 },
    NoMemory,
    /// A disk has 16 to 1,048,576 blocks of 4,096 bytes.
    DiskShape { blocks: u64 },
    /// The output holds `count` bytes: fewer than `from`, or more than `last`. Both are 0 where a manifest begins.
    SinkStrange { count: u64, from: u64, last: u64 },
    /// The held epoch, the last position of the output, or a number that comes next is above 2^62.
    Worn { epoch: u64 },
}

/// The exit status of an end.
pub fn status_of(end: &End) -> u8
    ensures { result ≡ number_of end.now }
{
    match end {
        End::Done { .. } => 0,
        End::Stuck { .. } => 1,
        End::Spent { .. } => 2,
        End::Usage => 3,
        End::NoCheckpoint => 6,
        End::Occupied { .. } => 7,
        End::Damaged { .. } => 8,
        End::DiskFault => 9,
        End::SinkFault => 10,
        End::FilesFault => 11,
        End::DiskFull { .. } => 12,
        End::NoMemory => 13,
        End::DiskShape { .. } => 14,
        End::SinkStrange { .. } => 15,
        End::Worn { .. } => 17,
        End::NotBuilt => 18,
    }
}
