//! What a run gives back.
use lists::Seq;
use run_defs::{AckMark, Mark};

/// How a run ended.
#[derive(Clone, Copy, Debug, PartialEq, Eq)]
pub enum RunAnswer {
    /// No process is running.
    Done,
    /// Each running process waits, and nothing was written to the outside since the last barrier.
    Stuck,
    /// All turns are made, and the group is neither done nor stuck.
    Spent,
    /// A call of the disk failed during a commit, which is not acknowledged. What was kept before it, or the new
    /// checkpoint, is on the disk.
    DiskFault,
    /// The output failed during a release; it has a beginning of what was to be released.
    SinkFault,
    /// The last barrier's checkpoint needs more blocks than the kept one leaves free: both in blocks of 4,096 bytes.
    /// Nothing of it was written.
    DiskFull { need: u64, free: u64 },
    /// The machine refused memory, between two commits.
    NoMemory,
}

/// A run: how it ended, what it logged, and its devices.
#[derive(Drop)]
pub struct Run<D, O> {
    pub answer: RunAnswer,
    /// Its marks, in their order.
    pub trace: Seq<Mark>,
    /// The acknowledged epochs, each with the disk's moment at its acknowledgement.
    pub acks: Seq<AckMark>,
    pub disk: D,
    pub out: O,
}
