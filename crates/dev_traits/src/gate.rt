/// A place of a run with threads at which a test may hold a thread.
#[derive(Clone, Copy, Debug, Drop, PartialEq, Eq)]
pub enum Place {
    /// After the hold whose Take gave the lease, before its local steps.
    Leased { worker: u32, pid: u32 },
    /// After the hold that logged its Turn.
    Gave { worker: u32, pid: u32 },
    /// After a flusher drew this page of the plan, before the hold in which it writes it.
    PageWrite { index: u64 },
    /// After the hold that logged the Ack.
    Acked { epoch: u64 },
}

/// Called under no lock.
pub trait Gate {
    /// Returns when the thread may go on.
    fn at(&self, place: Place);
}
