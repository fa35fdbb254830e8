//! What a run logs: its trace, and its acknowledgements with their moments.
ghost use Rattle.std.specs.Prelude.{◌≡◌, ◌≤◌, ◌<◌, ◌+◌, [], ◌∷◌, ◌++◌, OnOk, OnErr};
ghost use Rattle.std.specs.Vec.{vec_capacity, vec_len};

use lists::NoMemory;
use run_defs::{AckMark, Mark};
use std::alloc::Global;

/// What a run has logged so far.
#[derive(Drop)]
pub struct Log {
    pub trace: Vec<Mark>,
    pub acks: Vec<AckMark>,
}

impl Log {
    /// Nothing yet; no memory is taken.
    pub fn new(alloc: Global) -> Log
        ensures trace { result.trace.items ≡ [] }
        ensures acks { result.acks.items ≡ [] }
    {
        Log {
            trace: Vec::new(alloc),
            acks: Vec::new(alloc),
        }
    }

    /// Takes the memory for a barrier, its fetch and its acknowledgement.
    pub fn reserve(&mut self) -> Result<(), NoMemory>
        ensures trace { self.new.trace.items ≡ self.old.trace.items }
        ensures acks { self.new.acks.items ≡ self.old.acks.items }
        ensures room { OnOk result (vec_len self.new.trace + 3 ≤ vec_capacity self.new.trace) }
        ensures ack_room { OnOk result (vec_len self.new.acks < vec_capacity self.new.acks) }
    {
        self.trace.reserve(3)?;
        self.acks.reserve(1)?;
        Ok(())
    }

    /// Logs that the barrier of an epoch was made and fetched; room was taken before.
    pub fn fetch(&mut self, epoch: u64)
        requires room { vec_len self.old.trace + 3 ≤ vec_capacity self.old.trace }
        ensures trace { self.new.trace.items
            ≡ (self.old.trace.items ++ Mark.Barrier epoch ∷ []) ++ Mark.Fetch epoch ∷ [] }
        ensures acks { self.new.acks ≡ self.old.acks }
        ensures left { vec_len self.new.trace < vec_capacity self.new.trace }
    {
        let _ = self.trace.push(Mark::Barrier { epoch });
        let _ = self.trace.push(Mark::Fetch { epoch });
    }

    /// Logs that an epoch was acknowledged at this moment of the disk; room was taken before.
    pub fn acknowledge(&mut self, epoch: u64, at: u64)
        requires room { vec_len self.old.trace < vec_capacity self.old.trace }
        requires ack_room { vec_len self.old.acks < vec_capacity self.old.acks }
        ensures trace { self.new.trace.items ≡ self.old.trace.items ++ Mark.Ack epoch ∷ [] }
        ensures acks { self.new.acks.items ≡ self.old.acks.items
            ++ record { epoch = epoch; at = at } ∷ [] }
    {
        let _ = self.trace.push(Mark::Ack { epoch });
        let _ = self.acks.push(AckMark { epoch, at });
    }
}
