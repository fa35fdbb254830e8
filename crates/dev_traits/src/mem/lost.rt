use std::snapshot::Snapshot;

/// The writes that failed above the room of a disk's record, for contracts alone: they take no memory.
#[derive(Drop)]
pub enum Lost {
    Nothing,
    Write {
        place: u64,
        size: u64,
        before: Snapshot<Lost>,
    },
}
