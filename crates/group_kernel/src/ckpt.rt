use group_defs::Frame;
use lists::Seq;
use shadow_chains::Frozen;

/// A group as it stands at a barrier, over the group of the barrier before.
#[derive(Debug, Drop)]
pub struct Ckpt {
    /// 1 at a disk's first barrier, and one more at each further one.
    pub epoch: u64,
    pub frame: Frame,
    /// The frame's objects, in rising order of their numbers.
    pub frozen: Seq<Frozen>,
}

/// What a barrier needs: the frame as it is after the barrier, and a place for each object's layers.
#[derive(Debug, Drop)]
pub struct Prepared {
    pub frame: Frame,
    pub frozen: Vec<Frozen>,
}
