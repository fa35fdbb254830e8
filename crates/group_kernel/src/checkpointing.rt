//! The barrier, and the checkpoint that it freezes.
ghost use Rattle.std.specs.Prelude.{◌≡◌, true, false, IfNone, IfSome, OnErr, OnOk};
ghost use Rattle.group_kernel.specs.Calls.{HasFetched, IsBarrierDue, next_epoch};
ghost use Rattle.group_kernel.specs.View.{StaysAsItWas, logged, progress_of};
ghost use Rattle.run_defs.specs.Legal.{AckAllowed};
ghost use Rattle.run_defs.specs.declared.run.Mark.TheVariants as Mark;

use crate::ckpt::{Ckpt, Prepared};
use crate::frames::marked_frame;
use crate::kernel::Kernel;
use lists::{NoMemory, Seq};
use std::mem;
use syscalls_io::move_mark;

impl Kernel {
    /// Takes all memory that a barrier, its fetch and its acknowledgement need: a copy of the frame, a place for each
    /// object's layers, an empty layer for each face, and room in the log. No page is copied but where layers are put
    /// together. A take or a give after it takes this away again, but for the room of a fetch and an acknowledgement that
    /// are still to come.
    pub fn prepare(&mut self) -> Result<(), NoMemory>
        ensures ok { OnOk result (self.new.prepared ≡ true) }
        ensures err { OnErr result (self.new ≡ record self.old { prepared = false }) }
        ensures stays { StaysAsItWas self.old self.new }
    {
        self.prepared = None;
        self.log.reserve(3)?;
        let frame = marked_frame(self.alloc, &self.tables)?;
        let frozen = self.tables.places(self.alloc)?;
        self.tables.prepare_faces()?;
        self.prepared = Some(Prepared { frame, frozen });
        Ok(())
    }

    /// Makes the barrier, and gives its epoch: all objects are frozen, and the output up to here is marked. No memory is
    /// taken.
    pub fn barrier(&mut self) -> u64
        requires running { self.old.stopped ≡ false }
        requires due { IsBarrierDue self.old }
        requires prepared { self.old.prepared ≡ true }
        ensures epoch { result ≡ next_epoch self.old }
        ensures log { self.new ≡ logged self.old (Mark.Barrier result) false }
    {
        match mem::replace(&mut self.prepared, None) {
            Some(Prepared { frame, mut frozen }) => {
                self.tables.freeze_all(&mut frozen);
                move_mark(self.alloc, &mut self.tables.io.out);
                self.log.barrier();
                self.frozen = Some(Ckpt {
                    epoch: self.log.last,
                    frame,
                    frozen: Seq::of(frozen),
                });
                self.log.last
            }
            None => unreachable!(),
        }
    }

    /// Hands out the checkpoint of the last barrier; none where it was fetched, or no barrier was made.
    pub fn fetch(&mut self) -> Option<Ckpt>
        requires running { self.old.stopped ≡ false }
        ensures some { IfSome result (HasFetched self.old self.new) }
        ensures none { IfNone result ((self.new ≡ self.old)
            × ((progress_of self.old).fetched ≡ (progress_of self.old).state.standing.last)) }
    {
        match mem::replace(&mut self.frozen, None) {
            Some(ckpt) => {
                self.log.fetch();
                Some(ckpt)
            }
            None => None,
        }
    }

    /// Logs that the checkpoint of this epoch, which was fetched, is on the disk.
    pub fn ack(&mut self, epoch: u64)
        requires running { self.old.stopped ≡ false }
        requires fetched { AckAllowed (progress_of self.old) epoch }
        ensures log { self.new ≡ logged self.old (Mark.Ack epoch) self.old.prepared }
    {
        self.log.ack(epoch);
    }
}
