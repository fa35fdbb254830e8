//! The kernel, and the calls that log nothing.
ghost use Rattle.std.specs.Prelude.{◌≡◌, ◌↔◌, IfOk, IfNone, IfSome, IsTrue, false, true};
ghost use Rattle.ckpt_records.specs.Parts.{group_of};
ghost use Rattle.group_kernel.specs.Calls.{IsBarrierDue, IsEnd, MayBegin};
ghost use Rattle.group_kernel.specs.View.{begun, progress_of};
ghost use Rattle.run_defs.specs.Ends.{HasEnded};
ghost use Rattle.group_kernel.specs.Resting.{HasNothingNew};
ghost use Rattle.run_defs.specs.Legal.{IsAtRest, Legal};
ghost use Rattle.run_defs.specs.Limits.{LimitsFit};
ghost use Rattle.group_defs.specs.Valid.{GroupIsValid};
ghost use Rattle.ckpt_records.specs.Origin.{IsUnworn};

use crate::ckpt::{Ckpt, Prepared};
use crate::group_tables::GroupTables;
use crate::log::Log;
use crate::starting::tables_of;
use ckpt_records::Parts;
use lists::NoMemory;
use run_defs::{Limits, Mark, RunEnd};
use std::alloc::Global;
use std::marker::Model;
use std::snapshot::Snapshot;
use syscalls_io::last_of;

/// A group while it runs, with its log. Contracts see its start and its log: the group is the one after the log, but for the
/// private parts of the processes that are on lease.
#[derive(Drop)]
pub struct Kernel {
    pub(crate) alloc: Global,
    // The origin's parts, for contracts alone.
    pub(crate) start: Snapshot<Parts>,
    pub(crate) epoch: u64,
    pub(crate) limits: Limits,
    pub(crate) tables: GroupTables,
    pub(crate) log: Log,
    pub(crate) stopped: bool,
    pub(crate) prepared: Option<Prepared>,
    // The checkpoint of the last barrier, until it is fetched.
    pub(crate) frozen: Option<Ckpt>,
}

impl Model for Kernel {
    ghost use Rattle.std.specs.Prelude.{is_some};
    ghost use Rattle.ckpt_records.specs.Parts.{group_of};
    ghost use Rattle.group_kernel.specs.Held.{seen};
    ghost use Rattle.group_kernel.specs.Standing.{Stands};
    ghost use Rattle.group_kernel.specs.View.{KernelView};

    ghost Value = { KernelView };

    ghost view = { λ k. record {
      start = group_of k.start.value;
      origin_epoch = k.epoch;
      limits = k.limits;
      marks = k.log.marks.items;
      stopped = k.stopped;
      prepared = is_some k.prepared;
    } };

    ghost invariant = { λ k. Stands (record {
      start = group_of k.start.value;
      origin_epoch = k.epoch;
      limits = k.limits;
      marks = k.log.marks.items;
      stopped = k.stopped;
      prepared = is_some k.prepared;
    }) (seen k.tables) k.log k.prepared k.frozen };
}

impl Kernel {
    /// The kernel of the group that the parts stand for, under the epoch of the checkpoint that holds it, or 0 on a new
    /// disk.
    pub fn from_parts(
        alloc: Global,
        parts: Parts,
        epoch: u64,
        limits: Limits,
    ) -> Result<Kernel, NoMemory>
        requires parts { MayBegin parts epoch }
        requires limits { LimitsFit limits }
        ensures { IfOk result (λ kernel. kernel ≡ begun (group_of parts) epoch limits) }
    {
        let start = Snapshot::of(&parts);
        let tables = tables_of(alloc, parts, epoch)?;
        Ok(Kernel {
            alloc,
            start,
            epoch,
            limits,
            tables,
            log: Log::new(alloc, epoch),
            stopped: false,
            prepared: None,
            frozen: None,
        })
    }

    /// Whether a barrier may be made now.
    pub fn barrier_due(&self) -> bool
        ensures { IsTrue result ↔ IsBarrierDue self.now }
    {
        if !self.log.is_at_rest() || self.log.turns_since == 0 {
            return false;
        }
        if self.log.turns_since == self.limits.every || self.log.turns == self.limits.turns {
            return true;
        }
        self.tables.next_ready(0).is_none()
    }

    // Whether no process is ready, and nothing was written to the outside since the last barrier.
    fn waits_for_nothing(&self) -> bool
        requires rest { IsAtRest (progress_of self.now) }
        ensures { IsTrue result ↔ HasNothingNew (progress_of self.now).state }
    {
        if self.tables.next_ready(0).is_some() {
            return false;
        }
        let out = &self.tables.io.out;
        out.mark == last_of(out)
    }

    /// How the run has ended, where it is settled: no lease is out, each barrier is acknowledged, and no turn follows the
    /// last one.
    pub fn ended(&self) -> Option<RunEnd>
        ensures some { IfSome result (IsEnd self.now.limits (progress_of self.now)) }
        ensures none { IfNone result (HasEnded self.now.limits (progress_of self.now) → ⊥) }
    {
        if !self.log.is_at_rest() || self.log.turns_since > 0 {
            return None;
        }
        if !self.tables.any_running() {
            return Some(RunEnd::Done);
        }
        if self.waits_for_nothing() {
            return Some(RunEnd::Stuck);
        }
        if self.log.turns == self.limits.turns {
            return Some(RunEnd::Spent);
        }
        None
    }

    /// Stops the run: no lease is taken or given back any more, no barrier is made, and no checkpoint is fetched or
    /// acknowledged.
    pub fn stop(&mut self)
        requires { self.old.stopped ≡ false }
        ensures { self.new ≡ record self.old { stopped = true } }
    {
        self.stopped = true;
    }

    /// Whether the run was stopped.
    pub fn stopped(&self) -> bool
        ensures { result ≡ self.now.stopped }
    {
        self.stopped
    }

    /// The log, which is legal.
    pub fn marks(&self) -> &[Mark]
        ensures marks { result.now ≡ self.now.marks }
        ensures legal { Legal self.now.start self.now.origin_epoch self.now.limits self.now.marks }
        ensures valid { GroupIsValid self.now.start }
        ensures unworn { IsUnworn self.now.origin_epoch self.now.start.frame }
        ensures limits { LimitsFit self.now.limits }
    {
        self.log.marks.as_slice()
    }

    /// The log itself; no memory is taken.
    pub fn into_marks(self) -> Vec<Mark>
        ensures marks { result.items ≡ self.marks }
        ensures legal { Legal self.start self.origin_epoch self.limits self.marks }
    {
        let Kernel { log, .. } = self;
        let Log { marks, .. } = log;
        marks
    }
}
