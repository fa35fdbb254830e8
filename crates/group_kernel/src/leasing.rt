//! Leases, handed out and given back.
ghost use Rattle.std.specs.Prelude.{◌≡◌, ◌<◌, max, true, false, length, None, Some, IfErr, IfNone, IfOk, IfSome, IsTrue, OnErr, OnOk};
ghost use Rattle.group_defs.specs.Valid.{OutValid};
ghost use Rattle.group_kernel.specs.Calls.{HasTaken, IsNoneTaken};
ghost use Rattle.group_kernel.specs.Held.{FileFacesOfFiles, pid_at, seen, with_process};
ghost use Rattle.group_kernel.specs.Leases.{IsLeased, IsSameLease, IsSameProcess, MayGive};
ghost use Rattle.group_kernel.specs.Placed.{process_at};
ghost use Rattle.group_kernel.specs.SameTables.{IsSameTables};
ghost use Rattle.proc_lease.specs.Sight.{SeenFits, seen_by};
ghost use Rattle.group_kernel.specs.Steps.{MakesStep};
ghost use Rattle.group_kernel.specs.View.{logged, progress_of};
ghost use Rattle.run_defs.specs.Legal.{is_idle};
ghost use Rattle.run_defs.specs.declared.run.Mark.TheVariants as Mark;
ghost use Rattle.shadow_chains.specs.Entries.{number_of};
ghost use Rattle.tables.specs.Rising.{Rise};

use crate::calls::StepEnd;
use crate::group_tables::GroupTables;
use crate::kernel::Kernel;
use lists::NoMemory;
use proc_lease::{Lease, Process};
use std::alloc::Global;
use std::mem;

/// The machine refused memory. The lease and the group are as they were.
#[derive(Drop)]
pub struct GiveRefused {
    pub lease: Lease,
}

impl GroupTables {
    // Takes the private part of a process out of its row.
    fn take_process(&mut self, place: usize) -> Option<Process>
        requires within { place < length self.old.rows.items }
        requires rise { Rise (λ row. row.pid) self.old.rows.items }
        ensures tables { seen self.new
            ≡ with_process (seen self.old) (pid_at (seen self.old) place) None }
        ensures value { result ≡ process_at (seen self.old) place }
        ensures faces { IfSome result (λ process. Rise number_of process.faces.entries) }
    {
        match mem::replace(&mut self.rows[place].process, None) {
            Some(process) => {
                let _ = process.faces.len();
                Some(process)
            }
            None => None,
        }
    }

    // Puts a process into its row.
    fn put_process(&mut self, place: usize, process: Process)
        requires within { place < length self.old.rows.items }
        requires rise { Rise (λ row. row.pid) self.old.rows.items }
        ensures { seen self.new
            ≡ with_process (seen self.old) (pid_at (seen self.old) place) (Some process) }
    {
        self.rows[place].process = Some(process);
    }

    // Puts a process back that was given back, after the step that isn't local where it still has one to make. Where there
    // is no memory for that step it is handed back, and nothing has changed.
    fn put_back(
        &mut self,
        alloc: Global,
        place: usize,
        process: Process,
        whole: bool,
    ) -> Result<(), Process>
        requires within { place < length self.old.rows.items }
        requires rise { Rise (λ row. row.pid) self.old.rows.items }
        requires fits { SeenFits (seen_by process self.old.shared) }
        requires files { FileFacesOfFiles (seen self.old) }
        requires out { OutValid self.old.io.out }
        ensures whole { OnOk result (whole ≡ true
            → seen self.new
            ≡ with_process (seen self.old) (pid_at (seen self.old) place) (Some process)) }
        ensures step { OnOk result (whole ≡ false → let pid = pid_at (seen self.old) place in
            MakesStep (with_process (seen self.old) pid (Some process)) (seen self.new) pid) }
        ensures back { IfErr result (IsSameProcess process) }
        ensures tables { OnErr result (IsSameTables (seen self.old) (seen self.new)) }
    {
        if whole {
            self.put_process(place, process);
            return Ok(());
        }
        let (process, end) = self.step(alloc, place, process);
        match end {
            Ok(came) => match came {
                StepEnd::GoesOn => {
                    self.put_process(place, process);
                    Ok(())
                }
                StepEnd::Ends { status } => {
                    self.end(alloc, place, process, status);
                    Ok(())
                }
            },
            Err(NoMemory) => Err(process),
        }
    }
}

impl Kernel {
    /// Takes the process for a worker that has no lease: of those that run, don't wait and aren't on lease, the one with
    /// the least pid above the last one taken, else with the least pid. A barrier that was prepared is so no more where one
    /// is taken. None is where the run was stopped, where the turns since the last barrier, or those of the run, are made
    /// or on lease, or where no such process is left.
    pub fn take(&mut self, worker: u32) -> Result<Option<Lease>, NoMemory>
        requires worker { worker < max 1 self.old.limits.workers }
        requires idle { IsTrue (is_idle (progress_of self.old).leases worker) }
        ensures some { IfOk result (λ o. IfSome o (HasTaken self.old self.new worker)) }
        ensures none { IfOk result (λ o. IfNone o
            (IsNoneTaken self.old × (self.new ≡ self.old))) }
        ensures err { OnErr result (self.new ≡ self.old) }
    {
        if self.stopped || self.log.is_full(&self.limits) {
            return Ok(None);
        }
        let Some(place) = self.tables.next_ready(self.log.taken) else {
            return Ok(None);
        };
        self.log.reserve(1)?;
        let pid = self.tables.rows[place].pid;
        match self.tables.take_process(place) {
            Some(process) => {
                self.log.take(worker, pid);
                self.prepared = None;
                Ok(Some(Lease {
                    pid,
                    done: 0,
                    process,
                }))
            }
            None => unreachable!(),
        }
    }

    /// Takes a worker's lease back, and makes the step behind its local ones where they are fewer than the quantum. A
    /// barrier that was prepared is so no more.
    pub fn give(&mut self, worker: u32, lease: Lease) -> Result<(), GiveRefused>
        requires running { self.old.stopped ≡ false }
        requires leased { IsLeased self.old worker lease }
        requires may { MayGive self.old.limits.quantum lease }
        ensures ok { OnOk result (self.new
            ≡ logged self.old (Mark.Turn worker lease.pid lease.done) false) }
        ensures err { OnErr result (self.new ≡ record self.old { prepared = false }) }
        ensures back { IfErr result (λ e. IsSameLease lease e.lease) }
    {
        self.prepared = None;
        if self.log.reserve(1).is_err() {
            return Err(GiveRefused { lease });
        }
        let Lease { pid, done, process } = lease;
        let whole = done == self.limits.quantum;
        match self.tables.place_of(pid) {
            Some(place) => {
                if let Err(process) = self.tables.put_back(self.alloc, place, process, whole) {
                    let lease = Lease { pid, done, process };
                    return Err(GiveRefused { lease });
                }
                self.log.turn(worker, pid, done);
                Ok(())
            }
            None => unreachable!(),
        }
    }
}
