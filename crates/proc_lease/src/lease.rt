//! A process on lease, and its run.
ghost use Rattle.std.specs.Prelude.{◌≡◌, ◌≤◌, ◌<◌, ◌+◌, ◌-◌, ◌^◌};
ghost use Rattle.rv64_isa.specs.Instruction.{instruction};
ghost use Rattle.rv64_core.specs.Steps.{EndSteps};
ghost use Rattle.proc_lease.specs.Private.{private_in, views_of};
ghost use Rattle.proc_lease.specs.Running.{AreAfterLocalSteps, Stops};

use crate::process::Process;
use rv64_core::{DecodeCache, Local, local_steps};

/// A process that was taken out of its group for a turn.
#[derive(Drop)]
pub struct Lease {
    pub pid: u32,
    /// How many local steps the process has made since it was taken.
    pub done: u32,
    pub process: Process,
}

/// Why a run stopped.
#[derive(Clone, Copy, Debug, PartialEq, Eq)]
pub enum Halt {
    /// All steps of the quantum are done.
    Quantum,
    /// There are steps left, and the next one isn't local.
    Shared,
    /// There are steps left, and the next one is a store for which there was no memory. Nothing of it was stored.
    NoMemory,
}

impl Lease {
    /// Does local steps until as many are done as the quantum says, or until the next one isn't local. It takes no memory
    /// but what stores may, for a page that is stored to for the first time since its object was frozen or forked.
    pub fn run(&mut self, cache: &mut DecodeCache, quantum: u32) -> Halt
        requires { self.old.done ≤ quantum }
        ensures pid { self.new.pid ≡ self.old.pid }
        ensures maps { self.new.process.map.entries ≡ self.old.process.map.entries }
        ensures more { self.old.done ≤ self.new.done }
        ensures within { self.new.done ≤ quantum }
        ensures steps { AreAfterLocalSteps (self.new.done - self.old.done)
            self.old.process.map.entries
            self.old.process.regs (views_of self.old.process.faces.entries)
            self.new.process.regs (views_of self.new.process.faces.entries) }
        ensures stops { Stops result self.new.done quantum
            (instruction (private_in (views_of self.new.process.faces.entries)
            self.new.process.map.entries) self.new.process.regs) }
    {
        match self.steps(cache, quantum - self.done) {
            Local::Stepped => Halt::Quantum,
            Local::Shared => Halt::Shared,
            Local::NoMemory => Halt::NoMemory,
        }
    }

    // So many local steps, or fewer where the next one isn't local or found no memory.
    fn steps(&mut self, cache: &mut DecodeCache, left: u32) -> Local
        requires { self.old.done + left < 2 ^ 32 }
        ensures pid { self.new.pid ≡ self.old.pid }
        ensures maps { self.new.process.map.entries ≡ self.old.process.map.entries }
        ensures more { self.old.done ≤ self.new.done }
        ensures within { self.new.done ≤ self.old.done + left }
        ensures steps { AreAfterLocalSteps (self.new.done - self.old.done)
            self.old.process.map.entries
            self.old.process.regs (views_of self.old.process.faces.entries)
            self.new.process.regs (views_of self.new.process.faces.entries) }
        ensures ends { EndSteps result (self.new.done - self.old.done) left
            (instruction (private_in (views_of self.new.process.faces.entries)
            self.new.process.map.entries) self.new.process.regs) }
    {
        let mut regs = self.process.regs;
        let (made, why) = local_steps(&mut regs, &mut self.process, cache, left);
        self.process.regs = regs;
        self.done += made;
        why
    }
}
