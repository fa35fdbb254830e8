//! The log of a run, and the numbers that its marks make.
ghost use Rattle.std.specs.Prelude.{◌≡◌, ℕ, ◌≤◌, ◌+◌, ◌-◌, ◌^◌, ◌||◌, ◌&&◌, ◌==◌, nat_le, [], ◌∷◌, ◌++◌, OnOk, OnErr};
ghost use Rattle.std.specs.Vec.{vec_capacity, vec_len};
ghost use Rattle.group_kernel.specs.Standing.{HasRoom};
ghost use Rattle.run_defs.specs.declared.run.Mark.TheVariants as Mark;

use lists::NoMemory;
use run_defs::{Limits, Mark};
use std::alloc::Global;

/// The marks so far, and beside them what the next marks are judged by.
#[derive(Debug, Drop)]
pub struct Log {
    pub marks: Vec<Mark>,
    /// The Turns in all, and those since the last Barrier.
    pub turns: u32,
    pub turns_since: u32,
    /// How many leases are out.
    pub leases: u32,
    /// The pid of the last Take, or 0.
    pub taken: u32,
    /// The epochs of the last Barrier, Fetch and Ack, or the origin's.
    pub last: u64,
    pub fetched: u64,
    pub acked: u64,
}

impl Log {
    /// Nothing yet, from an origin's epoch on; no memory is taken.
    pub fn new(alloc: Global, epoch: u64) -> Log
        ensures marks { result.marks.items ≡ [] }
        ensures none { (result.turns ≡ 0) × (result.turns_since ≡ 0) × (result.leases ≡ 0)
            × (result.taken ≡ 0) }
        ensures epochs { (result.last ≡ epoch) × (result.fetched ≡ epoch)
            × (result.acked ≡ epoch) }
    {
        Log {
            marks: Vec::new(alloc),
            turns: 0,
            turns_since: 0,
            leases: 0,
            taken: 0,
            last: epoch,
            fetched: epoch,
            acked: epoch,
        }
    }

    /// Takes the memory for n more marks, and for the Fetch and the Ack that the last barrier still wants.
    pub fn reserve(&mut self, n: usize) -> Result<(), NoMemory>
        requires small { n ≤ 3 }
        requires order { (self.old.fetched ≤ self.old.last) × (self.old.last ≤ self.old.fetched + 1)
            × (self.old.acked ≤ self.old.last) × (self.old.last ≤ self.old.acked + 1) }
        ensures marks { self.new.marks.items ≡ self.old.marks.items }
        ensures numbers { self.new ≡ record self.old { marks = self.new.marks } }
        ensures room { OnOk result (HasRoom self.new n) }
        ensures kept { HasRoom self.old 0 → HasRoom self.new 0 }
        ensures stays { (n : ℕ) → HasRoom self.old n → HasRoom self.new n }
    {
        let open = (self.last - self.fetched) + (self.last - self.acked);
        self.marks.reserve(n + open as usize)?;
        Ok(())
    }

    /// Whether the turns of the interval, or those of the run, are all made or out.
    pub fn is_full(&self, limits: &Limits) -> bool
        requires { (self.now.turns_since + self.now.leases ≤ limits.now.every)
            × (self.now.turns + self.now.leases ≤ limits.now.turns) }
        ensures { result ≡ nat_le limits.now.every (self.now.turns_since + self.now.leases)
            || nat_le limits.now.turns (self.now.turns + self.now.leases) }
    {
        limits.every <= self.turns_since + self.leases || limits.turns <= self.turns + self.leases
    }

    /// Whether no lease is out, and the last barrier is acknowledged.
    pub fn is_at_rest(&self) -> bool
        ensures { result ≡ ((self.now.leases == 0) && (self.now.acked == self.now.last)) }
    {
        self.leases == 0 && self.acked == self.last
    }

    /// Logs that a worker took a process; room was taken before.
    pub fn take(&mut self, worker: u32, pid: u32)
        requires room { HasRoom self.old 1 }
        requires few { self.old.leases ≤ 10000 }
        ensures marks { self.new.marks.items
            ≡ self.old.marks.items ++ Mark.Take worker pid ∷ [] }
        ensures numbers { self.new ≡ record self.old {
          marks = self.new.marks;
          leases = self.old.leases + 1;
          taken = pid;
        } }
        ensures left { HasRoom self.new 0 }
    {
        let _ = self.marks.push(Mark::Take { worker, pid });
        self.leases += 1;
        self.taken = pid;
    }

    /// Logs that a worker gave its lease back after n local steps; room was taken before.
    pub fn turn(&mut self, worker: u32, pid: u32, n: u32)
        requires room { HasRoom self.old 1 }
        requires leased { 1 ≤ self.old.leases }
        requires few { (self.old.turns ≤ 1000000) × (self.old.turns_since ≤ 10000) }
        ensures marks { self.new.marks.items
            ≡ self.old.marks.items ++ Mark.Turn worker pid n ∷ [] }
        ensures numbers { self.new ≡ record self.old {
          marks = self.new.marks;
          leases = self.old.leases - 1;
          turns = self.old.turns + 1;
          turns_since = self.old.turns_since + 1;
        } }
        ensures left { HasRoom self.new 0 }
    {
        let _ = self.marks.push(Mark::Turn { worker, pid, n });
        self.leases -= 1;
        self.turns += 1;
        self.turns_since += 1;
    }

    /// Logs the barrier of the next epoch; room for it, its Fetch and its Ack was taken before.
    pub fn barrier(&mut self)
        requires room { HasRoom self.old 3 }
        requires acked { (self.old.acked ≡ self.old.last) × (self.old.fetched ≡ self.old.last) }
        requires small { self.old.last ≤ 2 ^ 63 }
        ensures marks { self.new.marks.items
            ≡ self.old.marks.items ++ Mark.Barrier (self.old.last + 1) ∷ [] }
        ensures numbers { self.new ≡ record self.old {
          marks = self.new.marks;
          turns_since = 0;
          last = self.old.last + 1;
        } }
        ensures left { HasRoom self.new 0 }
    {
        self.last += 1;
        self.turns_since = 0;
        let _ = self.marks.push(Mark::Barrier { epoch: self.last });
    }

    /// Logs that the last barrier's checkpoint was fetched; room was taken with the barrier.
    pub fn fetch(&mut self)
        requires room { HasRoom self.old 0 }
        requires open { self.old.fetched + 1 ≡ self.old.last }
        ensures marks { self.new.marks.items
            ≡ self.old.marks.items ++ Mark.Fetch self.old.last ∷ [] }
        ensures numbers { self.new ≡ record self.old {
          marks = self.new.marks;
          fetched = self.old.last;
        } }
        ensures left { (n : ℕ) → HasRoom self.old n → HasRoom self.new n }
    {
        self.fetched = self.last;
        let _ = self.marks.push(Mark::Fetch {
            epoch: self.fetched,
        });
    }

    /// Logs that the last barrier's checkpoint is on the disk; room was taken with the barrier.
    pub fn ack(&mut self, epoch: u64)
        requires last { epoch ≡ self.old.last }
        requires open { self.old.acked + 1 ≡ epoch }
        requires room { HasRoom self.old 0 }
        ensures marks { self.new.marks.items
            ≡ self.old.marks.items ++ Mark.Ack epoch ∷ [] }
        ensures numbers { self.new ≡ record self.old {
          marks = self.new.marks;
          acked = epoch;
        } }
        ensures left { (n : ℕ) → HasRoom self.old n → HasRoom self.new n }
    {
        self.acked = epoch;
        let _ = self.marks.push(Mark::Ack { epoch });
    }
}
