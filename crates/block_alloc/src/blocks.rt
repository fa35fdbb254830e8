ghost use Rattle.std.specs.Prelude.{◌≡◌, ◌≤◌, ◌<◌, ◌^◌, ◌↔◌, ℕ, Bool, List, [], IsTrue, IfOk, IfSome, IfNone, false, length, nat_lt, if◌then◌else◌};
ghost use Rattle.block_alloc.specs.Free.{is_free, free_count, with_free, with_used, MayBeFree, IsLeastFree, NoneBelow};

use lists::NoMemory;
use std::alloc::Global;
use std::marker::Model;

/// Which blocks of a disk are free. Blocks count from 0; blocks 0 and 1 are the slots and never
/// free.
#[derive(Debug, Drop)]
pub struct Blocks {
    free: Vec<bool>,
    // No block below it is free. It is at least 2.
    low: usize,
}

impl Model for Blocks {
    ghost use Rattle.std.specs.Prelude.{Bool, List};
    ghost use Rattle.std.specs.Coded.{coded_list, coded_bool};
    ghost use Rattle.block_alloc.specs.Free.{AreBlocks};

    ghost Value = { List Bool };

    ghost coded = { coded_list coded_bool };

    ghost view = { λ b. b.free.items };

    ghost invariant = { λ b. AreBlocks b.free.items b.low };
}

// A flag for each block, all free but the slots.
fn all_free(alloc: Global, blocks: u64) -> Result<Vec<bool>, NoMemory>
    requires least { 16 ≤ blocks }
    requires most { blocks ≤ 2 ^ 20 }
    ensures count { IfOk result (λ free. length free.items ≡ blocks) }
    ensures free { IfOk result (λ free. (block : ℕ)
        → IsTrue (is_free free.items block) ↔ MayBeFree blocks [] block) }
{
    let mut free = Vec::new(alloc);
    free.resize(blocks as usize, true)?;
    free[0] = false;
    free[1] = false;
    Ok(free)
}

// Makes a block used, where there is such a block.
fn mark_in(free: &mut Vec<bool>, block: u64)
    ensures { free.new.items ≡ (if nat_lt block (length free.old.items)
        then with_used free.old.items block else free.old.items) }
{
    if block < free.len() as u64 {
        free[block as usize] = false;
    }
}

/// The blocks of a disk of so many blocks, 16 to 1,048,576, of which these are in use. A number
/// past the last block is no matter.
pub fn rebuild(alloc: Global, blocks: u64, used: &[u64]) -> Result<Blocks, NoMemory>
    requires least { 16 ≤ blocks }
    requires most { blocks ≤ 2 ^ 20 }
    ensures count { IfOk result (λ all. length all ≡ blocks) }
    ensures free { IfOk result (λ all. (block : ℕ)
        → IsTrue (is_free all block) ↔ MayBeFree blocks used.now block) }
{
    let mut free = all_free(alloc, blocks)?;
    for block in used {
        mark_in(&mut free, *block);
    }
    Ok(Blocks { free, low: 2 })
}

// The first free block, where none below `low` is free.
fn first_free(free: &[bool], low: usize) -> Option<usize>
    requires { NoneBelow free.now low }
    ensures some { IfSome result (λ block. IsLeastFree free.now block) }
    ensures from { IfSome result (λ block. low ≤ block) }
    ensures within { IfSome result (λ block. block < length free.now) }
    ensures none { IfNone result ((block : ℕ) → is_free free.now block ≡ false) }
{
    for block in low..free.len() {
        if free[block] {
            return Some(block);
        }
    }
    None
}

impl Blocks {
    /// Takes the least free block, from 2 on; none where no block is free.
    pub fn take(&mut self) -> Option<u64>
        ensures some { IfSome result (λ block. IsLeastFree self.old block) }
        ensures no_slot { IfSome result (λ block. 2 ≤ block) }
        ensures taken { IfSome result (λ block. self.new ≡ with_used self.old block) }
        ensures none { IfNone result ((block : ℕ) → is_free self.old block ≡ false) }
        ensures same { IfNone result (self.new ≡ self.old) }
    {
        let block = first_free(&self.free, self.low)?;
        self.free[block] = false;
        self.low = block;
        Some(block as u64)
    }

    /// Makes a block of the disk used.
    pub fn mark(&mut self, block: u64)
        requires { block < length self.old }
        ensures { self.new ≡ with_used self.old block }
    {
        self.free[block as usize] = false;
    }

    /// Makes a block free, from 2 up to the last one. What was taken is given back so.
    pub fn free(&mut self, block: u64)
        requires no_slot { 2 ≤ block }
        requires within { block < length self.old }
        ensures free { self.new ≡ with_free self.old block }
        ensures back { (before : List Bool) → IsTrue (is_free before block)
            → self.old ≡ with_used before block → self.new ≡ before }
    {
        self.free[block as usize] = true;
        self.low = self.low.min(block as usize);
    }

    /// How many blocks are free.
    pub fn free_count(&self) -> u64
        ensures { result ≡ free_count self.now }
    {
        self.free.iter().filter(|free| **free).count() as u64
    }
}
