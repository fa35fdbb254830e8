//! What the engine knows of the newest checkpoint on its disk.
ghost use Rattle.std.specs.Prelude.{◌≡◌, ◌↔◌, ◌+◌, ◌<◌, ◌^◌, ◌∷◌, ◌++◌, [], IfOk, IsTrue};
ghost use Rattle.ckpt_records.specs.Holds.{block_numbers};
ghost use Rattle.commit_gate.specs.Whole.{numbers};
ghost use Rattle.ckpt_chain.specs.Slot.{other};
ghost use Rattle.page_flusher.specs.KeptBlocks.{IsKeptAfter, gate_in};

use ckpt_chain::Slot;
use ckpt_records::Placement;
use commit_gate::Block;
use lists::{NoMemory, Seq};
use std::alloc::Global;

/// Of the newest checkpoint, or of a disk that has none.
#[derive(Debug, Drop)]
pub struct KeptBlocks {
    /// Its epoch; 0 where there is none.
    pub epoch: u64,
    /// The blocks that it uses.
    pub used: Seq<u64>,
    /// The slot of the next commit.
    pub target: Slot,
    /// The gate bytes of slots A and B.
    pub gate_a: u8,
    pub gate_b: u8,
}

fn other_slot(slot: Slot) -> Slot
    ensures { result ≡ other slot }
{
    match slot {
        Slot::A => Slot::B,
        Slot::B => Slot::A,
    }
}

impl KeptBlocks {
    /// The checkpoint of this epoch at its placement, with the gate bytes of slots A and B.
    pub fn of(
        alloc: Global,
        epoch: u64,
        placement: &Placement,
        gates: [u8; 2],
    ) -> Result<KeptBlocks, NoMemory>
        ensures epoch { IfOk result (λ k. k.epoch ≡ epoch) }
        ensures used { IfOk result (λ k. k.used
            ≡ placement.now.metas ++ block_numbers placement.now.pages) }
        ensures target { IfOk result (λ k. k.target ≡ other placement.now.slot) }
        ensures gates { IfOk result (λ k. gates ≡ k.gate_a ∷ k.gate_b ∷ []) }
    {
        let mut used = Vec::from_slice(alloc, placement.metas.as_slice())?;
        for page in placement.pages.as_slice() {
            used.push(page.block)?;
        }
        let [gate_a, gate_b] = gates;
        Ok(KeptBlocks {
            epoch,
            used: Seq::of(used),
            target: other_slot(placement.slot),
            gate_a,
            gate_b,
        })
    }

    /// Whether the gate of the next commit's slot reads 1.
    pub fn closes(&self) -> bool
        ensures { IsTrue result ↔ (gate_in self.now self.now.target ≡ 1) }
    {
        match self.target {
            Slot::A => self.gate_a == 1,
            Slot::B => self.gate_b == 1,
        }
    }

    /// After the next commit, which writes these blocks.
    pub fn after(&self, alloc: Global, blocks: &[Block]) -> Result<KeptBlocks, NoMemory>
        requires { self.now.epoch + 1 < 2 ^ 64 }
        ensures { IfOk result (λ k. IsKeptAfter self.now blocks.now k) }
    {
        let mut used = Vec::new(alloc);
        for block in blocks {
            used.push(block.number)?;
        }
        let (gate_a, gate_b) = match self.target {
            Slot::A => (1, self.gate_b),
            Slot::B => (self.gate_a, 1),
        };
        Ok(KeptBlocks {
            epoch: self.epoch + 1,
            used: Seq::of(used),
            target: other_slot(self.target),
            gate_a,
            gate_b,
        })
    }
}
