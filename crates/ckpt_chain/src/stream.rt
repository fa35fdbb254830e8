ghost use Rattle.std.specs.Prelude.{◌≡◌, ◌≤◌, ◌<◌, ◌*◌, ◌^◌, List, ℕ, IfOk, OnErr, Some, ◌-◌, length};
ghost use Rattle.dev_traits.specs.Counts.{Rose};
ghost use Rattle.ckpt_chain.specs.Reads.{OnlyReads};
ghost use Rattle.ckpt_chain.specs.Chain.{stream_at, whole_at, block, InDisk};
ghost use Rattle.ckpt_chain.specs.Refusals.{IsReadAs, FaultRose};
ghost use Rattle.ckpt_chain.specs.declared.stream.StreamRefused.TheVariants.{NoMemory, DiskFault};

use crate::slot::{SlotBody, u64_at};
use dev_traits::{Disk, Failed};
use lists::Seq;
use std::alloc::{AllocError, AllocFailed, Global};

/// A stream and the blocks that carry it, in their order.
#[derive(Debug, Drop)]
pub struct Stream {
    pub bytes: Seq<u8>,
    pub blocks: Seq<u64>,
}

/// The blocks of a chain, and all of their payloads.
#[derive(Drop)]
struct Walked {
    bytes: Vec<u8>,
    blocks: Vec<u64>,
}

/// Why no stream was read.
#[derive(Clone, Copy, Debug, PartialEq, Eq)]
pub enum StreamRefused {
    Broken,
    DiskFault,
    NoMemory,
}

impl From<AllocError> for StreamRefused {
    ghost from_gives = { λ _ e. e ≡ NoMemory };

    fn from(_e: AllocError) -> StreamRefused {
        StreamRefused::NoMemory
    }
}

impl<T: Drop> From<AllocFailed<T>> for StreamRefused {
    ghost from_gives = { λ _ e. e ≡ NoMemory };

    fn from(_e: AllocFailed<T>) -> StreamRefused {
        StreamRefused::NoMemory
    }
}

impl From<Failed> for StreamRefused {
    ghost from_gives = { λ _ e. e ≡ DiskFault };

    fn from(_e: Failed) -> StreamRefused {
        StreamRefused::DiskFault
    }
}

/// The bytes of a block.
#[tactic(auto, unfolding(crate::specs::Chain::block))]
pub fn read_block<D: Disk>(disk: &mut D, at: u64) -> Result<[u8; 4096], Failed>
    requires at { at < (D.view disk.old).blocks }
    requires count { (D.view disk.old).blocks ≤ 2 ^ 20 }
    ensures bytes { (image : List ℕ) → (D.view disk.old).reading ≡ Some image
        → IfOk result (λ x. x ≡ block image at) }
    ensures disk { OnlyReads (D.view disk.old) (D.view disk.new) }
    ensures cause { OnErr result (Rose (D.view disk.old).faults (D.view disk.new).faults) }
{
    let mut bytes = [0; 4096];
    disk.read_at(4096 * at, &mut bytes)?;
    Ok(bytes)
}

/// The stream of a slot's body.
#[tactic(auto, unfolding(crate::specs::Chain::stream_at))]
pub fn read_stream<D: Disk>(
    alloc: Global,
    disk: &mut D,
    body: SlotBody,
) -> Result<Stream, StreamRefused>
    requires least { 16 ≤ (D.view disk.old).blocks }
    requires most { (D.view disk.old).blocks ≤ 2 ^ 20 }
    ensures always { IfOk result
        (λ s. (1 ≤ length s.blocks) × InDisk (D.view disk.old).blocks s.blocks) }
    ensures bytes { (image : List ℕ) → (D.view disk.old).reading ≡ Some image
        → IsReadAs (λ s. (s.bytes, s.blocks)) result
        (stream_at image (D.view disk.old).blocks body) }
    ensures disk { OnlyReads (D.view disk.old) (D.view disk.new) }
    ensures cause { FaultRose (D.view disk.old).faults (D.view disk.new).faults result }
{
    let count = disk.blocks();
    if body.length == 0 || body.length > 4088 * (count - 2) {
        return Err(StreamRefused::Broken);
    }
    let walked = walk(alloc, disk, body.length.div_ceil(4088), body.first)?;
    let Walked { mut bytes, blocks } = walked;
    bytes.truncate(body.length as usize);
    Ok(Stream {
        bytes: Seq::of(bytes),
        blocks: Seq::of(blocks),
    })
}

/// The chain of so many blocks, with all of their payloads.
fn walk<D: Disk>(
    alloc: Global,
    disk: &mut D,
    links: u64,
    first: u64,
) -> Result<Walked, StreamRefused>
    requires { (D.view disk.old).blocks ≤ 2 ^ 20 }
    ensures always { IfOk result
        (λ s. (length s.blocks.items ≡ links) × InDisk (D.view disk.old).blocks s.blocks.items) }
    ensures bytes { (image : List ℕ) → (D.view disk.old).reading ≡ Some image
        → IsReadAs (λ s. (s.bytes.items, s.blocks.items)) result
        (whole_at image (D.view disk.old).blocks links first) }
    ensures disk { OnlyReads (D.view disk.old) (D.view disk.new) }
    ensures cause { FaultRose (D.view disk.old).faults (D.view disk.new).faults result }
{
    let count = disk.blocks();
    let mut bytes = Vec::new(alloc);
    let mut blocks = Vec::new(alloc);
    let mut at = first;
    for _ in 0..links {
        if at < 2 || at >= count {
            return Err(StreamRefused::Broken);
        }
        let block = read_block(disk, at)?;
        blocks.push(at)?;
        let (_, payload) = block.split_at(8);
        bytes.extend_from_slice(payload)?;
        at = u64_at(&block, 0);
    }
    if at != 0 {
        return Err(StreamRefused::Broken);
    }
    Ok(Walked { bytes, blocks })
}
