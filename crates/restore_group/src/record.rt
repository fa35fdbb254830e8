//! The record of a checkpoint.
ghost use Rattle.std.specs.Prelude.{◌≡◌, ◌≤◌, ◌^◌, ◌↔◌, List, ℕ, Some, Err, IsTrue, IfOk, length};
ghost use Rattle.std.specs.List.{AllByRecursion};
ghost use Rattle.ckpt_chain.specs.Chain.{InDisk};
ghost use Rattle.ckpt_chain.specs.Refusals.{FaultRose};
ghost use Rattle.ckpt_chain.specs.Reads.{OnlyReads};
ghost use Rattle.ckpt_chain.specs.declared.stream.StreamRefused.TheVariants.{Broken, DiskFault};
ghost use Rattle.ckpt_records.specs.Runs.{RunEnds, pages_of_runs};
ghost use Rattle.ckpt_records.specs.Spells.{IsOrderly};
ghost use Rattle.ckpt_records.specs.declared.meta.PagePlace.{PagePlace};
ghost use Rattle.group_defs.specs.declared.frame.Frame.{Frame as FrameValue};
ghost use Rattle.restore_group.specs.Meta.{IsMeta, IsWholeFrame};

use ckpt_chain::{SlotBody, StreamRefused, read_stream};
use ckpt_records::{Listing, Meta, read_listing};
use dev_traits::Disk;
use group_defs::Frame;
use group_valid::frame_valid;
use lists::{NoMemory, Seq};
use std::alloc::Global;

/// Whether a checkpoint may have this frame.
fn is_whole(f: &Frame) -> bool
    ensures { IsTrue result ↔ IsWholeFrame f.now }
{
    let held = f.out.bytes.len() as u64;
    frame_valid(f) && f.out.mark >= f.out.from && f.out.mark - f.out.from == held
}

/// Lists the pages of a listing that has no more than a valid group.
fn list_pages(alloc: Global, listing: Listing) -> Result<Meta, NoMemory>
    requires ends { AllByRecursion RunEnds listing.runs }
    requires few { length (pages_of_runs listing.runs) ≤ 81920 }
    ensures frame { IfOk result (λ m. m.frame ≡ listing.frame) }
    ensures pages { IfOk result (λ m. m.pages ≡ pages_of_runs listing.runs) }
{
    listing.into_meta(alloc)
}

/// What a listing says whose frame a checkpoint may have. Any other is refused as Broken before a page is listed, since the runs
/// of a small record can stand for many pages.
fn listed_in(alloc: Global, listing: Listing) -> Result<Meta, StreamRefused>
    requires ends { AllByRecursion RunEnds listing.runs }
    requires few { IsWholeFrame listing.frame → length (pages_of_runs listing.runs) ≤ 81920 }
    ensures frame { IfOk result (λ m. (m.frame ≡ listing.frame) × IsWholeFrame listing.frame) }
    ensures pages { IfOk result (λ m. m.pages ≡ pages_of_runs listing.runs) }
    ensures only { result ≡ Err Broken → IsWholeFrame listing.frame → ⊥ }
    ensures cause { result ≡ Err DiskFault → ⊥ }
{
    if !is_whole(&listing.frame) {
        return Err(StreamRefused::Broken);
    }
    match list_pages(alloc, listing) {
        Ok(meta) => Ok(meta),
        Err(NoMemory) => Err(StreamRefused::NoMemory),
    }
}

/// What the stream of a slot's body says, and the blocks that carry it.
pub fn meta_of<D: Disk>(
    alloc: Global,
    disk: &mut D,
    body: SlotBody,
) -> Result<(Meta, Seq<u64>), StreamRefused>
    requires least { 16 ≤ (D.view disk.old).blocks }
    requires most { (D.view disk.old).blocks ≤ 2 ^ 20 }
    ensures found { (image : List ℕ) → (D.view disk.old).reading ≡ Some image
        → IfOk result (λ r. IsMeta image (D.view disk.old).blocks body r.0.frame r.0.pages r.1) }
    ensures only { (image : List ℕ) → (D.view disk.old).reading ≡ Some image → result ≡ Err Broken
        → (f : FrameValue) (pages : List PagePlace) (metas : List ℕ)
        → IsMeta image (D.view disk.old).blocks body f pages metas → ⊥ }
    ensures orderly { IfOk result (λ r. IsOrderly (D.view disk.old).blocks r.0.frame r.0.pages) }
    ensures whole { IfOk result (λ r. IsWholeFrame r.0.frame) }
    ensures metas { IfOk result (λ r. (1 ≤ length r.1) × InDisk (D.view disk.old).blocks r.1) }
    ensures disk { OnlyReads (D.view disk.old) (D.view disk.new) }
    ensures cause { FaultRose (D.view disk.old).faults (D.view disk.new).faults result }
{
    let blocks = disk.blocks();
    let stream = read_stream(alloc, disk, body)?;
    match read_listing(alloc, body.format, stream.bytes.as_slice(), blocks) {
        Err(_) => Err(StreamRefused::NoMemory),
        Ok(None) => Err(StreamRefused::Broken),
        Ok(Some(listing)) => {
            let meta = listed_in(alloc, listing)?;
            Ok((meta, stream.blocks))
        }
    }
}
