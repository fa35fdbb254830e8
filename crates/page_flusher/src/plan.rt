//! What a commit writes, and where.
ghost use Rattle.std.specs.Prelude.{ℕ, IfErr, ◌≡◌, ◌≤◌, ◌^◌, ◌++◌, IfOk, length, map};
ghost use Rattle.block_alloc.specs.Free.{free_count};
ghost use Rattle.ckpt_records.specs.Fits.{IsInForm};
ghost use Rattle.ckpt_chain.specs.Chain.{first_of as first_number, laid};
ghost use Rattle.ckpt_records.specs.Spelling.{record_bytes};
ghost use Rattle.ckpt_records.specs.Holds.{IsCheckpointed};
ghost use Rattle.group_defs.specs.Group.{Group};
ghost use Rattle.page_flusher.specs.CommitPlan.{Avoids, Covers, IsPlan};
ghost use Rattle.ckpt_records.specs.Newest.{NewestCheckpoint};
ghost use Rattle.ckpt_records.specs.Pages.{ArePagesOf, written_page};
ghost use Rattle.page_flusher.specs.Plans.{IsFreeCount, IsLaidOut, IsPlanRefused, placed};
ghost use Rattle.ckpt_records.specs.Cost.{blocks_for};
ghost use Rattle.page_flusher.specs.Taking.{AreTaken, Carry, IsLaidAs, IsLaidIn, IsSpelledBy};
ghost use Rattle.std.specs.List.{AllByRecursion};

use block_alloc::{Blocks, rebuild};
use ckpt_chain::{PageBytes, SlotBody, lay_stream};
use ckpt_records::{Page, PagePlace, kept_is_held, metas_suffice, write_meta, written_is_held};
use commit_gate::Block;
use group_defs::Frame;
use lists::{NoMemory, Seq};
use std::alloc::Global;

/// The bytes of a record in one meta block; before them stands the number of the next one.
const PAYLOAD: usize = 4_088;

/// The bytes of a run in a record.
const RUN: usize = 32;

/// The format in which checkpoints are written.
const FORMAT: u8 = 2;

/// What a commit writes, and the body of its slot.
#[derive(Debug, Drop)]
pub struct Plan {
    pub blocks: Seq<Block>,
    pub body: SlotBody,
}

/// Why there is no plan.
#[derive(Clone, Copy, Debug, PartialEq, Eq)]
pub enum PlanRefused {
    /// The checkpoint needs more blocks than are free.
    Full { need: u64, free: u64 },
    NoMemory,
}

// So many of the least free blocks, by rising number.
fn take_blocks(alloc: Global, blocks: &mut Blocks, count: usize) -> Result<Vec<u64>, NoMemory>
    requires { count ≤ free_count blocks.now }
    ensures { IfOk result (λ taken. AreTaken blocks.old count taken.items blocks.new) }
{
    let mut taken = Vec::new(alloc);
    for _ in 0..count {
        let block = match blocks.take() {
            Some(block) => block,
            None => unreachable!(),
        };
        taken.push(block)?;
    }
    Ok(taken)
}

fn places_of(alloc: Global, pages: &[Page], blocks: &[u64]) -> Result<Vec<PagePlace>, NoMemory>
    requires { length blocks.now ≡ length pages.now }
    ensures { IfOk result (λ places. places.items ≡ placed pages.now blocks.now) }
{
    let mut places = Vec::new(alloc);
    for (i, page) in pages.iter().enumerate() {
        places.push(PagePlace {
            object: page.object,
            page: page.page,
            block: blocks[i],
        })?;
    }
    Ok(places)
}

// The record of a frame and of pages in these blocks.
fn record_of(
    alloc: Global,
    frame: &Frame,
    pages: &[Page],
    blocks: &[u64],
) -> Result<Vec<u8>, NoMemory>
    requires form { IsInForm frame.now }
    requires enough { length blocks.now ≡ length pages.now }
    ensures bytes { IfOk result (λ bytes. bytes.items
        ≡ record_bytes 2 frame.now (placed pages.now blocks.now)) }
    ensures spelled { IfOk result (λ bytes. IsSpelledBy bytes.items frame.now
        (placed pages.now blocks.now)) }
{
    let places = places_of(alloc, pages, blocks)?;
    write_meta(alloc, frame, &places)
}

// The pages in these blocks. Their bytes aren't copied.
fn page_blocks(alloc: Global, numbers: &[u64], pages: Vec<Page>) -> Result<Vec<Block>, NoMemory>
    requires { length numbers.now ≡ length pages.items }
    ensures { IfOk result (λ blocks. Carry numbers.now (map (λ p. p.bytes) pages.items)
        blocks.items) }
{
    let mut blocks = Vec::new(alloc);
    for page in pages {
        blocks.push(Block {
            number: numbers[blocks.len()],
            bytes: page.bytes,
        })?;
    }
    Ok(blocks)
}

// A record in these meta blocks.
fn meta_blocks(alloc: Global, numbers: &[u64], metas: &[PageBytes]) -> Result<Vec<Block>, NoMemory>
    requires { length numbers.now ≡ length metas.now }
    ensures { IfOk result (λ blocks. Carry numbers.now metas.now blocks.items) }
{
    let mut blocks = Vec::new(alloc);
    for (i, meta) in metas.iter().enumerate() {
        blocks.push(Block {
            number: numbers[i],
            bytes: Seq::of(Vec::from_slice(alloc, meta.as_slice())?),
        })?;
    }
    Ok(blocks)
}

fn first_block(numbers: &[u64]) -> u64
    ensures { result ≡ first_number numbers.now }
{
    match numbers.first() {
        Some(number) => *number,
        None => 0,
    }
}

/// Where a checkpoint lies: the blocks of its pages and those of its record, and the record's bytes.
#[derive(Drop)]
pub struct Layout {
    pub places: Vec<u64>,
    pub metas: Vec<u64>,
    pub bytes: Vec<u8>,
}

// The least of the free blocks for pages and for the record of them and of a frame.
fn lay_out(
    alloc: Global,
    free: &mut Blocks,
    frame: &Frame,
    pages: &[Page],
) -> Result<Layout, NoMemory>
    requires form { IsInForm frame.now }
    requires fits { blocks_for frame.now (map written_page pages.now) ≤ free_count free.now }
    ensures laid { IfOk result (λ layout. IsLaidIn free.old frame.now pages.now layout free.new) }
    ensures spelled { IfOk result (λ layout. IsSpelledBy layout.bytes.items frame.now
        (placed pages.now layout.places.items)) }
{
    metas_suffice();
    let places = take_blocks(alloc, free, pages.len())?;
    let bytes = record_of(alloc, frame, pages, &places)?;
    let metas = take_blocks(alloc, free, bytes.len().div_ceil(PAYLOAD))?;
    Ok(Layout {
        places,
        metas,
        bytes,
    })
}

// The pages in their blocks, and behind them the record's bytes in its meta blocks.
fn all_blocks(alloc: Global, layout: &Layout, pages: Vec<Page>) -> Result<Vec<Block>, NoMemory>
    requires { length layout.now.places.items ≡ length pages.items }
    ensures { IfOk result (λ blocks. Carry (layout.now.places.items ++ layout.now.metas.items)
        (map (λ p. p.bytes) pages.items ++ laid layout.now.bytes.items layout.now.metas.items)
        blocks.items) }
{
    let mut blocks = page_blocks(alloc, &layout.places, pages)?;
    let stream = lay_stream(alloc, &layout.bytes, &layout.metas)?;
    let mut behind = meta_blocks(alloc, &layout.metas, &stream)?;
    blocks.append(&mut behind)?;
    Ok(blocks)
}

// The plan of a layout.
fn plan_in(alloc: Global, layout: &Layout, epoch: u64, pages: Vec<Page>) -> Result<Plan, NoMemory>
    requires { length layout.now.places.items ≡ length pages.items }
    ensures { IfOk result (λ plan. IsLaidAs layout.now epoch pages.items plan.blocks plan.body) }
{
    let blocks = all_blocks(alloc, layout, pages)?;
    let body = SlotBody {
        format: FORMAT,
        epoch,
        first: first_block(&layout.metas),
        length: layout.bytes.len() as u64,
    };
    Ok(Plan {
        blocks: Seq::of(blocks),
        body,
    })
}

// How many blocks a checkpoint of these pages needs at most: one for each, and those of a record in which each is a run of its own.
// A size that no memory has is want of memory.
fn blocks_needed(alloc: Global, frame: &Frame, pages: &[Page]) -> Result<u64, NoMemory>
    requires { IsInForm frame.now }
    ensures { IfOk result (λ need. need ≡ blocks_for frame.now (map written_page pages.now)) }
{
    let record = write_meta(alloc, frame, &[])?;
    let Some(runs) = pages.len().checked_mul(RUN) else {
        return Err(NoMemory);
    };
    let Some(size) = record.len().checked_add(runs) else {
        return Err(NoMemory);
    };
    Ok(pages.len() as u64 + size.div_ceil(PAYLOAD) as u64)
}

/// The plan of a group's commit to a disk of so many blocks of which some are in use: its pages and then its meta blocks, in
/// the least free blocks. The pages' bytes become the blocks' without a copy.
pub fn plan_commit(
    alloc: Global,
    count: u64,
    used: &[u64],
    epoch: u64,
    frame: &Frame,
    pages: Vec<Page>,
) -> Result<Plan, PlanRefused>
    requires least { 16 ≤ count }
    requires most { count ≤ 2 ^ 20 }
    requires form { IsInForm frame.now }
    requires whole { AllByRecursion (λ p. length p.bytes ≡ 4096) pages.items }
    ensures laid { IfOk result (λ plan. IsLaidOut count used.now epoch frame.now pages.items
        plan.blocks plan.body) }
    ensures fits { IfOk result (λ plan. (free : ℕ) → IsFreeCount count used.now free
        → blocks_for frame.now (map written_page pages.items) ≤ free) }
    ensures refused { IfErr result (λ refused. IsPlanRefused count used.now frame.now pages.items
        refused) }
    ensures avoids { IfOk result (λ plan. (kept : NewestCheckpoint) → Covers used.now kept
        → Avoids count kept plan.blocks) }
    ensures plan { IfOk result (λ plan. (g : Group) → g.frame ≡ frame.now → IsCheckpointed g
        → ArePagesOf g pages.items → IsPlan count used.now epoch g plan.blocks plan.body) }
{
    written_is_held();
    kept_is_held();
    metas_suffice();
    let mut unused = match rebuild(alloc, count, used) {
        Ok(unused) => unused,
        Err(NoMemory) => return Err(PlanRefused::NoMemory),
    };
    let free = unused.free_count();
    let need = match blocks_needed(alloc, frame, &pages) {
        Ok(need) => need,
        Err(NoMemory) => return Err(PlanRefused::NoMemory),
    };
    if need > free {
        return Err(PlanRefused::Full { need, free });
    }
    let layout = match lay_out(alloc, &mut unused, frame, &pages) {
        Ok(layout) => layout,
        Err(NoMemory) => return Err(PlanRefused::NoMemory),
    };
    match plan_in(alloc, &layout, epoch, pages) {
        Ok(plan) => Ok(plan),
        Err(NoMemory) => Err(PlanRefused::NoMemory),
    }
}
