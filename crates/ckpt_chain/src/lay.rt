ghost use Rattle.std.specs.Prelude.{◌≡◌, ◌<◌, ◌≤◌, ◌*◌, ◌+◌, ◌-◌, ◌/◌, ◌^◌, List, ℕ, Some, IfOk, length, take, drop};
ghost use Rattle.std.specs.List.{AllByRecursion};
ghost use Rattle.ckpt_chain.specs.Chain.{laid, meta_block, metas_for, first_of, HasBlocks, stream_at};

use lists::NoMemory;
use std::alloc::{AllocError, Global};
use std::marker::Model;

/// The bytes of one block.
#[derive(Debug, Drop)]
pub struct PageBytes {
    bytes: Vec<u8>,
}

impl Model for PageBytes {
    ghost Value = { List ℕ };

    ghost view = { λ p. p.bytes.items };

    ghost invariant = { λ p. length p.bytes.items ≡ 4096 };
}

impl PageBytes {
    pub fn as_slice(&self) -> &[u8]
        ensures bytes { result.now ≡ self.now }
        ensures len { length result.now ≡ 4096 }
    {
        self.bytes.as_slice()
    }
}

#[tactic(auto, unfolding(crate::specs::Chain::meta_block))]
fn block_of(alloc: Global, next: u64, part: &[u8]) -> Result<PageBytes, AllocError>
    requires { length part.now ≤ 4088 }
    ensures { IfOk result (λ b. b ≡ meta_block next part.now) }
{
    let mut bytes = Vec::with_capacity(alloc, 4096)?;
    bytes.extend_from_slice(&next.to_le_bytes())?;
    bytes.extend_from_slice(part)?;
    bytes.resize(4096, 0)?;
    Ok(PageBytes { bytes })
}

fn next_of(blocks: &[u64], i: usize) -> u64
    requires { i < length blocks.now }
    ensures { result ≡ first_of (drop (i + 1) blocks.now) }
{
    match blocks.get(i + 1) {
        Some(next) => *next,
        None => 0,
    }
}

// The bytes of one block, and those after them.
fn split_part(bytes: &[u8]) -> (&[u8], &[u8])
    ensures part { result.0.now ≡ take 4088 bytes.now }
    ensures rest { result.1.now ≡ drop 4088 bytes.now }
    ensures len { length result.0.now ≤ 4088 }
{
    if bytes.len() < 4_088 {
        bytes.split_at(bytes.len())
    } else {
        bytes.split_at(4_088)
    }
}

/// The contents of the blocks, in their order, that carry these bytes: each names the next, and the
/// last payload is filled up with zeros.
pub fn lay_stream(alloc: Global, bytes: &[u8], blocks: &[u64]) -> Result<Vec<PageBytes>, NoMemory>
    ensures { IfOk result (λ v. v.items ≡ laid bytes.now blocks.now) }
{
    match blocks_of(alloc, bytes, blocks) {
        Ok(list) => Ok(list),
        Err(_) => Err(NoMemory),
    }
}

fn blocks_of(alloc: Global, bytes: &[u8], blocks: &[u64]) -> Result<Vec<PageBytes>, AllocError>
    ensures { IfOk result (λ v. v.items ≡ laid bytes.now blocks.now) }
{
    let mut list = Vec::new(alloc);
    let mut rest = bytes;
    for i in 0..blocks.len() {
        let (part, after) = split_part(rest);
        list.push(block_of(alloc, next_of(blocks, i), part)?)?;
        rest = after;
    }
    Ok(list)
}

/// What `lay_stream` gives, put on its blocks, is read as the stream.
pub fn laid_is_read()
    ensures { (image : List ℕ) (count format epoch : ℕ) (bytes blocks : List ℕ) → count ≤ 2 ^ 20
        → 1 ≤ length bytes → length bytes ≤ 4088 * (count - 2)
        → length blocks ≡ metas_for (length bytes)
        → AllByRecursion (λ b. (2 ≤ b) × (b < count)) blocks
        → HasBlocks image blocks (laid bytes blocks)
        → stream_at image count (record {
          format = format;
          epoch = epoch;
          first = first_of blocks;
          length = length
              bytes;
        }) ≡ Some (bytes, blocks) }
{}
