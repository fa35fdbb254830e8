//! The two slots of a disk, each of which may be open at one checkpoint.
ghost use Rattle.std.specs.Prelude.{◌≡◌, ◌≤◌, ◌+◌, ◌^◌, ℕ, List, length, Some, IfOk, IfSome, OnErr};
ghost use Rattle.dev_traits.specs.Counts.{Rose};
ghost use Rattle.ckpt_chain.specs.Reads.{OnlyReads};
ghost use Rattle.ckpt_chain.specs.Slot.{num_at, IsFormat, slot_text as text_of_format, format_of as format_of_text, body_at, open_body, newer, newest, gates_of};

use crate::stream::read_block;
use dev_traits::{Disk, Failed};

/// One of the two slots. Slot A is block 0, slot B block 1.
#[derive(Clone, Copy, Debug, PartialEq, Eq)]
pub enum Slot {
    A,
    B,
}

/// What an open slot says of its checkpoint: the format of its record, 1 or 2, by the slot's text; the
/// epoch, the first meta block, and the length of the meta stream in bytes.
#[derive(Clone, Copy, Debug, PartialEq, Eq)]
pub struct SlotBody {
    pub format: u8,
    pub epoch: u64,
    pub first: u64,
    pub length: u64,
}

/// What the two slots of a disk say.
#[derive(Clone, Copy)]
pub struct Slots {
    /// The newest open slot, with its body.
    pub newest: Option<(Slot, SlotBody)>,
    /// The gate bytes of slots A and B. A slot whose gate isn't 1 isn't open.
    pub gates: [u8; 2],
}

/// The number in the eight bytes from a place on, the low byte first.
#[tactic(auto, unfolding(crate::specs::Slot::num_at))]
pub fn u64_at(bytes: &[u8], at: usize) -> u64
    requires { at + 8 ≤ length bytes.now }
    ensures { result ≡ num_at bytes.now at }
{
    let (_, rest) = bytes.split_at(at);
    let (front, _) = rest.split_at(8);
    u64::from_le_bytes([
        front[0], front[1], front[2], front[3], front[4], front[5], front[6], front[7],
    ])
}

/// The text of a slot of a format: AURSLOT1 or AURSLOT2.
pub fn slot_text(format: u8) -> [u8; 8]
    requires { IsFormat format }
    ensures { result ≡ text_of_format format }
{
    [b'A', b'U', b'R', b'S', b'L', b'O', b'T', b'0' + format]
}

#[tactic(auto, unfolding(crate::specs::Slot::format_of))]
fn format_of(text: &[u8]) -> Option<u8>
    ensures text { result ≡ format_of_text text.now }
    ensures format { IfSome result IsFormat }
{
    if text == slot_text(1).as_slice() {
        return Some(1);
    }
    if text == slot_text(2).as_slice() {
        return Some(2);
    }
    None
}

/// What a slot's block says, where the slot is open: its gate is 1, its text is AURSLOT1 or AURSLOT2,
/// and its epoch is at least 1.
#[tactic(auto, unfolding(crate::specs::Slot::open_body))]
pub fn read_slot(bytes: &[u8]) -> Option<SlotBody>
    requires { length bytes.now ≡ 4096 }
    ensures body { result ≡ open_body bytes.now 0 }
    ensures format { IfSome result (λ b. IsFormat b.format) }
{
    let (_, rest) = bytes.split_at(8);
    let (text, _) = rest.split_at(8);
    if bytes[0] != 1 || u64_at(bytes, 16) == 0 {
        return None;
    }
    match format_of(text) {
        Some(format) => Some(SlotBody {
            format,
            epoch: u64_at(bytes, 16),
            first: u64_at(bytes, 24),
            length: u64_at(bytes, 32),
        }),
        None => None,
    }
}

/// The newest open slot: that of the greater epoch, A if they are equal.
#[tactic(auto, unfolding(crate::specs::Slot::newer))]
pub fn open_slot(a: Option<SlotBody>, b: Option<SlotBody>) -> Option<(Slot, SlotBody)>
    ensures { result ≡ newer a b }
{
    match (a, b) {
        (None, None) => None,
        (Some(a), None) => Some((Slot::A, a)),
        (None, Some(b)) => Some((Slot::B, b)),
        (Some(a), Some(b)) => {
            if a.epoch < b.epoch {
                Some((Slot::B, b))
            } else {
                Some((Slot::A, a))
            }
        }
    }
}

/// Reads both slots of a disk.
pub fn read_slots<D: Disk>(disk: &mut D) -> Result<Slots, Failed>
    requires least { 2 ≤ (D.view disk.old).blocks }
    requires most { (D.view disk.old).blocks ≤ 2 ^ 20 }
    ensures newest { (image : List ℕ) → (D.view disk.old).reading ≡ Some image
        → IfOk result (λ s. s.newest ≡ newest image) }
    ensures gates { (image : List ℕ) → (D.view disk.old).reading ≡ Some image
        → IfOk result (λ s. s.gates ≡ gates_of image) }
    ensures epoch { IfOk result (λ s. IfSome s.newest (λ x. 1 ≤ x.1.epoch)) }
    ensures format { IfOk result (λ s. IfSome s.newest (λ x. IsFormat x.1.format)) }
    ensures disk { OnlyReads (D.view disk.old) (D.view disk.new) }
    ensures cause { OnErr result (Rose (D.view disk.old).faults (D.view disk.new).faults) }
{
    let a = read_block(disk, 0)?;
    let b = read_block(disk, 1)?;
    Ok(Slots {
        newest: open_slot(read_slot(&a), read_slot(&b)),
        gates: [a[0], b[0]],
    })
}
