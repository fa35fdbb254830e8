//! What holds of all images of a disk.
ghost use Rattle.std.specs.Prelude.{◌≡◌, ◌≤◌, ℕ, List, length, map};
ghost use Rattle.group_defs.specs.Group.{Group};
ghost use Rattle.ckpt_chain.specs.declared.slot.Slot.{Slot};
ghost use Rattle.ckpt_records.specs.declared.meta.PagePlace.{PagePlace};
ghost use Rattle.ckpt_chain.specs.Chain.{SameBlocks, metas_for};
ghost use Rattle.ckpt_chain.specs.Slot.{newest};
ghost use Rattle.ckpt_records.specs.Cost.{metas_of};
ghost use Rattle.ckpt_records.specs.Holds.{HoldsAt, IsWritten, block_numbers, listed_page};
ghost use Rattle.ckpt_records.specs.Spelling.{record_bytes};
ghost use Rattle.ckpt_records.specs.Spells.{Spells};
ghost use Rattle.group_defs.specs.declared.frame.Frame.{Frame};

use ckpt_chain::{kept_is_read, laid_is_read};

/// In a format bytes spell at most one frame with the places of its pages.
pub fn one_spelled()
    ensures { (format : ℕ) (bytes : List ℕ) (blocks : ℕ) (f g : Frame)
        (pages others : List PagePlace) → Spells format bytes blocks f pages
        → Spells format bytes blocks g others → (f ≡ g) × (pages ≡ others) }
{}

/// A record of pages takes no more meta blocks than one in which each page is a run of its own.
pub fn metas_suffice()
    ensures { (f : Frame) (pages : List PagePlace)
        → metas_for (length (record_bytes 2 f pages)) ≤ metas_of f (map listed_page pages) }
{}

/// An image holds at most one epoch and one group, in one place.
pub fn one_held()
    ensures { (image : List ℕ) (e f : ℕ) (g h : Group) (ps qs : List PagePlace) (ms ns : List ℕ)
        (s t : Slot) → HoldsAt image e g ps ms s → HoldsAt image f h qs ns t → (e ≡ f) × (g ≡ h)
        × (ps ≡ qs) × (ms ≡ ns) × (s ≡ t) }
{}

/// A whole checkpoint that was written is held.
pub fn written_is_held()
    ensures { (image bytes : List ℕ) (epoch : ℕ) (g : Group) (pages : List PagePlace)
        (metas : List ℕ) (slot : Slot) → IsWritten image bytes epoch g pages metas slot
        → HoldsAt image epoch g pages metas slot }
{
    laid_is_read()
}

/// What is held stays held where the blocks of its checkpoint and the open slots are as before.
pub fn kept_is_held()
    ensures { (old new : List ℕ) (epoch : ℕ) (g : Group) (pages : List PagePlace) (metas : List ℕ)
        (slot : Slot) → HoldsAt old epoch g pages metas slot → length new ≡ length old
        → newest new ≡ newest old → SameBlocks old new metas
        → SameBlocks old new (block_numbers pages) → HoldsAt new epoch g pages metas slot }
{
    kept_is_read()
}
