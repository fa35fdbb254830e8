//! What commits leave, whatever is kept.
ghost use Rattle.std.specs.Prelude.{◌≡◌, ◌⊎◌, ◌<◌, ◌≤◌, ◌*◌, ◌^◌, ℕ, List, length, Some};
ghost use Rattle.group_defs.specs.Group.{Group};
ghost use Rattle.ckpt_chain.specs.Slot.{IsFormat, newest};
ghost use Rattle.ckpt_chain.specs.declared.slot.SlotBody.{SlotBody};
ghost use Rattle.ckpt_records.specs.Holds.{HoldsAt};
ghost use Rattle.ckpt_records.specs.declared.meta.PagePlace.{PagePlace};
ghost use Rattle.commit_gate.specs.Whole.{IsUnfinished, finished};
ghost use Rattle.commit_gate.specs.declared.whole.Block.{Block};
ghost use Rattle.ckpt_records.specs.Newest.{NewestCheckpoint, HasNewest, target_after, epoch_after};
ghost use Rattle.page_flusher.specs.CommitPlan.{Avoids, HasNewestOr};

use ckpt_records::kept_is_held;

/// An image of a commit that isn't done keeps what was kept, where the commit's blocks aren't used by that. At every moment
/// of a commit that holds a group as some epoch once it is finished, an image keeps that, or holds that group.
pub fn commits_keep_or_replace()
    ensures unfinished { (count : ℕ) (kept : NewestCheckpoint) (blocks : List Block)
        (r image : List ℕ) → length r ≡ 4096 * count → HasNewest r kept → Avoids count kept blocks
        → IsUnfinished (target_after kept) blocks r image → HasNewest image kept }
    ensures during { (count : ℕ) (kept : NewestCheckpoint) (epoch : ℕ) (h : Group) (pages : List PagePlace)
        (metas : List ℕ) (blocks : List Block) (body : SlotBody) (r image : List ℕ)
        → length r ≡ 4096 * count → HasNewest r kept → Avoids count kept blocks
        → HoldsAt (finished (target_after kept) blocks body r) epoch h pages metas
        (target_after kept) → IsUnfinished (target_after kept) blocks r image
        ⊎ (image ≡ finished (target_after kept) blocks body r) → HasNewestOr kept epoch h image }
{
    kept_is_held()
}

/// After a commit of a body of format 1 or 2 and of a later epoch its slot is the newest open one, with its body.
pub fn committed_slot_is_newest()
    ensures { (count : ℕ) (kept : NewestCheckpoint) (blocks : List Block) (body : SlotBody)
        (r : List ℕ) → 16 ≤ count → length r ≡ 4096 * count → HasNewest r kept
        → Avoids count kept blocks → IsFormat body.format → epoch_after kept ≤ body.epoch
        → body.epoch < 2 ^ 64 → body.first < 2 ^ 64 → body.length < 2 ^ 64
        → newest (finished (target_after kept) blocks body r) ≡ Some (target_after kept, body) }
{}
