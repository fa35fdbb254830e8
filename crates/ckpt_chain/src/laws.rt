//! What holds of all images of a disk.
ghost use Rattle.std.specs.Prelude.{◌≡◌, ℕ, List, Some};
ghost use Rattle.ckpt_chain.specs.declared.slot.SlotBody.{SlotBody};
ghost use Rattle.ckpt_chain.specs.Chain.{stream_at, SameBlocks};

/// A stream is read as before where the blocks of its chain are as before.
pub fn kept_is_read()
    ensures { (old new : List ℕ) (count : ℕ) (body : SlotBody) (bytes blocks : List ℕ)
        → stream_at old count body ≡ Some (bytes, blocks) → SameBlocks old new blocks
        → stream_at new count body ≡ Some (bytes, blocks) }
{}
