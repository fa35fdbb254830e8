//! What the images of a commit say, for the layer above.
ghost use Rattle.std.specs.Prelude.{◌≡◌, ◌⊎◌, ◌↔◌, ◌+◌, ◌*◌, ◌^◌, ◌<◌, ◌≤◌, ◌∷◌, ℕ, Bool, List, Some, length, map, slice_index, IsTrue};
ghost use Rattle.std.specs.List.{AllByRecursion};
ghost use Rattle.lists.specs.Bytes.{SameOutside};
ghost use Rattle.ckpt_chain.specs.Slot.{gate_place, IsFormat, open_body, other};
ghost use Rattle.ckpt_chain.specs.declared.slot.Slot.{Slot};
ghost use Rattle.ckpt_chain.specs.declared.slot.SlotBody.{SlotBody};
ghost use Rattle.commit_gate.specs.Commit.{block_range};
ghost use Rattle.commit_gate.specs.Whole.{IsDataBlock, numbers, IsInSteps, IsUnfinished, finished};
ghost use Rattle.commit_gate.specs.declared.whole.Block.{Block};

/// At each step an image is one of a commit that isn't done, or the finished one.
pub fn steps_are_unfinished_or_finished()
    ensures { (target : Slot) (close : Bool) (blocks : List Block) (body : SlotBody) (count : ℕ)
        (r image : List ℕ) → AllByRecursion (IsDataBlock count) blocks → 16 ≤ count
        → length r ≡ 4096 * count → IsTrue close ↔ (slice_index r (gate_place target) ≡ 1)
        → IsInSteps target close blocks body r image
        → IsUnfinished target blocks r image ⊎ (image ≡ finished target blocks body r) }
{}

/// While a commit isn't done the other slot says what it said.
pub fn unfinished_keeps_the_other_slot()
    ensures { (target : Slot) (blocks : List Block) (count : ℕ) (r image : List ℕ)
        → AllByRecursion (IsDataBlock count) blocks → IsUnfinished target blocks r image
        → open_body image (gate_place (other target)) ≡ open_body r (gate_place (other target)) }
{}

/// After a commit of a body of format 1 or 2 the target is open and says the body, the other slot says what it said, and
/// nothing differs but the blocks, the body and the gate.
pub fn finished_opens_the_target()
    ensures target { (target : Slot) (blocks : List Block) (body : SlotBody) (count : ℕ)
        (r : List ℕ) → AllByRecursion (IsDataBlock count) blocks → 16 ≤ count
        → length r ≡ 4096 * count → IsFormat body.format → 1 ≤ body.epoch → body.epoch < 2 ^ 64
        → body.first < 2 ^ 64 → body.length < 2 ^ 64
        → open_body (finished target blocks body r) (gate_place target) ≡ Some body }
    ensures other { (target : Slot) (blocks : List Block) (body : SlotBody) (count : ℕ)
        (r : List ℕ) → AllByRecursion (IsDataBlock count) blocks → 16 ≤ count
        → length r ≡ 4096 * count
        → open_body (finished target blocks body r) (gate_place (other target))
        ≡ open_body r (gate_place (other target)) }
    ensures same { (target : Slot) (blocks : List Block) (body : SlotBody) (count : ℕ)
        (r : List ℕ) → AllByRecursion (IsDataBlock count) blocks → 16 ≤ count
        → length r ≡ 4096 * count
        → SameOutside ((gate_place target + 8, 32) ∷ (gate_place target, 1)
        ∷ map block_range (numbers blocks)) r (finished target blocks body r) }
{}
