//! What holds of the definitions of cuts and additions, whatever the mappings.

ghost use Rattle.std.specs.Prelude.{◌≡◌, ◌≤◌, ◌<◌, ◌+◌, ◌*◌, ◌%◌, ◌^◌, ◌⊎◌, ◌↔◌, ℕ, List, false, IsSome, IsTrue, None, Some};
ghost use Rattle.tables.specs.Rising.{added};
ghost use Rattle.address_maps.specs.declared.maps.Mapping.{Mapping};
ghost use Rattle.address_maps.specs.Cut.{cut};
ghost use Rattle.address_maps.specs.Mappings.{AreMappings, IsMapping, has, is_taken, mapping_at, place_at, place_shown};

/// A mapping is taken exactly where one of its addresses is mapped.
pub fn taken_is_mapped()
    ensures { (maps : List Mapping) (m : Mapping) → AreMappings maps → IsMapping m
        → IsTrue (is_taken maps m)
        ↔ ((address : ℕ) × IsTrue (has address m) × IsSome (mapping_at maps address)) }
{}

/// After a cut no address of the range is mapped, and every other address shows what it did.
pub fn cut_unmaps_the_range()
    ensures inside { (maps : List Mapping) (start pages address : ℕ) → AreMappings maps
        → start % 4096 ≡ 0 → start + 4096 * pages ≤ 2 ^ 38
        → start ≤ address → address < start + 4096 * pages
        → place_at (cut maps start pages) address ≡ None }
    ensures outside { (maps : List Mapping) (start pages address : ℕ) → AreMappings maps
        → start % 4096 ≡ 0 → start + 4096 * pages ≤ 2 ^ 38
        → (address < start) ⊎ (start + 4096 * pages ≤ address)
        → place_at (cut maps start pages) address ≡ place_at maps address }
{}

/// An address of a mapping that was added shows it, and every other address what it did.
pub fn additions_are_shown()
    ensures inside { (maps : List Mapping) (m : Mapping) (address : ℕ)
        → is_taken maps m ≡ false → IsTrue (has address m)
        → place_at (added (λ n. n.start) maps m) address ≡ Some (place_shown address m) }
    ensures outside { (maps : List Mapping) (m : Mapping) (address : ℕ)
        → is_taken maps m ≡ false → has address m ≡ false
        → place_at (added (λ n. n.start) maps m) address ≡ place_at maps address }
{}
