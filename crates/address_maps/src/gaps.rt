//! Free pages.

ghost use Rattle.std.specs.Prelude.{◌≡◌, ◌≤◌, ◌<◌, ◌^◌, ◌%◌, ℕ, IfNone, IfSome, All};
ghost use Rattle.address_maps.specs.Gaps.{IsGap, IsFirstGap, IsLowestFree};
ghost use Rattle.address_maps.specs.Mappings.{AreApart, IsMapping};

use crate::cutting::end_of;
use crate::maps::Mapping;

/// The first address of the area from which addresses are given.
const AREA_START: u64 = 0x20_0000_0000;

/// The first address after it.
const AREA_END: u64 = 0x30_0000_0000;

// The lowest address of the area from which on so many bytes are free, wherever the area ends.
fn lowest_free(items: &[Mapping], size: u64) -> u64
    requires each { All IsMapping items.now }
    requires apart { AreApart items.now }
    requires some { 1 ≤ size }
    requires most { size ≤ 2 ^ 36 }
    ensures lowest { IsLowestFree items.now size result }
    ensures within { result ≤ 2 ^ 38 }
{
    let mut low = AREA_START;
    for m in items {
        if low + size <= m.start {
            return low;
        }
        low = low.max(m.start + 4_096 * m.pages);
    }
    low
}

/// The lowest gap of so many pages.
pub(crate) fn first_gap(items: &[Mapping], pages: u64) -> Option<u64>
    requires each { All IsMapping items.now }
    requires apart { AreApart items.now }
    ensures some { IfSome result (IsFirstGap items.now pages) }
    ensures none { IfNone result ((address : ℕ) → IsGap items.now pages address → ⊥) }
{
    if pages == 0 {
        return Some(AREA_START);
    }
    if pages > (AREA_END - AREA_START) / 4_096 {
        return None;
    }
    let low = lowest_free(items, 4_096 * pages);
    if low + 4_096 * pages <= AREA_END {
        Some(low)
    } else {
        None
    }
}
