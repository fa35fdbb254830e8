//! What remains of mappings when a range of addresses, from `start` up to `end`, is cut.

ghost use Rattle.std.specs.Prelude.{◌≡◌, ◌≤◌, ◌<◌, ◌+◌, false, IsTrue, IsOk, IfSome, IfNone, All, OnErr, OnOk, List, ◌∷◌, ◌++◌, take, drop, length, vec_len, slice_index_or};
ghost use Rattle.std.specs.List.{flat_map};
ghost use Rattle.std.specs.Option.{option_to_list};
ghost use Rattle.std.specs.Vec.{vec_capacity};
ghost use Rattle.address_maps.specs.Mappings as of_mappings;
ghost use Rattle.address_maps.specs.Mappings.{IsMapping};
ghost use Rattle.address_maps.specs.Cut as of_cut;
ghost use Rattle.address_maps.specs.Cut.{remains};

use crate::maps::Mapping;
use lists::NoMemory;

/// The first address after a mapping.
pub(crate) fn end_of(m: &Mapping) -> u128
    ensures { result ≡ of_mappings.end_of m.now }
{
    u128::from(m.start) + 4_096 * u128::from(m.pages)
}

fn touches(m: &Mapping, start: u64, end: u64) -> bool
    ensures { result ≡ of_cut.touches start end m.now }
{
    start < end && m.start < end && u128::from(start) < end_of(m)
}

// Whether the mapping has addresses below the range and above it.
fn holds(m: &Mapping, start: u64, end: u64) -> bool
    ensures { result ≡ of_cut.holds start end m.now }
{
    start < end && m.start < start && u128::from(end) < end_of(m)
}

fn below(m: Mapping, start: u64) -> Mapping
    requires { m.start ≤ start }
    ensures { result ≡ of_cut.below start m }
{
    Mapping {
        pages: (start - m.start) / 4_096,
        ..m
    }
}

#[tactic(auto, unfolding(crate::specs::Mappings::IsMapping))]
fn above(m: Mapping, end: u64) -> Mapping
    requires mapping { IsMapping m }
    requires from { m.start ≤ end }
    requires to { end ≤ of_mappings.end_of m }
    ensures { result ≡ of_cut.above end m }
{
    let gone = (end - m.start) / 4_096;
    Mapping {
        start: end,
        pages: m.pages - gone,
        first: m.first + gone,
        ..m
    }
}

#[tactic(auto, unfolding(crate::specs::Cut::remains))]
fn parts_left(m: &Mapping, start: u64, end: u64) -> u64
    ensures count { result ≡ length (remains start end m.now) }
    ensures most { result ≤ 2 }
{
    if touches(m, start, end) {
        u64::from(m.start < start) + u64::from(u128::from(end) < end_of(m))
    } else {
        1
    }
}

/// How many mappings remain.
pub(crate) fn count_left(items: &[Mapping], start: u64, end: u64) -> u64
    requires { length items.now ≤ 1024 }
    ensures { result ≡ length (flat_map (remains start end) items.now) }
{
    let mut count = 0;
    for m in items {
        count += parts_left(m, start, end);
    }
    count
}

/// The place of the mapping that has addresses below the range and above it.
pub(crate) fn place_holding(items: &[Mapping], start: u64, end: u64) -> Option<usize>
    ensures within { IfSome result (λ place. place < length items.now) }
    ensures some { IfSome result (λ place. (d : Mapping)
        → IsTrue (of_cut.holds start end (slice_index_or items.now place d))) }
    ensures none { IfNone result (All (λ m. of_cut.holds start end m ≡ false) items.now) }
{
    items.iter().position(|m| holds(m, start, end))
}

/// Leaves two parts of the mapping at a place, below the range and above it.
pub(crate) fn split(
    items: &mut Vec<Mapping>,
    place: usize,
    start: u64,
    end: u64,
) -> Result<(), NoMemory>
    requires each { All IsMapping items.old.items }
    requires within { place < length items.old.items }
    requires holds { (d : Mapping)
        → IsTrue (of_cut.holds start end (slice_index_or items.old.items place d)) }
    ensures ok { OnOk result ((d : Mapping) → let m = slice_index_or items.old.items place d in
        items.new.items ≡ take place items.old.items
        ++ (of_cut.below start m ∷ of_cut.above end m ∷ drop (place + 1) items.old.items)) }
    ensures len { OnOk result (vec_len items.new ≡ vec_len items.old + 1) }
    ensures err { OnErr result ((items.new.items ≡ items.old.items)
        × (vec_len items.new ≡ vec_len items.old)
        × (vec_capacity items.new ≡ vec_capacity items.old)) }
    ensures room { vec_len items.old < vec_capacity items.old → IsOk result }
    ensures capacity { vec_capacity items.old ≤ vec_capacity items.new }
{
    items.reserve(1)?;
    let whole = items[place];
    if items.insert(place + 1, above(whole, end)).is_err() {
        return Err(NoMemory);
    }
    items[place] = below(whole, start);
    Ok(())
}

// What remains of a mapping that doesn't hold the range.
fn part_left(m: Mapping, start: u64, end: u64) -> Option<Mapping>
    requires mapping { IsMapping m }
    requires part { of_cut.holds start end m ≡ false }
    ensures { option_to_list result ≡ remains start end m }
{
    if !touches(&m, start, end) {
        Some(m)
    } else if m.start < start {
        Some(below(m, start))
    } else if u128::from(end) < end_of(&m) {
        Some(above(m, end))
    } else {
        None
    }
}

/// Leaves what remains, where no mapping holds the range.
pub(crate) fn trim(items: &mut Vec<Mapping>, start: u64, end: u64)
    requires each { All IsMapping items.old.items }
    requires parts { All (λ m. of_cut.holds start end m ≡ false) items.old.items }
    ensures items { items.new.items ≡ flat_map (remains start end) items.old.items }
    ensures len { vec_len items.new ≤ vec_len items.old }
    ensures capacity { vec_capacity items.new ≡ vec_capacity items.old }
{
    let mut kept = 0;
    for place in 0..items.len() {
        if let Some(part) = part_left(items[place], start, end) {
            items[kept] = part;
            kept += 1;
        }
    }
    items.truncate(kept);
}
