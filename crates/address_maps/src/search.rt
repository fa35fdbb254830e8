//! Mappings found by an address.

ghost use Rattle.std.specs.Prelude.{◌≡◌, ◌≤◌, nat_le, IsTrue, All, length};
ghost use Rattle.std.specs.List.{prefix_len};
ghost use Rattle.address_maps.specs.Mappings as of_mappings;
ghost use Rattle.address_maps.specs.Mappings.{AreApart, IsMapping, place_at};

use crate::cutting::end_of;
use crate::maps::{Mapping, Place};

// How many mappings end at an address or before.
fn place_ending_after(items: &[Mapping], address: u64) -> usize
    requires { AreApart items.now }
    ensures place { result ≡ prefix_len (λ m. nat_le (of_mappings.end_of m) address) items.now }
    ensures within { result ≤ length items.now }
{
    items.partition_point(|m| end_of(m) <= u128::from(address))
}

#[tactic(auto, unfolding(crate::specs::Mappings::IsMapping))]
fn place_shown(m: &Mapping, address: u64) -> Place
    requires mapping { IsMapping m.now }
    requires has { IsTrue (of_mappings.has address m.now) }
    ensures { result ≡ of_mappings.place_shown address m.now }
{
    let from = address - m.start;
    Place {
        object: m.object,
        page: m.first + from / 4_096,
        offset: from % 4_096,
        prot: m.prot,
        shared: m.shared,
    }
}

/// What an address shows.
pub(crate) fn find_place(items: &[Mapping], address: u64) -> Option<Place>
    requires each { All IsMapping items.now }
    requires apart { AreApart items.now }
    ensures { result ≡ place_at items.now address }
{
    let place = place_ending_after(items, address);
    if place < items.len() && items[place].start <= address {
        Some(place_shown(&items[place], address))
    } else {
        None
    }
}

/// Whether an address of a mapping is mapped.
pub(crate) fn is_taken(items: &[Mapping], m: &Mapping) -> bool
    requires each { All IsMapping items.now }
    requires apart { AreApart items.now }
    ensures { result ≡ of_mappings.is_taken items.now m.now }
{
    let place = place_ending_after(items, m.start);
    place < items.len() && u128::from(items[place].start) < end_of(m)
}
