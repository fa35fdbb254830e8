ghost use Rattle.std.specs.Prelude.{◌≡◌, ◌≤◌, ◌<◌, ◌+◌, ◌*◌, ◌%◌, ◌^◌, ◌↔◌, ℕ, [], false, IfNone, IfOk, IfSome, IsErrOf, IsOk, IsTrue, OnErr, OnOk, length};
ghost use Rattle.tables.specs.Rising.{added};
ghost use Rattle.address_maps.specs.Cut as of_cut;
ghost use Rattle.address_maps.specs.Gaps as of_gaps;
ghost use Rattle.address_maps.specs.Gaps.{IsGap, IsFirstGap};
ghost use Rattle.address_maps.specs.Mappings as of_mappings;
ghost use Rattle.address_maps.specs.Mappings.{IsMapping, AreMappings, place_at};
ghost use Rattle.address_maps.specs.declared.refusals.AddRefused.TheVariants.{Overlap, Full as AddFull};
ghost use Rattle.address_maps.specs.declared.refusals.CutRefused.TheVariants.{Full as CutFull};

use crate::cutting::{count_left, place_holding, split, trim};
use crate::gaps;
use crate::maps::{Mapping, Place};
use crate::refusals::{AddRefused, CutRefused};
use crate::search::{find_place, is_taken};
use lists::{NoMemory, Seq};
use std::alloc::Global;
use std::marker::Model;
use tables::insert_in;

/// The mappings of a process: at most 1,024, in rising order of their starts; no two share an
/// address.
#[derive(Debug, Drop)]
pub struct Map {
    items: Vec<Mapping>,
}

impl Model for Map {
    ghost use Rattle.std.specs.Prelude.{◌-◌};
    ghost use Rattle.std.specs.Vec.{vec_len, vec_capacity};
    ghost use Rattle.tables.specs.Rows.{Rows};
    ghost use Rattle.address_maps.specs.Mappings.{AreMappings};
    ghost use Rattle.address_maps.specs.declared.maps.Mapping.{Mapping};

    ghost Value = { Rows Mapping };

    ghost view = { λ m. record {
      entries = m.items.items;
      spare = vec_capacity m.items - vec_len m.items;
    } };

    ghost invariant = { λ m. AreMappings m.items.items };
}

impl Map {
    /// The empty map. It takes no memory until something is added.
    pub fn new(alloc: Global) -> Map
        ensures { result.entries ≡ [] }
    {
        Map {
            items: Vec::new(alloc),
        }
    }

    /// The map of these mappings, which rise and are apart.
    pub fn of(alloc: Global, list: &[Mapping]) -> Result<Map, NoMemory>
        requires { AreMappings list.now }
        ensures { IfOk result (λ map. map.entries ≡ list.now) }
    {
        let items = Vec::from_slice(alloc, list)?;
        Ok(Map { items })
    }

    /// How many mappings there are.
    pub fn len(&self) -> u64
        ensures count { result ≡ length self.now.entries }
        ensures valid { AreMappings self.now.entries }
    {
        self.items.len() as u64
    }

    /// A copy of the mappings, in their order.
    pub fn list(&self, alloc: Global) -> Result<Seq<Mapping>, NoMemory>
        ensures entries { IfOk result (λ list. list ≡ self.now.entries) }
        ensures valid { AreMappings self.now.entries }
    {
        let items = Vec::from_slice(alloc, &self.items)?;
        Ok(Seq::of(items))
    }

    /// Makes room for n more mappings.
    pub fn reserve(&mut self, n: u64) -> Result<(), NoMemory>
        ensures entries { self.new.entries ≡ self.old.entries }
        ensures room { OnOk result (n ≤ self.new.spare) }
        ensures enough { n ≤ self.old.spare → IsOk result }
        ensures kept { self.old.spare ≤ self.new.spare }
        ensures err { OnErr result (self.new ≡ self.old) }
    {
        self.items.reserve(n as usize)?;
        Ok(())
    }

    /// What an address shows.
    pub fn find(&self, address: u64) -> Option<Place>
        ensures { result ≡ place_at self.now.entries address }
    {
        find_place(&self.items, address)
    }

    /// Adds a mapping. It takes no memory where there is room.
    pub fn add(&mut self, m: Mapping) -> Result<(), AddRefused>
        requires { IsMapping m }
        ensures ok { OnOk result (self.new.entries ≡ added (λ n. n.start) self.old.entries m) }
        ensures overlap { IsErrOf result Overlap
            ↔ IsTrue (of_mappings.is_taken self.old.entries m) }
        ensures full { IsErrOf result AddFull
            ↔ ((of_mappings.is_taken self.old.entries m ≡ false)
            × (length self.old.entries ≡ 1024)) }
        ensures err { OnErr result (self.new ≡ self.old) }

        // With room only the first two refusals can come.
        ensures room { of_mappings.is_taken self.old.entries m ≡ false
            → length self.old.entries < 1024 → 1 ≤ self.old.spare → IsOk result }
        ensures spare { self.old.spare ≤ self.new.spare + 1 }
    {
        if is_taken(&self.items, &m) {
            return Err(AddRefused::Overlap);
        }
        if self.items.len() >= 1_024 {
            return Err(AddRefused::Full);
        }
        insert_in(&mut self.items, m)?;
        Ok(())
    }

    /// Cuts so many pages from an address on out of the mappings. At most one mapping is added,
    /// which takes no memory where there is room; where none is added, no memory is taken.
    pub fn cut(&mut self, start: u64, pages: u64) -> Result<(), CutRefused>
        requires at_page { start % 4096 ≡ 0 }
        requires within { start + 4096 * pages ≤ 2 ^ 38 }
        ensures ok { OnOk result (self.new.entries ≡ of_cut.cut self.old.entries start pages) }
        ensures full { IsErrOf result CutFull
            ↔ (1024 < length (of_cut.cut self.old.entries start pages)) }
        ensures err { OnErr result (self.new ≡ self.old) }
        ensures room { let left = length (of_cut.cut self.old.entries start pages) in
            left ≤ 1024 → (length self.old.entries < left → 1 ≤ self.old.spare) → IsOk result }
        ensures spare { self.old.spare ≤ self.new.spare + 1 }
        ensures kept_spare { length (of_cut.cut self.old.entries start pages)
            ≤ length self.old.entries → self.old.spare ≤ self.new.spare }
    {
        if self.left_after(start, pages) > 1_024 {
            return Err(CutRefused::Full);
        }
        let end = start + 4_096 * pages;
        match place_holding(&self.items, start, end) {
            Some(place) => split(&mut self.items, place, start, end)?,
            None => trim(&mut self.items, start, end),
        }
        Ok(())
    }

    /// How many mappings would stand after such a cut.
    pub fn left_after(&self, start: u64, pages: u64) -> u64
        requires at_page { start % 4096 ≡ 0 }
        requires within { start + 4096 * pages ≤ 2 ^ 38 }
        ensures { result ≡ length (of_cut.cut self.now.entries start pages) }
    {
        count_left(&self.items, start, start + 4_096 * pages)
    }

    /// The lowest address of so many free pages in the area from which addresses are given,
    /// 0x2000000000 up to 0x3000000000.
    pub fn first_gap(&self, pages: u64) -> Option<u64>
        ensures computed { result ≡ of_gaps.first_gap self.now.entries pages }
        ensures some { IfSome result (IsFirstGap self.now.entries pages) }
        ensures none { IfNone result ((address : ℕ) → IsGap self.now.entries pages address → ⊥) }
    {
        gaps::first_gap(&self.items, pages)
    }
}
