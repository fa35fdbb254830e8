//! The memory of the process that runs.
ghost use Rattle.std.specs.Prelude.{◌≡◌, ◌<◌, ◌≤◌, ◌+◌, ◌*◌, ◌++◌, ◌^◌, ℕ, List, IfOk, IfNone, IfSome, MatchOption, length, slice_index_or, is_some, take};
ghost use Rattle.std.specs.List.Sorted.{IsPartitionPoint};
ghost use Rattle.std.specs.Option.{option_map};
ghost use Rattle.rv64_isa.specs.Memory.{byte_with, bytes_with, fetched, readable};
ghost use Rattle.rv64_isa.specs.Numbers.{number_of};
ghost use Rattle.group_defs.specs.Cells.{bytes_in, cells_of, with_byte_at, with_stored};
ghost use Rattle.address_maps.specs.Mappings.{mapping_at, AreApart};
ghost use Rattle.tables.specs.Rising.{Rise};
ghost use Rattle.flat_kernel.specs.Memory.{ArePlaces, IsMappedByte, TableFits, TableFits-prop, memory_in};

use crate::mapped_byte::MappedByte;
use group_defs::Mapping;
use lists::{NoMemory, Seq};
use rv64_core::Space;
use std::alloc::Global;

const READ: u8 = 1;

const WRITE: u8 = 2;

const EXEC: u8 = 4;

/// The mappings of a process, and the objects that they show: each object's number and bytes, in the frame's order.
#[derive(Drop)]
pub struct ProcessMemory {
    pub maps: Seq<Mapping>,
    pub objects: Vec<(u64, Vec<u8>)>,
    // beside each mapping the place of its object
    places: Vec<usize>,
    pub ghost fits: { TableFits (memory_in objects.items) maps } by { TableFits-prop (memory_in objects.items) maps },
    pub ghost found: { ArePlaces (memory_in objects.items) maps places.items },
}

// How many mappings start at an address or before it.
fn starting_by(maps: &[Mapping], address: u64) -> usize
    requires { AreApart maps.now }
    ensures within { result ≤ length maps.now }
    ensures point { IsPartitionPoint (λ m. m.start ≤ address)
        (λ m. address < m.start) maps.now result }
{
    maps.partition_point(|map| map.start <= address)
}

// The place of the object of this number, which has bytes.
fn place_of(objects: &[(u64, Vec<u8>)], number: u64) -> usize
    requires rise { Rise (λ o. o.0) (memory_in objects.now) }
    requires some { 0 < length (bytes_in (memory_in objects.now) number) }
    ensures within { result < length (memory_in objects.now) }
    ensures number { (o : ℕ × List ℕ) → (slice_index_or (memory_in objects.now) result o).0
        ≡ number }
{
    objects.partition_point(|object| object.0 < number)
}

fn places_of(
    alloc: Global,
    maps: &[Mapping],
    objects: &[(u64, Vec<u8>)],
) -> Result<Vec<usize>, NoMemory>
    requires { TableFits (memory_in objects.now) maps.now }
    ensures { IfOk result (λ places. ArePlaces (memory_in objects.now) maps.now places.items) }
{
    let mut places = Vec::new(alloc);
    for map in maps {
        places.push(place_of(objects, map.object))?;
    }
    Ok(places)
}

// The number that up to 8 bytes spell, low first.
fn number_in(bytes: &[u8]) -> u64
    requires { length bytes.now ≤ 8 }
    ensures value { result ≡ number_of bytes.now }
    ensures range { result < 2 ^ (8 * length bytes.now) }
{
    let mut low_first = [0; 8];
    low_first[..bytes.len()].copy_from_slice(bytes);
    u64::from_le_bytes(low_first)
}

// The number that four bytes spell, low first, by one read.
#[inline(always)]
fn word_in(bytes: &[u8]) -> u32
    requires { length bytes.now ≡ 4 }
    ensures { result ≡ number_of bytes.now }
{
    u32::from_le_bytes([bytes[0], bytes[1], bytes[2], bytes[3]])
}

impl ProcessMemory {
    /// The memory of these mappings and objects. It takes memory for one number a mapping.
    pub fn of(
        alloc: Global,
        maps: Seq<Mapping>,
        objects: Vec<(u64, Vec<u8>)>,
    ) -> Result<ProcessMemory, NoMemory>
        requires { TableFits (memory_in objects.items) maps }
        ensures maps { IfOk result (λ memory. memory.maps ≡ maps) }
        ensures objects { IfOk result (λ memory. memory.objects.items ≡ objects.items) }
    {
        let places = places_of(alloc, maps.as_slice(), &objects)?;
        Ok(ProcessMemory {
            maps,
            objects,
            places,
        })
    }

    /// The mappings, and the objects with what was stored in them.
    pub fn into_parts(self) -> (Seq<Mapping>, Vec<(u64, Vec<u8>)>)
        ensures maps { result.0 ≡ self.maps }
        ensures objects { result.1.items ≡ self.objects.items }
    {
        let ProcessMemory { maps, objects, .. } = self;
        (maps, objects)
    }

    // Where the byte at an address lies; none where no mapping has the address.
    fn mapped_byte_at(&self, address: u64) -> Option<MappedByte>
        ensures some { IfSome result (IsMappedByte (memory_in self.now.objects.items) self.now.maps
            address) }
        ensures none { IfNone result (mapping_at self.now.maps address ≡ None) }
    {
        let maps = self.maps.as_slice();
        let after = starting_by(maps, address);
        if after == 0 {
            return None;
        }
        let map = &maps[after - 1];
        let from_start = address - map.start;
        let size = 4096 * map.pages;
        if from_start >= size {
            return None;
        }
        Some(MappedByte {
            rights: map.prot,
            object: self.places[after - 1],
            place: (4096 * map.first + from_start) as usize,
            room: size - from_start,
        })
    }

    // The bytes from an address on that have the right: n, or as many as the first mapping has; none where the first byte
    // hasn't it.
    fn part(&self, right: u8, address: u64, n: u64) -> Option<&[u8]>
        requires right { 0 < right }
        requires some { 1 ≤ n }
        ensures some { IfSome result (λ bytes. bytes_with right
            (cells_of (memory_in self.now.objects.items) self.now.maps) address (length bytes.now)
            ≡ Some bytes.now) }
        ensures size { IfSome result (λ bytes. (1 ≤ length bytes.now) × (length bytes.now ≤ n)) }
        ensures end { IfSome result (λ bytes. address + length bytes.now ≤ 2 ^ 38) }
        ensures none { IfNone result (byte_with right
            (cells_of (memory_in self.now.objects.items) self.now.maps) address ≡ None) }
    {
        let mapped = self.mapped_byte_at(address)?;
        if !mapped.allows(right) {
            return None;
        }
        let size = n.min(mapped.room) as usize;
        Some(&self.objects[mapped.object].1[mapped.place..mapped.place + size])
    }

    // The number in n bytes, where each has the right.
    fn number(&self, right: u8, address: u64, n: u8) -> Option<u64>
        requires right { 0 < right }
        requires some { 1 ≤ n }
        requires size { n ≤ 8 }
        ensures value { result ≡ option_map number_of
            (bytes_with right (cells_of (memory_in self.now.objects.items) self.now.maps) address
            n) }
        ensures range { IfSome result (λ v. v < 2 ^ (8 * n)) }
    {
        let bytes = self.part(right, address, u64::from(n))?;
        if bytes.len() == usize::from(n) {
            Some(number_in(bytes))
        } else {
            self.number_across(right, address, n)
        }
    }

    // The same, byte by byte, since no mapping has all of them.
    fn number_across(&self, right: u8, address: u64, n: u8) -> Option<u64>
        requires right { 0 < right }
        requires size { n ≤ 8 }
        ensures value { result ≡ option_map number_of
            (bytes_with right (cells_of (memory_in self.now.objects.items) self.now.maps) address
            n) }
        ensures range { IfSome result (λ v. v < 2 ^ (8 * n)) }
    {
        if n == 0 {
            return Some(0);
        }
        let low = *self.part(right, address, 1)?.first()?;
        let high = self.number_across(right, address.wrapping_add(1), n - 1)?;
        Some(u64::from(low) + high * 256)
    }

    /// The word at pc; none where one of its four bytes isn't mapped or lacks EXEC.
    pub fn word_at(&self, pc: u64) -> Option<u32>
        ensures { result ≡ fetched
            (cells_of (memory_in self.now.objects.items) self.now.maps) pc }
    {
        match self.part(EXEC, pc, 4) {
            Some(bytes) => if bytes.len() == 4 {
                Some(word_in(bytes))
            } else {
                self.word_across(pc)
            },
            None => None,
        }
    }

    // The same, byte by byte, since no mapping has all of them.
    fn word_across(&self, pc: u64) -> Option<u32>
        ensures { result ≡ fetched
            (cells_of (memory_in self.now.objects.items) self.now.maps) pc }
    {
        match self.number_across(EXEC, pc, 4) {
            Some(word) => Some(word as u32),
            None => None,
        }
    }

    // Stores bytes at a mapped of a mapping that has all of them.
    fn land(&mut self, mapped: MappedByte, new: &[u8])
        requires within { mapped.object < length (memory_in self.old.objects.items) }
        requires inside { (o : ℕ × List ℕ) → mapped.place + length new.now
            ≤ length (slice_index_or (memory_in self.old.objects.items) mapped.object o).1 }
        ensures maps { self.new.maps ≡ self.old.maps }
        ensures stored { (address : ℕ) → IsMappedByte (memory_in self.old.objects.items)
            self.old.maps address mapped → length new.now ≤ mapped.room
            → memory_in self.new.objects.items ≡ with_stored (memory_in self.old.objects.items)
            self.old.maps address new.now }
    {
        let object = &mut self.objects[mapped.object].1;
        object[mapped.place..mapped.place + new.len()].copy_from_slice(new);
    }

    // Stores a byte, where a mapping has the address.
    fn land_one(&mut self, address: u64, byte: u8)
        ensures maps { self.new.maps ≡ self.old.maps }
        ensures stored { memory_in self.new.objects.items
            ≡ with_byte_at (memory_in self.old.objects.items) (mapping_at self.old.maps address)
            address byte }
    {
        if let Some(mapped) = self.mapped_byte_at(address) {
            self.land(mapped, &[byte]);
        }
    }

    // Stores bytes one after another.
    fn land_across(&mut self, address: u64, new: &[u8])
        ensures maps { self.new.maps ≡ self.old.maps }
        ensures stored { memory_in self.new.objects.items
            ≡ with_stored (memory_in self.old.objects.items) self.old.maps address new.now }
    {
        match new {
            [] => {}
            [first, rest @ ..] => {
                self.land_one(address, *first);
                self.land_across(address.wrapping_add(1), rest);
            }
        }
    }

    // Whether each of n bytes can be read.
    fn can_read(&self, address: u64, n: u64) -> bool
        ensures { result ≡ is_some (readable
            (cells_of (memory_in self.now.objects.items) self.now.maps) address n) }
    {
        let mut at = address;
        let mut left = n;
        while left > 0 {
            match self.part(READ, at, left) {
                Some(bytes) => {
                    at += bytes.len() as u64;
                    left -= bytes.len() as u64;
                }
                None => return false,
            }
        }
        true
    }

    /// Appends the n bytes from an address on, where each can be read; false, and nothing is appended, where one can't.
    /// Where memory runs out, some of them may have been appended.
    pub fn readable_into(&self, address: u64, n: u64, out: &mut Seq<u8>) -> Result<bool, NoMemory>
        ensures able { IfOk result (λ able. able
            ≡ is_some (readable (cells_of (memory_in self.now.objects.items) self.now.maps) address
            n)) }
        ensures bytes { IfOk result (λ able. MatchOption
            (readable (cells_of (memory_in self.now.objects.items) self.now.maps) address n)
            (out.new ≡ out.old) (λ bytes. out.new ≡ out.old ++ bytes)) }
        ensures kept { take (length out.old) out.new ≡ out.old }
    {
        if !self.can_read(address, n) {
            return Ok(false);
        }
        let mut at = address;
        let mut left = n;
        while left > 0 {
            match self.part(READ, at, left) {
                Some(bytes) => {
                    out.append(bytes)?;
                    at += bytes.len() as u64;
                    left -= bytes.len() as u64;
                }
                None => unreachable!(),
            }
        }
        Ok(true)
    }
}

impl Space for ProcessMemory {
    ghost use Rattle.std.specs.Prelude.{ℕ, List};
    ghost use Rattle.address_maps.specs.declared.maps.Mapping.{Mapping};
    ghost use Rattle.group_defs.specs.Cells.{cells_of, with_stored};
    ghost use Rattle.flat_kernel.specs.Memory.{cells_private, memory_in};

    ghost cells = { λ s. cells_of (memory_in s.objects.items) s.maps };

    ghost Table = { List (ℕ × List ℕ) × List Mapping };

    ghost table = { λ s. (memory_in s.objects.items, s.maps) };

    ghost landed = { λ t address bytes. (with_stored t.0 t.1 address bytes, t.1) };

    ghost all_private = { λ s address. cells_private (memory_in s.objects.items) s.maps s.fits
        address };

    fn fetch(&mut self, pc: u64) -> Option<u32> {
        self.word_at(pc)
    }

    fn load(&mut self, address: u64, n: u8) -> Option<u64> {
        self.number(READ, address, n)
    }

    fn store(&mut self, address: u64, n: u8, value: u64) -> Result<bool, NoMemory> {
        let low_first = value.to_le_bytes();
        let new = &low_first[..usize::from(n)];
        let mapped = match self.mapped_byte_at(address) {
            Some(mapped) if mapped.allows(WRITE) => mapped,
            _ => return Ok(false),
        };
        if u64::from(n) <= mapped.room {
            self.land(mapped, new);
            return Ok(true);
        }
        if self.number_across(WRITE, address, n).is_none() {
            return Ok(false);
        }
        self.land_across(address, new);
        Ok(true)
    }
}
