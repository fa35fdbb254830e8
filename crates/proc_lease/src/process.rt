//! A process with its private part.
ghost use Rattle.std.specs.Prelude.{◌≡◌, ◌<◌, ◌≤◌, ◌+◌, ◌*◌, ◌%◌, ◌^◌, IfOk, OnErr, IfSome, IsOk, IsTrue, MatchBool, length};
ghost use Rattle.std.specs.Option.{option_map};
ghost use Rattle.rv64_isa.specs.Memory.{bytes_with, can_write};
ghost use Rattle.rv64_isa.specs.Numbers.{number_of};
ghost use Rattle.proc_lease.specs.Private.{private_in, stored_into, views_of, IsPageReady, PrivateFits, PrivateFits-prop, StaysReady};

use crate::objects::{number_at, reserve_at, write_to};
use crate::places::{EXEC, READ, WRITE, private_place};
use address_maps::Map;
use lists::NoMemory;
use rv64_core::{Regs, Space};
use shadow_chains::FaceTable;

const PAGE: u64 = 4_096;

/// A process that was taken out of its group: its registers, its mappings, and a face for each private object that
/// they show.
#[derive(Drop)]
pub struct Process {
    pub regs: Regs,
    pub map: Map,
    pub faces: FaceTable,
    pub ghost fits: { PrivateFits (views_of faces.entries) map.entries } by { PrivateFits-prop (views_of faces.entries) map.entries },
}

impl Process {
    // The number in n bytes of one page, where each has the right.
    fn number_in_page(&self, right: u8, address: u64, n: u8) -> Option<u64>
        requires right { 0 < right }
        requires some { 1 ≤ n }
        requires size { n ≤ 8 }
        requires within { address % 4096 + n ≤ 4096 }
        ensures value { result ≡ option_map number_of (bytes_with right
            (private_in (views_of self.now.faces.entries) self.now.map.entries) address n) }
        ensures range { IfSome result (λ v. v < 2 ^ (8 * n)) }
    {
        match private_place(&self.map, right, address) {
            Some(place) => {
                let at = PAGE * place.page + place.offset;
                Some(number_at(&self.faces, place.object, at, n))
            }
            None => None,
        }
    }

    // The number in n bytes, where each has the right: at once in one page, else byte by byte up to the page's end.
    fn number(&self, right: u8, address: u64, n: u8) -> Option<u64>
        requires right { 0 < right }
        requires size { n ≤ 8 }
        ensures value { result ≡ option_map number_of (bytes_with right
            (private_in (views_of self.now.faces.entries) self.now.map.entries) address n) }
        ensures range { IfSome result (λ v. v < 2 ^ (8 * n)) }
    {
        if n == 0 {
            return Some(0);
        }
        if address % PAGE + u64::from(n) <= PAGE {
            return self.number_in_page(right, address, n);
        }
        match self.number_in_page(right, address, 1) {
            None => None,
            Some(low) => match self.number(right, address.wrapping_add(1), n - 1) {
                None => None,
                Some(high) => Some(low + high * 256),
            },
        }
    }

    // Whether n bytes can be stored at an address.
    fn can_store(&self, address: u64, n: u8) -> bool
        requires { n ≤ 8 }
        ensures { result ≡ can_write
            (private_in (views_of self.now.faces.entries) self.now.map.entries) address n }
    {
        self.number(WRITE, address, n).is_some()
    }

    // Makes n bytes of a page ready to be stored; false where one can't be.
    fn reserve(&mut self, address: u64, n: u64) -> Result<bool, NoMemory>
        requires some { 1 ≤ n }
        requires within { address % 4096 + n ≤ 4096 }
        ensures map { self.new.map.entries ≡ self.old.map.entries }
        ensures same { views_of self.new.faces.entries ≡ views_of self.old.faces.entries }
        ensures stays { StaysReady self.old.faces.entries self.new.faces.entries }
        ensures able { IfOk result (λ able. able ≡ can_write
            (private_in (views_of self.old.faces.entries) self.old.map.entries) address n) }
        ensures able_first { OnErr result (IsTrue (can_write
            (private_in (views_of self.old.faces.entries) self.old.map.entries) address n)) }
        ensures ready { IfOk result (λ able. IsTrue able
            → IsPageReady self.new.faces.entries self.old.map.entries address n) }
    {
        match private_place(&self.map, WRITE, address) {
            Some(place) => {
                let at = PAGE * place.page + place.offset;
                match reserve_at(&mut self.faces, place.object, at, n) {
                    Ok(()) => Ok(true),
                    Err(NoMemory) => Err(NoMemory),
                }
            }
            None => Ok(false),
        }
    }

    // Stores bytes into a page; false, and nothing is stored, where one can't be.
    fn store_in_page(&mut self, address: u64, new: &[u8]) -> Result<bool, NoMemory>
        requires some { 1 ≤ length new.now }
        requires within { address % 4096 + length new.now ≤ 4096 }
        ensures map { self.new.map.entries ≡ self.old.map.entries }
        ensures able { IfOk result (λ able. able ≡ can_write
            (private_in (views_of self.old.faces.entries) self.old.map.entries) address
            (length new.now)) }
        ensures stored { IfOk result (λ able. MatchBool able
            (views_of self.new.faces.entries
            ≡ stored_into (views_of self.old.faces.entries) self.old.map.entries address new.now)
            (views_of self.new.faces.entries ≡ views_of self.old.faces.entries)) }
        ensures able_first { OnErr result (IsTrue (can_write
            (private_in (views_of self.old.faces.entries) self.old.map.entries) address
            (length new.now))) }
        ensures err { OnErr result
            (views_of self.new.faces.entries ≡ views_of self.old.faces.entries) }
        ensures stays { StaysReady self.old.faces.entries self.new.faces.entries }
        ensures succeeds { IsPageReady self.old.faces.entries self.old.map.entries address
            (length new.now) → IsOk result }
    {
        match private_place(&self.map, WRITE, address) {
            Some(place) => {
                let at = PAGE * place.page + place.offset;
                match write_to(&mut self.faces, place.object, at, new) {
                    Ok(()) => Ok(true),
                    Err(NoMemory) => Err(NoMemory),
                }
            }
            None => Ok(false),
        }
    }

    // Stores bytes into a page, for which it is ready.
    fn store_ready(&mut self, address: u64, new: &[u8])
        requires some { 1 ≤ length new.now }
        requires within { address % 4096 + length new.now ≤ 4096 }
        requires able { IsTrue (can_write
            (private_in (views_of self.old.faces.entries) self.old.map.entries) address
            (length new.now)) }
        requires ready { IsPageReady self.old.faces.entries self.old.map.entries address
            (length new.now) }
        ensures map { self.new.map.entries ≡ self.old.map.entries }
        ensures stored { views_of self.new.faces.entries
            ≡ stored_into (views_of self.old.faces.entries) self.old.map.entries address new.now }
        ensures stays { StaysReady self.old.faces.entries self.new.faces.entries }
    {
        let _stored = self.store_in_page(address, new);
    }

    // Stores bytes over the end of a page. Both pages are made ready before a byte is stored.
    fn store_across(&mut self, address: u64, new: &[u8]) -> Result<bool, NoMemory>
        requires size { length new.now ≤ 8 }
        requires across { 4096 < address % 4096 + length new.now }
        ensures map { self.new.map.entries ≡ self.old.map.entries }
        ensures able { IfOk result (λ able. able ≡ can_write
            (private_in (views_of self.old.faces.entries) self.old.map.entries) address
            (length new.now)) }
        ensures stored { IfOk result (λ able. MatchBool able
            (views_of self.new.faces.entries
            ≡ stored_into (views_of self.old.faces.entries) self.old.map.entries address new.now)
            (views_of self.new.faces.entries ≡ views_of self.old.faces.entries)) }
        ensures able_first { OnErr result (IsTrue (can_write
            (private_in (views_of self.old.faces.entries) self.old.map.entries) address
            (length new.now))) }
        ensures err { OnErr result
            (views_of self.new.faces.entries ≡ views_of self.old.faces.entries) }
    {
        if !self.can_store(address, new.len() as u8) {
            return Ok(false);
        }
        let size = PAGE - address % PAGE;
        let (front, back) = new.split_at(size as usize);
        let next = address.wrapping_add(size);
        self.reserve(address, front.len() as u64)?;
        self.reserve(next, back.len() as u64)?;
        self.store_ready(address, front);
        self.store_ready(next, back);
        Ok(true)
    }

    fn store_bytes(&mut self, address: u64, new: &[u8]) -> Result<bool, NoMemory>
        requires some { 1 ≤ length new.now }
        requires size { length new.now ≤ 8 }
        ensures map { self.new.map.entries ≡ self.old.map.entries }
        ensures able { IfOk result (λ able. able ≡ can_write
            (private_in (views_of self.old.faces.entries) self.old.map.entries) address
            (length new.now)) }
        ensures stored { IfOk result (λ able. MatchBool able
            (views_of self.new.faces.entries
            ≡ stored_into (views_of self.old.faces.entries) self.old.map.entries address new.now)
            (views_of self.new.faces.entries ≡ views_of self.old.faces.entries)) }
        ensures able_first { OnErr result (IsTrue (can_write
            (private_in (views_of self.old.faces.entries) self.old.map.entries) address
            (length new.now))) }
        ensures err { OnErr result
            (views_of self.new.faces.entries ≡ views_of self.old.faces.entries) }
    {
        if address % PAGE + new.len() as u64 <= PAGE {
            self.store_in_page(address, new)
        } else {
            self.store_across(address, new)
        }
    }
}

impl Space for Process {
    ghost use Rattle.std.specs.Prelude.{List};
    ghost use Rattle.address_maps.specs.declared.maps.Mapping.{Mapping};
    ghost use Rattle.proc_lease.specs.Private.{ObjectView, all_private, private_in, stored_into, views_of};

    ghost cells = { λ s. private_in (views_of s.faces.entries) s.map.entries };

    ghost Table = { List ObjectView × List Mapping };

    ghost table = { λ s. (views_of s.faces.entries, s.map.entries) };

    ghost landed = { λ t address bytes. (stored_into t.0 t.1 address bytes, t.1) };

    ghost all_private = { λ s address. all_private (views_of s.faces.entries) s.map.entries
        address };

    fn fetch(&mut self, pc: u64) -> Option<u32> {
        match self.number(EXEC, pc, 4) {
            Some(word) => Some(word as u32),
            None => None,
        }
    }

    fn load(&mut self, address: u64, n: u8) -> Option<u64> {
        self.number(READ, address, n)
    }

    fn store(&mut self, address: u64, n: u8, value: u64) -> Result<bool, NoMemory> {
        let low_first = value.to_le_bytes();
        self.store_bytes(address, &low_first[..usize::from(n)])
    }
}
