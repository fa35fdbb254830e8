//! The memory that a process sees: its private objects, and those that processes may share.
ghost use Rattle.std.specs.Prelude.{◌≡◌, ◌≤◌, ◌<◌, ◌+◌, ◌%◌, ◌^◌, ◌↔◌, ℕ, All, IfNone, IfSome, IsOk, IsTrue, OnErr, OnOk, Some, None, false, length, true};
ghost use Rattle.address_maps.specs.Mappings.{AreApart, IsMapping};
ghost use Rattle.group_defs.specs.Reserved.{EachFrom};
ghost use Rattle.proc_lease.specs.Sight.{CanStoreAt, IsSpot, SeenFits, SeenFits-prop, cells_between, is_able, seen_by, with_stored_in};
ghost use Rattle.rv64_isa.specs.Instruction.{calls, instruction};
ghost use Rattle.rv64_isa.specs.Memory.{bytes_with, fetched};
ghost use Rattle.rv64_isa.specs.Numbers.{has_bit};

use crate::objects::{read_from, reserve_at, write_to};
use crate::places::{EXEC, READ, WRITE};
use crate::process::Process;
use address_maps::{Map, Place};
use group_defs::{Fault, OutRefused, UserMem};
use lists::NoMemory;
use rv64_isa::{Act, act_at};
use shadow_chains::FaceTable;

const PAGE: u64 = 4_096;

/// A process that was given back, with the objects that it may share, while it makes a step on both.
#[derive(Drop)]
pub struct CallerMemory {
    pub process: Process,
    pub shared: FaceTable,
    pub ghost fits: { SeenFits (seen_by process shared) } by { SeenFits-prop (seen_by process shared) },
}

/// Where a byte is: its place in an object, and whether processes may share that.
#[derive(Clone, Copy)]
pub struct Spot {
    pub object: u64,
    pub place: u64,
    pub shared: bool,
}

// How many of n bytes from an address on lie in its page.
fn in_page(address: u64, n: u64) -> u64
    ensures within { result ≤ n }
    ensures page { address % 4096 + result ≤ 4096 }
    ensures some { 1 ≤ n → 1 ≤ result }
{
    n.min(PAGE - address % PAGE)
}

fn allows(place: &Place, right: u8) -> bool
    requires { 0 < right }
    ensures { result ≡ has_bit place.now.prot right }
{
    place.prot / right % 2 == 1
}

// Where the byte at an address is, where it has the right.
fn spot_at(map: &Map, right: u8, address: u64) -> Option<Spot>
    requires right { 0 < right }
    requires each { All IsMapping map.now.entries }
    ensures some { IfSome result (λ s. IsSpot map.now.entries right address s.object s.place
        s.shared) }
    ensures none { IfNone result (is_able map.now.entries right address 1 ≡ false) }
{
    match map.find(address) {
        Some(place) => {
            if allows(&place, right) {
                Some(Spot {
                    object: place.object,
                    place: PAGE * place.page + place.offset,
                    shared: place.shared,
                })
            } else {
                None
            }
        }
        None => None,
    }
}

// Whether each of n bytes from an address on has the right.
fn can_access(map: &Map, right: u8, from: u64, n: u64) -> bool
    requires right { 0 < right }
    requires each { All IsMapping map.now.entries }
    requires apart { AreApart map.now.entries }
    ensures { result ≡ is_able map.now.entries right from n }
{
    let mut address = from;
    let mut left = n;
    while left > 0 {
        if spot_at(map, right, address).is_none() {
            return false;
        }
        let size = in_page(address, left);
        address = address.wrapping_add(size);
        left -= size;
    }
    true
}

// Reads bytes of one page, from the private objects or from those that may be shared.
fn read_page(process: &Process, shared: &FaceTable, right: u8, address: u64, into: &mut [u8])
    requires right { 0 < right }
    requires fits { SeenFits (seen_by process.now shared.now) }
    requires some { 1 ≤ length into.old }
    requires within { address % 4096 + length into.old ≤ 4096 }
    requires able { is_able process.now.map.entries right address (length into.old) ≡ true }
    ensures { bytes_with right (cells_between process.now shared.now) address (length into.old)
        ≡ Some into.new }
{
    match spot_at(&process.map, right, address) {
        Some(spot) => {
            if spot.shared {
                read_from(shared, spot.object, spot.place, into)
            } else {
                read_from(&process.faces, spot.object, spot.place, into)
            }
        }
        None => unreachable!(),
    }
}

/// Reads as many bytes as there is room for, where each has the right.
pub fn read_seen(
    process: &Process,
    shared: &FaceTable,
    right: u8,
    from: u64,
    into: &mut [u8],
) -> Result<(), Fault>
    requires right { 0 < right }
    requires fits { SeenFits (seen_by process.now shared.now) }
    ensures ok { OnOk result (bytes_with right (cells_between process.now shared.now) from
        (length into.old) ≡ Some into.new) }
    ensures fault { OnErr result (bytes_with right (cells_between process.now shared.now) from
        (length into.old) ≡ None) }
    ensures err { OnErr result (into.new ≡ into.old) }
{
    if !can_access(&process.map, right, from, into.len() as u64) {
        return Err(Fault);
    }
    let mut done = 0;
    while done < into.len() {
        let address = from.wrapping_add(done as u64);
        let end = done + in_page(address, (into.len() - done) as u64) as usize;
        read_page(process, shared, right, address, &mut into[done..end]);
        done = end;
    }
    Ok(())
}

/// The word at an address, where each of its bytes has EXEC.
pub fn word_at(process: &Process, shared: &FaceTable, pc: u64) -> Option<u32>
    requires { SeenFits (seen_by process.now shared.now) }
    ensures { result ≡ fetched (cells_between process.now shared.now) pc }
{
    let mut low_first = [0; 4];
    match read_seen(process, shared, EXEC, pc, &mut low_first) {
        Ok(()) => Some(u32::from_le_bytes(low_first)),
        Err(Fault) => None,
    }
}

/// Whether the instruction at pc is a system call.
pub fn is_at_call(process: &Process, shared: &FaceTable) -> bool
    requires { SeenFits (seen_by process.now shared.now) }
    ensures { IsTrue result
        ↔ (instruction (cells_between process.now shared.now) process.now.regs ≡ calls) }
{
    match word_at(process, shared, process.regs.pc) {
        Some(word) => matches!(act_at(&process.regs, word), Act::Calls),
        None => false,
    }
}

impl CallerMemory {
    // Makes n bytes of one page ready to be stored.
    fn reserve_page(&mut self, address: u64, n: u64) -> Result<(), NoMemory>
        requires some { 1 ≤ n }
        requires within { address % 4096 + n ≤ 4096 }
        requires able { is_able self.old.process.map.entries 2 address n ≡ true }
        ensures same { seen_by self.new.process self.new.shared
            ≡ seen_by self.old.process self.old.shared }
        ensures kept { (at : ℕ) → CanStoreAt self.old.process self.old.shared at
            → CanStoreAt self.new.process self.new.shared at }
        ensures ok { OnOk result (EachFrom (CanStoreAt self.new.process self.new.shared) address
            n) }
        ensures succeeds { EachFrom (CanStoreAt self.old.process self.old.shared) address n
            → IsOk result }
    {
        match spot_at(&self.process.map, WRITE, address) {
            Some(spot) => {
                if spot.shared {
                    reserve_at(&mut self.shared, spot.object, spot.place, n)
                } else {
                    reserve_at(&mut self.process.faces, spot.object, spot.place, n)
                }
            }
            None => unreachable!(),
        }
    }

    // Stores bytes of one page, for which it is ready.
    fn write_page(&mut self, address: u64, bytes: &[u8])
        requires some { 1 ≤ length bytes.now }
        requires within { address % 4096 + length bytes.now ≤ 4096 }
        requires ready { EachFrom (CanStoreAt self.old.process self.old.shared) address
            (length bytes.now) }
        ensures stored { seen_by self.new.process self.new.shared
            ≡ with_stored_in (seen_by self.old.process self.old.shared) address bytes.now }
        ensures kept { (at : ℕ) → CanStoreAt self.old.process self.old.shared at
            → CanStoreAt self.new.process self.new.shared at }
    {
        match spot_at(&self.process.map, WRITE, address) {
            Some(spot) => {
                if spot.shared {
                    let _ = write_to(&mut self.shared, spot.object, spot.place, bytes);
                } else {
                    let _ = write_to(&mut self.process.faces, spot.object, spot.place, bytes);
                }
            }
            None => unreachable!(),
        }
    }

    // Makes n bytes ready to be stored.
    fn reserve_all(&mut self, to: u64, n: u64) -> Result<(), NoMemory>
        requires { is_able self.old.process.map.entries 2 to n ≡ true }
        ensures same { seen_by self.new.process self.new.shared
            ≡ seen_by self.old.process self.old.shared }
        ensures kept { (at : ℕ) → CanStoreAt self.old.process self.old.shared at
            → CanStoreAt self.new.process self.new.shared at }
        ensures ok { OnOk result (EachFrom (CanStoreAt self.new.process self.new.shared) to n) }
        ensures succeeds { EachFrom (CanStoreAt self.old.process self.old.shared) to n
            → IsOk result }
    {
        let mut done = 0;
        while done < n {
            let address = to.wrapping_add(done);
            let size = in_page(address, n - done);
            self.reserve_page(address, size)?;
            done += size;
        }
        Ok(())
    }

    // Stores bytes for which all pages are ready.
    fn write_all(&mut self, to: u64, bytes: &[u8])
        requires { EachFrom (CanStoreAt self.old.process self.old.shared) to (length bytes.now) }
        ensures stored { seen_by self.new.process self.new.shared
            ≡ with_stored_in (seen_by self.old.process self.old.shared) to bytes.now }
        ensures kept { (at : ℕ) → CanStoreAt self.old.process self.old.shared at
            → CanStoreAt self.new.process self.new.shared at }
    {
        let mut done = 0;
        while done < bytes.len() {
            let address = to.wrapping_add(done as u64);
            let end = done + in_page(address, (bytes.len() - done) as u64) as usize;
            self.write_page(address, &bytes[done..end]);
            done = end;
        }
    }
}

impl UserMem for CallerMemory {
    ghost use Rattle.proc_lease.specs.Sight.{IsStoreReady, SeenObjects, cells_seen, none_stored, seen_by, stored_joined, with_stored_in};
    ghost use Rattle.std.proofs.Common.{refl};

    ghost cells = { λ m. cells_seen (seen_by m.process m.shared) };

    ghost Table = { SeenObjects };

    ghost table = { λ m. seen_by m.process m.shared };

    ghost landed = { λ t to bytes. with_stored_in t to bytes };

    ghost seen = { λ t. cells_seen t };

    ghost cells_are_seen = { λ m. refl };

    ghost landed_none = { λ t to. none_stored t to };

    ghost landed_joined = { λ t to first rest. stored_joined t to first rest };

    ghost is_reserved = { λ m address. IsStoreReady m.process.faces.entries m.shared.entries
        m.process.map.entries address };

    fn fetch(&self, pc: u64) -> Result<u32, Fault> {
        match word_at(&self.process, &self.shared, pc) {
            Some(word) => Ok(word),
            None => Err(Fault),
        }
    }

    fn copy_in(&self, from: u64, into: &mut [u8]) -> Result<(), Fault> {
        read_seen(&self.process, &self.shared, READ, from, into)
    }

    fn reserve(&mut self, to: u64, n: u64) -> Result<(), OutRefused> {
        if !can_access(&self.process.map, WRITE, to, n) {
            return Err(OutRefused::Fault);
        }
        match self.reserve_all(to, n) {
            Ok(()) => Ok(()),
            Err(NoMemory) => Err(OutRefused::NoMemory),
        }
    }

    fn copy_out(&mut self, to: u64, bytes: &[u8]) -> Result<(), OutRefused> {
        if !can_access(&self.process.map, WRITE, to, bytes.len() as u64) {
            return Err(OutRefused::Fault);
        }
        match self.reserve_all(to, bytes.len() as u64) {
            Ok(()) => {
                self.write_all(to, bytes);
                Ok(())
            }
            Err(NoMemory) => Err(OutRefused::NoMemory),
        }
    }
}
