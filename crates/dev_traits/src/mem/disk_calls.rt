ghost use Rattle.std.specs.Prelude.{◌≡◌, ◌⊎◌, ◌↔◌, ◌+◌, ◌-◌, ◌*◌, ◌<◌, ◌≤◌, ◌∷◌, ℕ, List, length, drop, slice_range, true, false, OnOk, OnErr, IfOk, IsErr, IsTrue, Some, is_ok, is_err};
ghost use Rattle.std.specs.Option.{ForSome};
ghost use Rattle.lists.specs.Bytes.{put};
ghost use Rattle.dev_traits.specs.Counts.{HasCause, one_more, one_more_if};
ghost use Rattle.dev_traits.specs.Commits.{wrote, synced, unchanged};
ghost use Rattle.dev_traits.specs.Disk.{Passes, NoMore, NoLess, Torn, OnlyReading, Puts, Tears, CommitsBy};
ghost use Rattle.dev_traits.specs.Record.{read_call, write_call, sync_call, image_in, Notes, NotesWrite};
ghost use Rattle.dev_traits.specs.Lost.{lost_ranges};
ghost use Rattle.dev_traits.specs.MemDisk.{disk_view, disk_calls, room_of, disk_failing, start_of, is_refused_next, IsNewDisk, IsSameDisk, KeepsRecord};

use crate::disk::{Disk, Failed};
use crate::mem::disk::MemDisk;
use crate::mem::lost::Lost;
use crate::mem::raised;
use crate::mem::record::{Fill, Record, copy_of, overlay};
use lists::NoMemory;
use std::alloc::Global;
use std::snapshot::Snapshot;

impl MemDisk {
    /// A disk with these bytes, as far as they are whole blocks, and memory for a record of so many calls.
    pub fn of(alloc: Global, bytes: Vec<u8>, room: u64) -> Result<MemDisk, NoMemory>
        ensures { IfOk result (λ disk. IsNewDisk disk bytes.items room) }
    {
        let mut bytes = bytes;
        let blocks = bytes.len() / 4096;
        bytes.truncate(4096 * blocks);
        let start = copy_of(alloc, &bytes)?;
        let calls = Record::of(alloc, bytes.len() as u64, room)?;
        Ok(MemDisk {
            blocks: blocks as u64,
            start,
            bytes,
            calls,
            lost: Lost::Nothing,
            failing: Vec::new(alloc),
            faults: 0,
            writes: 0,
        })
    }

    /// The same disk, whose calls of these numbers, from 1, fail.
    pub fn failing(self, calls: Vec<u64>) -> MemDisk
        ensures failing { disk_failing result ≡ calls.items }
        ensures same { IsSameDisk self result }
    {
        let mut disk = self;
        disk.failing = calls;
        disk
    }

    /// What a read gives.
    pub fn bytes(&self) -> &[u8]
        ensures reading { (disk_view self.now).reading ≡ Some result.now }
        ensures whole { length result.now ≡ 4096 * (disk_view self.now).blocks }
    {
        &self.bytes
    }

    /// What a stop within the call of this number leaves, with each pending range as the fill has it.
    pub fn image(&self, alloc: Global, call: u64, fill: Fill) -> Result<Vec<u8>, NoMemory>
        requires { (1 ≤ call) × (call ≤ length (disk_calls self.now)) }
        ensures image { IfOk result
            (λ image. image.items
            ≡ image_in fill (start_of self.now)
            (drop (length (disk_calls self.now) - call) (disk_calls self.now))) }
        ensures left { IfOk result (λ image. (disk_view self.now).left (call - 1) image.items) }
    {
        let image = self.calls.image(alloc, &self.start, call, fill)?;
        Ok(image)
    }

    // Whether the next call fails.
    fn refuses(&self) -> bool
        ensures { result ≡ is_refused_next self.now }
    {
        match self.calls.next() {
            None => true,
            Some(number) => self.failing.contains(&number),
        }
    }
}

fn overwrite(bytes: &mut Vec<u8>, place: u64, written: &[u8])
    requires { place + length written.now ≤ length bytes.old.items }
    ensures { bytes.new.items ≡ put bytes.old.items place written.now }
{
    overlay(bytes, place as usize, written);
}

// A call that writes nothing joins the record, where there is room.
fn note_read(calls: &mut Record)
    ensures { Notes read_call calls.old calls.new }
{
    if !calls.is_full() {
        calls.add_read();
    }
}

fn note_sync(calls: &mut Record, done: bool)
    ensures { Notes (sync_call done) calls.old calls.new }
{
    if !calls.is_full() {
        calls.add_sync(done);
    }
}

// A write joins the record, or the ranges that were lost above its room.
fn note_write(calls: &mut Record, lost: &mut Lost, place: u64, bytes: &[u8], done: bool)
    requires within { place + length bytes.now ≤ calls.old.size }
    requires few { length bytes.now ≤ 4096 }
    ensures { NotesWrite place bytes.now done calls.old calls.new (lost_ranges lost.old)
        (lost_ranges lost.new) }
{
    if calls.is_full() {
        let size = bytes.len() as u64;
        let before = Snapshot::of(lost);
        *lost = Lost::Write {
            place,
            size,
            before,
        };
    } else {
        calls.add_write(place, bytes, done);
    }
}

impl Disk for MemDisk {
    ghost use Rattle.dev_traits.specs.RecordLaws.{reading_law, fewer_since};

    ghost view = { disk_view };

    ghost reading_left = { λ d. reading_law d.blocks d.start.items d.bytes.items
        (lost_ranges d.lost) d.calls.events d.whole d.fits d.apart };

    ghost fewer_later = { λ d t u image le left. fewer_since d.blocks d.start.items
        (lost_ranges d.lost) d.calls.events t u image le left };

    ghost image_size = { λ d t image left. left.0.0 };

    ghost image_bytes = { λ d t image left. left.0.1 };

    fn blocks(&self) -> u64 {
        self.blocks
    }

    fn moment(&self) -> u64 {
        self.calls.len()
    }

    fn read_at(&mut self, place: u64, into: &mut [u8]) -> Result<(), Failed>
        requires { place + length into.old ≤ 4096 * (disk_view self.old).blocks }
        ensures bytes { OnOk result
            (ForSome (disk_view self.old).reading
            (λ r. into.new ≡ slice_range r place (place + length into.old))) }
        ensures reading { (disk_view self.new).reading ≡ (disk_view self.old).reading }
        ensures no_more { NoMore (disk_view self.old) (disk_view self.new) }
        ensures no_less { NoLess (disk_view self.old) (disk_view self.new) }
        ensures time { Passes (disk_view self.old) (disk_view self.new) }
        ensures commits { CommitsBy unchanged (disk_view self.old) (disk_view self.new) }
        ensures blocks { (disk_view self.new).blocks ≡ (disk_view self.old).blocks }
        ensures writes { (disk_view self.new).writes ≡ (disk_view self.old).writes }
        ensures faults { HasCause (disk_view self.old).faults (disk_view self.new).faults
            (IsErr result) }
        ensures counted { (disk_view self.new).faults
            ≡ one_more_if (is_err result) (disk_view self.old).faults }
        ensures refused { IsErr result ↔ IsTrue (is_refused_next self.old) }
        ensures keeps { KeepsRecord self.old self.new }
        ensures recorded { length (disk_calls self.old) < room_of self.old
            → disk_calls self.new ≡ read_call ∷ disk_calls self.old }
    {
        let refused = self.refuses();
        note_read(&mut self.calls);
        if refused {
            self.faults = raised(self.faults);
            return Err(Failed);
        }
        let from = place as usize;
        into.copy_from_slice(&self.bytes[from..from + into.len()]);
        Ok(())
    }

    fn write_at(&mut self, place: u64, bytes: &[u8]) -> Result<(), Failed>
        requires within { place + length bytes.now ≤ 4096 * (disk_view self.old).blocks }
        requires few { length bytes.now ≤ 4096 }
        ensures ok { OnOk result (Puts place bytes.now (disk_view self.old) (disk_view self.new)) }
        ensures err { OnErr result
            (Tears place (length bytes.now) (disk_view self.old) (disk_view self.new)) }
        ensures torn { Torn place (length bytes.now) (disk_view self.old) (disk_view self.new) }
        ensures time { Passes (disk_view self.old) (disk_view self.new) }
        ensures commits { OnOk result
            (CommitsBy (wrote place bytes.now) (disk_view self.old) (disk_view self.new)) }
        ensures commits_err { OnErr result
            (CommitsBy unchanged (disk_view self.old) (disk_view self.new)) }
        ensures blocks { (disk_view self.new).blocks ≡ (disk_view self.old).blocks }
        ensures writes { (disk_view self.new).writes ≡ one_more (disk_view self.old).writes }
        ensures faults { HasCause (disk_view self.old).faults (disk_view self.new).faults
            (IsErr result) }
        ensures counted { (disk_view self.new).faults
            ≡ one_more_if (is_err result) (disk_view self.old).faults }
        ensures refused { IsErr result ↔ IsTrue (is_refused_next self.old) }
        ensures keeps { KeepsRecord self.old self.new }
        ensures recorded { length (disk_calls self.old) < room_of self.old
            → disk_calls self.new ≡ write_call place bytes.now (is_ok result)
            ∷ disk_calls self.old }
        ensures lost { OnErr result ((disk_view self.new).reading ≡ (disk_view self.old).reading) }
    {
        let refused = self.refuses();
        self.writes = raised(self.writes);
        note_write(&mut self.calls, &mut self.lost, place, bytes, !refused);
        if refused {
            self.faults = raised(self.faults);
            return Err(Failed);
        }
        overwrite(&mut self.bytes, place, bytes);
        Ok(())
    }

    fn sync(&mut self) -> Result<(), Failed>
        ensures only { OnOk result (OnlyReading (disk_view self.new)) }
        ensures reading { (disk_view self.new).reading ≡ (disk_view self.old).reading }
        ensures no_more { NoMore (disk_view self.old) (disk_view self.new) }
        ensures no_less { OnErr result (NoLess (disk_view self.old) (disk_view self.new)) }
        ensures time { Passes (disk_view self.old) (disk_view self.new) }
        ensures commits { OnOk result (CommitsBy synced (disk_view self.old) (disk_view self.new)) }
        ensures commits_err { OnErr result
            (CommitsBy unchanged (disk_view self.old) (disk_view self.new)) }
        ensures blocks { (disk_view self.new).blocks ≡ (disk_view self.old).blocks }
        ensures writes { (disk_view self.new).writes ≡ (disk_view self.old).writes }
        ensures faults { HasCause (disk_view self.old).faults (disk_view self.new).faults
            (IsErr result) }
        ensures counted { (disk_view self.new).faults
            ≡ one_more_if (is_err result) (disk_view self.old).faults }
        ensures refused { IsErr result ↔ IsTrue (is_refused_next self.old) }
        ensures keeps { KeepsRecord self.old self.new }
        ensures recorded { length (disk_calls self.old) < room_of self.old
            → disk_calls self.new ≡ sync_call (is_ok result) ∷ disk_calls self.old }
    {
        let refused = self.refuses();
        note_sync(&mut self.calls, !refused);
        if refused {
            self.faults = raised(self.faults);
            return Err(Failed);
        }
        Ok(())
    }
}
