//! The record of a disk's calls, whose memory is taken when it is made.
ghost use Rattle.std.specs.Prelude.{◌≡◌, ◌+◌, ◌-◌, ◌*◌, ◌<◌, ◌≤◌, ◌↔◌, ℕ, List, [], ◌∷◌, length, take, drop, replicate, IfOk, IfSome, IsNone, IsTrue};
ghost use Rattle.lists.specs.Bytes.{put, AreBytes};
ghost use Rattle.std.specs.List.{slice_index_or};
ghost use Rattle.dev_traits.specs.Record.{read_call, write_call, sync_call, is_settling, after_event, reading_of, settled_of, pending_of, event_of, events_onto, within_call, fill_put, fill_event, filled, image_in, IsStopOf, IsCallWithin};

use lists::{NoMemory, bytes_fit};
use std::alloc::Global;
use std::marker::Model;

/// What stands in a range that was written since the last sync that answered Ok.
#[derive(Clone, Copy, Debug, PartialEq, Eq)]
pub enum Fill {
    /// What stood there at that sync.
    Old,
    /// What was written, or tried to be.
    New,
    /// This byte, all over.
    Byte(u8),
}

#[derive(Clone, Copy, Drop)]
enum Call {
    Read,
    Write {
        place: u64,
        from: usize,
        size: usize,
        done: bool,
    },
    Sync {
        done: bool,
    },
}

/// The calls, and the bytes of all writes one after another.
#[derive(Drop)]
pub struct Record {
    size: u64,
    room: u64,
    calls: Vec<Call>,
    written: Vec<u8>,
}

impl Model for Record {
    ghost use Rattle.std.specs.Prelude.{[], vec_capacity};
    ghost use Rattle.dev_traits.specs.Record.{RecordView, IsRecord, events_onto};

    ghost Value = { RecordView };

    ghost view = { λ r. record { size = r.size; room = r.room; events = events_onto r.written.items [] r.calls.items } };

    ghost invariant = { λ r. IsRecord r.size r.room r.calls.items r.written.items
        (vec_capacity r.calls) (vec_capacity r.written) };
}

impl Record {
    /// Room for so many calls of a disk of so many bytes.
    pub fn of(alloc: Global, size: u64, room: u64) -> Result<Record, NoMemory>
        ensures { IfOk result (λ r. (r.size ≡ size) × (r.room ≡ room) × (r.events ≡ [])) }
    {
        let Some(bytes) = room.checked_mul(4096) else {
            return Err(NoMemory);
        };
        let calls = Vec::with_capacity(alloc, room as usize)?;
        let written = Vec::with_capacity(alloc, bytes as usize)?;
        Ok(Record {
            size,
            room,
            calls,
            written,
        })
    }

    /// How many calls it has.
    pub fn len(&self) -> u64
        ensures { result ≡ length self.now.events }
    {
        self.calls.len() as u64
    }

    pub fn is_full(&self) -> bool
        ensures { IsTrue result ↔ (self.now.room ≤ length self.now.events) }
    {
        self.len() >= self.room
    }

    /// The number of the next call, from 1; None where there is no room.
    pub fn next(&self) -> Option<u64>
        ensures none { IsNone result ↔ (self.now.room ≤ length self.now.events) }
        ensures some { IfSome result (λ number. number ≡ length self.now.events + 1) }
    {
        let calls = self.len();
        if calls < self.room {
            Some(calls + 1)
        } else {
            None
        }
    }

    pub fn add_read(&mut self)
        requires { length self.old.events < self.old.room }
        ensures { self.new ≡ record self.old { events = read_call ∷ self.old.events } }
    {
        let _ = self.calls.push(Call::Read);
    }

    pub fn add_sync(&mut self, done: bool)
        requires { length self.old.events < self.old.room }
        ensures { self.new ≡ record self.old { events = sync_call done ∷ self.old.events } }
    {
        let _ = self.calls.push(Call::Sync { done });
    }

    pub fn add_write(&mut self, place: u64, bytes: &[u8], done: bool)
        requires free { length self.old.events < self.old.room }
        requires within { place + length bytes.now ≤ self.old.size }
        requires few { length bytes.now ≤ 4096 }
        ensures { self.new
            ≡ record self.old { events = write_call place bytes.now done ∷ self.old.events } }
    {
        let from = self.written.len();
        let _ = self.written.extend_from_slice(bytes);
        let size = bytes.len();
        let _ = self.calls.push(Call::Write {
            place,
            from,
            size,
            done,
        });
    }

    /// What a stop within the call of this number, from 1, leaves of a disk that began with these bytes.
    pub fn image(
        &self,
        alloc: Global,
        start: &[u8],
        call: u64,
        fill: Fill,
    ) -> Result<Vec<u8>, NoMemory>
        requires whole { length start.now ≡ self.now.size }
        requires there { (1 ≤ call) × (call ≤ length self.now.events) }
        ensures image { IfOk result
            (λ image. image.items
            ≡ image_in fill start.now (drop (length self.now.events - call) self.now.events)) }
        ensures bytes { IfOk result (λ image. AreBytes image.items) }
        ensures size { IfOk result (λ image. length image.items ≡ self.now.size) }
        ensures stop { IfOk result
            (λ image. IsStopOf start.now []
            (within_call (drop (length self.now.events - call) self.now.events)) image.items) }
    {
        let mut image = copy_of(alloc, start)?;
        make_image(
            &mut image,
            &self.calls[..call as usize],
            &self.written,
            fill,
        );
        Ok(image)
    }
}

// From what stood before the first call to what a stop within the last one leaves.
fn make_image(image: &mut [u8], calls: &[Call], written: &[u8], fill: Fill)
    requires some { 0 < length calls.now }
    requires within { (k : ℕ) (d : _) → k < length calls.now
        → IsCallWithin (length image.old) (length written.now) (slice_index_or calls.now k d) }
    ensures image { image.new ≡ image_in fill image.old (events_onto written.now [] calls.now) }
    ensures bytes { AreBytes image.new }
{
    let calls = &calls[..stop_point(calls)];
    let synced = last_sync(calls);
    replay(image, &calls[..synced], written);
    lay_pending(image, &calls[synced..], written, fill);
    bytes_fit(image);
}

// How many calls have their writes pending within the last one: a sync's own end is not in it.
fn stop_point(calls: &[Call]) -> usize
    requires { 0 < length calls.now }
    ensures bound { result ≤ length calls.now }
    ensures calls { (written : List ℕ)
        → within_call (events_onto written [] calls.now)
        ≡ events_onto written [] (take result calls.now) }
{
    match calls[calls.len() - 1] {
        Call::Write { .. } => calls.len(),
        _ => calls.len() - 1,
    }
}

// How many calls there are up to the last sync that answered Ok.
fn last_sync(calls: &[Call]) -> usize
    ensures bound { result ≤ length calls.now }
    ensures settled { (written start : List ℕ)
        → settled_of start (events_onto written [] calls.now)
        ≡ reading_of start (events_onto written [] (take result calls.now)) }
    ensures pending { (written : List ℕ)
        → pending_of (events_onto written [] calls.now)
        ≡ events_onto written [] (drop result calls.now) }
{
    let mut synced = 0;
    for i in 0..calls.len() {
        if settles(calls[i]) {
            synced = i + 1;
        }
    }
    synced
}

fn settles(call: Call) -> bool
    ensures { (written : List ℕ) → result ≡ is_settling (event_of written call) }
{
    match call {
        Call::Sync { done } => done,
        _ => false,
    }
}

// Puts the bytes of each write that answered Ok.
fn replay(image: &mut [u8], calls: &[Call], written: &[u8])
    requires { (k : ℕ) (d : _) → k < length calls.now
        → IsCallWithin (length image.old) (length written.now) (slice_index_or calls.now k d) }
    ensures { image.new ≡ reading_of image.old (events_onto written.now [] calls.now) }
{
    for call in calls {
        replay_one(image, *call, written);
    }
}

fn replay_one(image: &mut [u8], call: Call, written: &[u8])
    requires { IsCallWithin (length image.old) (length written.now) call }
    ensures { image.new ≡ after_event (event_of written.now call) image.old }
{
    match call {
        Call::Write {
            place,
            from,
            size,
            done,
        } => {
            if done {
                overlay(image, place as usize, &written[from..from + size]);
            }
        }
        _ => {}
    }
}

// Puts all writes, as the fill has them.
fn lay_pending(image: &mut [u8], calls: &[Call], written: &[u8], fill: Fill)
    requires { (k : ℕ) (d : _) → k < length calls.now
        → IsCallWithin (length image.old) (length written.now) (slice_index_or calls.now k d) }
    ensures { image.new ≡ filled fill image.old (events_onto written.now [] calls.now) }
{
    for call in calls {
        lay_one(image, *call, written, fill);
    }
}

fn lay_one(image: &mut [u8], call: Call, written: &[u8], fill: Fill)
    requires { IsCallWithin (length image.old) (length written.now) call }
    ensures { image.new ≡ fill_event fill (event_of written.now call) image.old }
{
    match call {
        Call::Write {
            place,
            from,
            size,
            ..
        } => lay(image, place as usize, &written[from..from + size], fill),
        _ => {}
    }
}

fn lay(image: &mut [u8], place: usize, bytes: &[u8], fill: Fill)
    requires { place + length bytes.now ≤ length image.old }
    ensures { image.new ≡ fill_put fill place bytes.now image.old }
{
    match fill {
        Fill::Old => {}
        Fill::New => overlay(image, place, bytes),
        Fill::Byte(byte) => paint(image, place, bytes.len(), byte),
    }
}

fn paint(old: &mut [u8], place: usize, size: usize, byte: u8)
    requires { place + size ≤ length old.old }
    ensures { old.new ≡ put old.old place (replicate size byte) }
{
    old[place..place + size].fill(byte);
}

/// Writes the bytes over those from `place` on.
pub fn overlay(old: &mut [u8], place: usize, bytes: &[u8])
    requires { place + length bytes.now ≤ length old.old }
    ensures { old.new ≡ put old.old place bytes.now }
{
    old[place..place + bytes.len()].copy_from_slice(bytes);
}

/// A copy of the bytes.
pub fn copy_of(alloc: Global, bytes: &[u8]) -> Result<Vec<u8>, NoMemory>
    ensures same { IfOk result (λ copy. copy.items ≡ bytes.now) }
    ensures bytes { AreBytes bytes.now }
{
    bytes_fit(bytes);
    Ok(bytes.to_vec(alloc)?)
}
