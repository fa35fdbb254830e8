//! The bytes of objects, each behind its face.
ghost use Rattle.std.specs.Prelude.{◌≡◌, ◌≤◌, ◌<◌, ◌+◌, ◌*◌, ◌^◌, ℕ, OnOk, OnErr, IsOk, length, take, drop};
ghost use Rattle.rv64_isa.specs.Numbers.{number_of};
ghost use Rattle.group_defs.specs.Cells.{bytes_in};
ghost use Rattle.shadow_chains.specs.Chain.{HasRange, IsSubset};
ghost use Rattle.shadow_chains.specs.Entries.{entry_with};
ghost use Rattle.proc_lease.specs.Private.{bytes_into, memory_of, view_of, views_of, with_bytes, IsReadyFor, StaysReady};

use lists::NoMemory;
use shadow_chains::{Face, FaceTable};

// The number that up to 8 bytes spell, low first.
fn spelled(bytes: &[u8]) -> u64
    requires { length bytes.now ≤ 8 }
    ensures value { result ≡ number_of bytes.now }
    ensures range { result < 2 ^ (8 * length bytes.now) }
{
    let mut low_first = [0; 8];
    low_first[..bytes.len()].copy_from_slice(bytes);
    u64::from_le_bytes(low_first)
}

fn number_in(face: &Face, place: u64, n: u8) -> u64
    requires size { n ≤ 8 }
    requires inside { place + n ≤ length face.now.bytes }
    ensures value { result ≡ number_of (take n (drop place face.now.bytes)) }
    ensures range { result < 2 ^ (8 * n) }
{
    let _pages = face.pages();
    let mut low_first = [0; 8];
    let bytes = &mut low_first[..usize::from(n)];
    face.read(place, bytes);
    spelled(bytes)
}

/// The number that n bytes at a place of an object spell, low first.
pub fn number_at(faces: &FaceTable, object: u64, place: u64, n: u8) -> u64
    requires some { 1 ≤ n }
    requires size { n ≤ 8 }
    requires inside { place + n
        ≤ length (bytes_in (memory_of (views_of faces.now.entries)) object) }
    ensures value { result ≡ number_of
        (take n (drop place (bytes_in (memory_of (views_of faces.now.entries)) object))) }
    ensures range { result < 2 ^ (8 * n) }
{
    match faces.face(object) {
        Some(face) => number_in(face, place, n),
        None => unreachable!(),
    }
}

fn read_in(face: &Face, place: u64, into: &mut [u8])
    requires { place + length into.old ≤ length face.now.bytes }
    ensures { into.new ≡ take (length into.old) (drop place face.now.bytes) }
{
    let _pages = face.pages();
    face.read(place, into)
}

/// Reads the bytes at a place of an object.
pub fn read_from(faces: &FaceTable, object: u64, place: u64, into: &mut [u8])
    requires some { 1 ≤ length into.old }
    requires inside { place + length into.old
        ≤ length (bytes_in (memory_of (views_of faces.now.entries)) object) }
    ensures { into.new ≡ take (length into.old)
        (drop place (bytes_in (memory_of (views_of faces.now.entries)) object)) }
{
    match faces.face(object) {
        Some(face) => read_in(face, place, into),
        None => unreachable!(),
    }
}

fn write_in(face: &mut Face, place: u64, bytes: &[u8]) -> Result<(), NoMemory>
    requires { place + length bytes.now ≤ length face.old.bytes }
    ensures ok { OnOk result ((number : ℕ) → view_of (entry_with number face.new)
        ≡ with_bytes place bytes.now (view_of (entry_with number face.old))) }
    ensures err { OnErr result ((number : ℕ) → view_of (entry_with number face.new)
        ≡ view_of (entry_with number face.old)) }
    ensures ready { IsSubset face.old.ready face.new.ready }
    ensures succeeds { HasRange face.old.ready place (length bytes.now) → IsOk result }
{
    let _pages = face.pages();
    face.write(place, bytes)
}

/// Puts bytes at a place of an object.
pub fn write_to(
    faces: &mut FaceTable,
    object: u64,
    place: u64,
    bytes: &[u8],
) -> Result<(), NoMemory>
    requires some { 1 ≤ length bytes.now }
    requires inside { place + length bytes.now
        ≤ length (bytes_in (memory_of (views_of faces.old.entries)) object) }
    ensures ok { OnOk result (views_of faces.new.entries
        ≡ bytes_into (views_of faces.old.entries) object place bytes.now) }
    ensures err { OnErr result (views_of faces.new.entries ≡ views_of faces.old.entries) }
    ensures ready { StaysReady faces.old.entries faces.new.entries }
    ensures succeeds { IsReadyFor faces.old.entries object place (length bytes.now)
        → IsOk result }
{
    match faces.face_mut(object) {
        Some(face) => write_in(face, place, bytes),
        None => unreachable!(),
    }
}

fn reserve_in(face: &mut Face, place: u64, n: u64) -> Result<(), NoMemory>
    requires { place + n ≤ length face.old.bytes }
    ensures same { (number : ℕ) → view_of (entry_with number face.new)
        ≡ view_of (entry_with number face.old) }
    ensures ready { IsSubset face.old.ready face.new.ready }
    ensures ok { OnOk result (HasRange face.new.ready place n) }
    ensures succeeds { HasRange face.old.ready place n → IsOk result }
{
    let _pages = face.pages();
    face.reserve(place, n)
}

/// Makes a range of an object ready: a write inside it then takes no memory.
pub fn reserve_at(faces: &mut FaceTable, object: u64, place: u64, n: u64) -> Result<(), NoMemory>
    requires some { 1 ≤ n }
    requires inside { place + n
        ≤ length (bytes_in (memory_of (views_of faces.old.entries)) object) }
    ensures same { views_of faces.new.entries ≡ views_of faces.old.entries }
    ensures ready { StaysReady faces.old.entries faces.new.entries }
    ensures ok { OnOk result (IsReadyFor faces.new.entries object place n) }
    ensures succeeds { IsReadyFor faces.old.entries object place n → IsOk result }
{
    match faces.face_mut(object) {
        Some(face) => reserve_in(face, place, n),
        None => unreachable!(),
    }
}
