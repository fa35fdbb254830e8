//! Reads and writes over any number of pages, page by page.
ghost use Rattle.std.specs.Prelude.{◌≡◌, ◌+◌, ◌<◌, ◌≤◌, [], ◌∷◌, ◌++◌, OnOk, OnErr, IsOk, length, slice_index, ℕ};
ghost use Rattle.std.specs.Option.{option_copied};
ghost use Rattle.shadow_chains.specs.Chain.{top_page, byte_of, byte_at};
ghost use Rattle.shadow_chains.specs.Own.{AllReady, Wrote, IsReady, StaysReady, Brings};

use crate::layers::Layers;
use crate::own::Top;
use lists::NoMemory;
use mem_objects::PageBuf;
use std::alloc::Global;

// The page that is seen.
fn find_page<'a>(layers: &'a Layers, top: &'a Top, page: u64) -> Option<&'a PageBuf>
    ensures { option_copied result ≡ top_page (layers.now ++ top.now.pages ∷ []) page }
{
    match top.get(page) {
        Some(buf) => Some(buf),
        None => layers.find(page),
    }
}

// Writes bytes into one page.
fn write_piece(
    alloc: Global,
    layers: &Layers,
    top: &mut Top,
    page: u64,
    at: usize,
    bytes: &[u8],
) -> Result<(), NoMemory>
    requires { at + length bytes.now ≤ 4096 }
    ensures ok { OnOk result (Brings top.old.pages top.new.pages page
        (top_page (layers.now ++ top.old.pages ∷ []) page) at bytes.now) }
    ensures err { OnErr result (top.new.pages ≡ top.old.pages) }
    ensures ready { StaysReady top.old top.new }
    ensures succeeds { IsReady top.old page → IsOk result }
{
    if top.write(page, at, bytes) {
        return Ok(());
    }
    top.bring(alloc, page, layers.find(page), at, bytes)
}

// The same, to a page that is ready.
fn write_ready(alloc: Global, layers: &Layers, top: &mut Top, page: u64, at: usize, bytes: &[u8])
    requires fits { at + length bytes.now ≤ 4096 }
    requires ready { IsReady top.old page }
    ensures brings { Brings top.old.pages top.new.pages page
        (top_page (layers.now ++ top.old.pages ∷ []) page) at bytes.now }
    ensures ready { StaysReady top.old top.new }
{
    let _ = write_piece(alloc, layers, top, page, at, bytes);
}

// How many of the bytes that are left lie in the page.
fn piece(at: usize, left: usize) -> usize
    requires { at < 4096 }
    ensures fits { at + result ≤ 4096 }
    ensures some { 0 < left → 0 < result }
    ensures no_more { result ≤ left }
    ensures full { result < left → at + result ≡ 4096 }
{
    if 4096 - at < left { 4096 - at } else { left }
}

// Writes bytes into pages that are ready.
fn write_all(alloc: Global, layers: &Layers, top: &mut Top, place: u64, bytes: &[u8])
    requires { AllReady top.old place (length bytes.now) }
    ensures wrote { Wrote layers.now top.old.pages top.new.pages place bytes.now }
    ensures ready { StaysReady top.old top.new }
{
    let mut done = 0;
    let mut page = place / 4096;
    let mut at = (place % 4096) as usize;
    while done < bytes.len() {
        let n = piece(at, bytes.len() - done);
        write_ready(alloc, layers, top, page, at, &bytes[done..done + n]);
        done += n;
        page += 1;
        at = 0;
    }
}

// Makes pages ready.
fn hold_all(alloc: Global, top: &mut Top, first: u64, end: u64) -> Result<(), NoMemory>
    ensures pages { top.new.pages ≡ top.old.pages }
    ensures ready { StaysReady top.old top.new }
    ensures ok { OnOk result ((p : ℕ) → first ≤ p → p < end → IsReady top.new p) }
    ensures succeeds { ((p : ℕ) → first ≤ p → p < end → IsReady top.old p) → IsOk result }
{
    for page in first..end {
        top.hold(alloc, page)?;
    }
    Ok(())
}

// Makes the pages of a range ready.
pub(crate) fn hold_range(alloc: Global, top: &mut Top, place: u64, n: u64) -> Result<(), NoMemory>
    ensures pages { top.new.pages ≡ top.old.pages }
    ensures ready { StaysReady top.old top.new }
    ensures ok { OnOk result (AllReady top.new place n) }
    ensures succeeds { AllReady top.old place n → IsOk result }
{
    if n == 0 {
        return Ok(());
    }
    let end = place / 4096 + n / 4096 + (place % 4096 + n % 4096 + 4095) / 4096;
    hold_all(alloc, top, place / 4096, end)
}

// Writes bytes into an own layer.
pub(crate) fn write_over(
    alloc: Global,
    layers: &Layers,
    top: &mut Top,
    place: u64,
    bytes: &[u8],
) -> Result<(), NoMemory>
    ensures ok { OnOk result (Wrote layers.now top.old.pages top.new.pages place bytes.now) }
    ensures err { OnErr result (top.new.pages ≡ top.old.pages) }
    ensures ready { StaysReady top.old top.new }
    ensures succeeds { AllReady top.old place (length bytes.now) → IsOk result }
{
    if bytes.is_empty() {
        return Ok(());
    }
    let at = (place % 4096) as usize;
    if bytes.len() <= 4096 - at {
        return write_piece(alloc, layers, top, place / 4096, at, bytes);
    }
    write_long(alloc, layers, top, place, bytes)
}

// The same, into more than one page.
fn write_long(
    alloc: Global,
    layers: &Layers,
    top: &mut Top,
    place: u64,
    bytes: &[u8],
) -> Result<(), NoMemory>
    ensures ok { OnOk result (Wrote layers.now top.old.pages top.new.pages place bytes.now) }
    ensures err { OnErr result (top.new.pages ≡ top.old.pages) }
    ensures ready { StaysReady top.old top.new }
    ensures succeeds { AllReady top.old place (length bytes.now) → IsOk result }
{
    hold_range(alloc, top, place, bytes.len() as u64)?;
    write_all(alloc, layers, top, place, bytes);
    Ok(())
}

// Writes 0 into each byte.
fn zero(into: &mut [u8])
    ensures { (k : ℕ) → k < length into.old → slice_index into.new k ≡ 0 }
{
    for b in into.iter_mut() {
        *b = 0;
    }
}

// Reads bytes of one page.
fn read_piece(layers: &Layers, top: &Top, page: u64, at: usize, into: &mut [u8])
    requires { at + length into.old ≤ 4096 }
    ensures { (k : ℕ) → k < length into.old →
        slice_index into.new k
        ≡ byte_of (top_page (layers.now ++ top.now.pages ∷ []) page) (at + k) }
{
    match find_page(layers, top, page) {
        Some(buf) => buf.read(at, into),
        None => zero(into),
    }
}

// Reads the bytes at a place.
pub(crate) fn read_all(layers: &Layers, top: &Top, place: u64, into: &mut [u8])
    ensures { (k : ℕ) → k < length into.old →
        slice_index into.new k ≡ byte_at (layers.now ++ top.now.pages ∷ []) (place + k) }
{
    let mut done = 0;
    let mut page = place / 4096;
    let mut at = (place % 4096) as usize;
    while done < into.len() {
        let n = piece(at, into.len() - done);
        read_piece(layers, top, page, at, &mut into[done..done + n]);
        done += n;
        page += 1;
        at = 0;
    }
}
