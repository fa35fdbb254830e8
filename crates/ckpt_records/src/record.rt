ghost use Rattle.std.specs.Prelude.{◌≡◌, ◌++◌, ◌↔◌, ◌<◌, ◌+◌, ℕ, length, List, IsTrue, IfOk, IfSome, MatchOption, OnOk};
ghost use Rattle.group_defs.specs.Output.{last_position};
ghost use Rattle.ckpt_chain.specs.Slot.{IsFormat};
ghost use Rattle.group_defs.specs.Order.{ListsRise};
ghost use Rattle.std.specs.List.{AllByRecursion};
ghost use Rattle.group_defs.specs.declared.frame.Frame.{Frame};
ghost use Rattle.ckpt_records.specs.declared.meta.PagePlace.{PagePlace};
ghost use Rattle.ckpt_records.specs.Gives.{Gives};
ghost use Rattle.ckpt_records.specs.Listed.{RunsValid};
ghost use Rattle.ckpt_records.specs.Reading.{record_at, parts_at, head_at, parts_of as frame_parts};
ghost use Rattle.ckpt_records.specs.Runs.{RunEnds, pages_of_runs};
ghost use Rattle.ckpt_records.specs.Spelling.{record_bytes, listed_runs, magic, first_fields, middle};
ghost use Rattle.ckpt_records.specs.Fits.{RecordRange, FrontRange, MiddleRange, HasEnd, IsInForm};
ghost use Rattle.ckpt_records.specs.Spells.{Spells, IsOrderly};

use crate::counted::{list_of, put_items, put_list};
use crate::error::ReadError;
use crate::field::Field;
use crate::listed::runs_valid;
use crate::meta::{Listing, Meta, PagePlace, PageRun};
use crate::numbers::u64_at;
use crate::runs::runs_of;
use group_defs::{
    FileRec, Frame, Next, ObjectRec, Open, OpenKind, Out, Pair, Pipe, Proc, lists_rise,
};
use lists::{NoMemory, Seq};
use std::alloc::{AllocError, Global};

/// The number that is spelled `AURMETA0`. A record begins with it and its format in the last byte.
const MAGIC: u64 = 3_477_153_043_933_451_585;

fn head_of(format: u8, bytes: &[u8]) -> Result<(u64, &[u8]), ReadError>
    requires { format < 128 }
    ensures { Gives (λ x. (x.0, x.1.now)) result (head_at format bytes.now) }
{
    let (number, rest) = u64_at(bytes)?;
    if number != MAGIC + u64::from(format) * (1 << 56) {
        return Err(ReadError::Nothing);
    }
    Ok((number, rest))
}

#[tactic(auto, unfolding(crate::specs::Reading::parts_at))]
fn parts_of(alloc: Global, format: u8, bytes: &[u8]) -> Result<(Listing, &[u8]), ReadError>
    ensures { Gives (λ x. (frame_parts x.0.frame x.0.runs, x.1.now)) result
        (parts_at format bytes.now) }
{
    let (next, rest) = Next::read(alloc, format, bytes)?;
    let (out, rest) = Out::read(alloc, format, rest)?;
    let (objects, rest) = list_of::<ObjectRec>(alloc, format, rest)?;
    let (files, rest) = list_of::<FileRec>(alloc, format, rest)?;
    let (pipes, rest) = list_of::<Pipe>(alloc, format, rest)?;
    let (pairs, rest) = list_of::<Pair>(alloc, format, rest)?;
    let (opens, rest) = list_of::<Open>(alloc, format, rest)?;
    let (procs, rest) = list_of::<Proc>(alloc, format, rest)?;
    let (runs, rest) = list_of::<PageRun>(alloc, format, rest)?;
    let frame = Frame {
        procs,
        objects,
        opens,
        pipes,
        pairs,
        files,
        next,
        out,
    };
    Ok((Listing { frame, runs }, rest))
}

#[tactic(auto, unfolding(crate::specs::Reading::record_at))]
fn record_of(alloc: Global, format: u8, bytes: &[u8]) -> Result<Listing, ReadError>
    requires { format < 128 }
    ensures { Gives (λ m. (m.frame, m.runs)) result (record_at format bytes.now) }
{
    let (_, rest) = head_of(format, bytes)?;
    let (listing, rest) = parts_of(alloc, format, rest)?;
    if !rest.is_empty() {
        return Err(ReadError::Nothing);
    }
    Ok(listing)
}

fn is_orderly(format: u8, blocks: u64, listing: &Listing) -> bool
    ensures { IsTrue result ↔ (ListsRise listing.now.frame
        × RunsValid format blocks listing.now.frame.objects listing.now.runs) }
{
    let objects = listing.frame.objects.as_slice();
    lists_rise(&listing.frame) && runs_valid(format, blocks, objects, listing.runs.as_slice())
}

// Whether records have this format.
fn is_format(format: u8) -> bool
    ensures { IsTrue result ↔ IsFormat format }
{
    format == 1 || format == 2
}

/// The frame that the bytes spell in a format, 1 or 2, on a disk of so many blocks, and the runs of its pages. In another
/// format they spell nothing. Its memory is linear in the bytes, however many pages the runs stand for.
pub fn read_listing(
    alloc: Global,
    format: u8,
    bytes: &[u8],
    blocks: u64,
) -> Result<Option<Listing>, NoMemory>
    // What is read is spelled so.
    ensures found { IfOk result (λ r. IfSome r
        (λ l. Spells format bytes.now blocks l.frame (pages_of_runs l.runs))) }
    // What is spelled so is read, and nothing else.
    ensures only { (f : Frame) (pages : List PagePlace) → Spells format bytes.now blocks f pages
        → IfOk result (λ r. MatchOption r ⊥
        (λ l. (l.frame ≡ f) × (pages_of_runs l.runs ≡ pages))) }
    ensures ends { IfOk result (λ r. IfSome r (λ l. AllByRecursion RunEnds l.runs)) }
{
    if !is_format(format) {
        return Ok(None);
    }
    match record_of(alloc, format, bytes) {
        Err(ReadError::NoMemory) => Err(NoMemory),
        Err(ReadError::Nothing) => Ok(None),
        Ok(listing) => {
            if !is_orderly(format, blocks, &listing) {
                return Ok(None);
            }
            Ok(Some(listing))
        }
    }
}

/// What the bytes spell in a format, 1 or 2, on a disk of so many blocks. In another format they spell nothing. Runs may name
/// the same blocks, so few bytes can spell many pages: `read_listing` reads them without taking memory for the pages.
pub fn read_meta(
    alloc: Global,
    format: u8,
    bytes: &[u8],
    blocks: u64,
) -> Result<Option<Meta>, NoMemory>
    // What is read is spelled so.
    ensures found { IfOk result (λ r. IfSome r
        (λ m. Spells format bytes.now blocks m.frame m.pages)) }
    // What is spelled so is read, and nothing else.
    ensures only { (f : Frame) (pages : List PagePlace) → Spells format bytes.now blocks f pages
        → IfOk result (λ r. MatchOption r ⊥ (λ m. (m.frame ≡ f) × (m.pages ≡ pages))) }
{
    match read_listing(alloc, format, bytes, blocks) {
        Err(NoMemory) => Err(NoMemory),
        Ok(None) => Ok(None),
        Ok(Some(listing)) => {
            let meta = listing.into_meta(alloc)?;
            Ok(Some(meta))
        }
    }
}

/// Whether a record can say all of a frame. A valid frame whose mark is its last position is in form.
pub fn is_in_form(frame: &Frame) -> bool
    ensures { IsTrue result ↔ IsInForm frame.now }
{
    is_all_marked(&frame.out) && have_ends(frame.opens.as_slice())
}

fn is_all_marked(out: &Out) -> bool
    ensures { IsTrue result ↔ (out.now.mark ≡ last_position out.now) }
{
    out.mark >= out.from && out.mark - out.from == out.bytes.len() as u64
}

fn has_end(kind: OpenKind) -> bool
    ensures { IsTrue result ↔ HasEnd kind }
{
    match kind {
        OpenKind::PairEnd { end, .. } => end < 2,
        _ => true,
    }
}

fn have_ends(opens: &[Open]) -> bool
    ensures { IsTrue result ↔ AllByRecursion (λ o. HasEnd o.kind) opens.now }
{
    for o in opens {
        if !has_end(o.kind) {
            return false;
        }
    }
    true
}

/// The one spelling of a frame and a list of pages in format 2. `is_in_form` tests what it needs; the record is
/// read again where the lists rise and each page has its place.
pub fn write_meta(alloc: Global, frame: &Frame, pages: &[PagePlace]) -> Result<Vec<u8>, NoMemory>
    requires { IsInForm frame.now }
    ensures bytes { IfOk result (λ v. v.items ≡ record_bytes 2 frame.now pages.now) }
    ensures spelled { IfOk result (λ v. (blocks : ℕ) → IsOrderly blocks frame.now pages.now
        → Spells 2 v.items blocks frame.now pages.now) }
{
    match put_record(alloc, frame, pages) {
        Ok(out) => Ok(out),
        Err(_) => Err(NoMemory),
    }
}

#[tactic(auto, unfolding(crate::specs::Spelling::run_record))]
fn put_record(alloc: Global, frame: &Frame, pages: &[PagePlace]) -> Result<Vec<u8>, AllocError>
    ensures bytes { IfOk result (λ v. v.items ≡ record_bytes 2 frame.now pages.now) }
    ensures range { OnOk result (RecordRange frame.now (listed_runs 2 pages.now)) }
{
    let runs = runs_of(alloc, pages)?;
    let mut out = Vec::new(alloc);
    put_front(&mut out, frame)?;
    put_middle(&mut out, frame)?;
    put_list(&mut out, &frame.procs)?;
    put_items(&mut out, runs.as_slice())?;
    Ok(out)
}

#[tactic(auto, unfolding(crate::specs::Spelling::magic))]
fn put_magic(out: &mut Vec<u8>) -> Result<(), AllocError>
    ensures { OnOk result (out.new.items ≡ out.old.items ++ magic 2) }
{
    out.extend_from_slice(b"AURMETA2")
}

#[tactic(auto, unfolding(crate::specs::Spelling::first_fields))]
fn put_front(out: &mut Vec<u8>, frame: &Frame) -> Result<(), AllocError>
    ensures bytes { OnOk result (out.new.items ≡ out.old.items ++ first_fields 2 frame.now) }
    ensures range { OnOk result (FrontRange frame.now) }
{
    put_magic(out)?;
    frame.next.write(out)?;
    frame.out.write(out)?;
    put_list(out, &frame.objects)?;
    put_list(out, &frame.files)
}

#[tactic(auto, unfolding(crate::specs::Spelling::middle))]
fn put_middle(out: &mut Vec<u8>, frame: &Frame) -> Result<(), AllocError>
    ensures bytes { OnOk result (out.new.items ≡ out.old.items ++ middle 2 frame.now) }
    ensures range { OnOk result (MiddleRange frame.now) }
{
    put_list(out, &frame.pipes)?;
    put_list(out, &frame.pairs)?;
    put_list(out, &frame.opens)
}
