//! A face's own layer, with room for pages that a write is to find.
ghost use Rattle.std.specs.Prelude.{◌≡◌, ◌⊎◌, ◌+◌, ◌<◌, ◌≤◌, [], OnOk, OnErr, IfOk, IfErr, IsOk, IsSome, IfSome, MatchOption, ◌↔◌, Some, None, length, map, vec_len, vec_capacity, ◌^◌};
ghost use Rattle.std.specs.Option.{option_copied};
ghost use Rattle.std.specs.Bool.{OnTrue, OnFalse};
ghost use Rattle.mem_objects.specs.Pages.{page_of, WritesIn, PageNumbersRise, PutsPage, Keeps};
ghost use Rattle.std.specs.Arc.{arc_value};
ghost use Rattle.shadow_chains.specs.Chain.{whole_page};
ghost use Rattle.shadow_chains.specs.Own.{Own, IsReady, StaysReady, SameBut, Brings, Lowers};

use crate::flattening::pull_since;
use lists::NoMemory;
use mem_objects::{Layer, PageBuf, add, find, get_in, write_in};
use std::alloc::Global;
use std::marker::Model;
use std::sync::Arc;

// An own layer.
#[derive(Debug, Drop)]
pub struct Top {
    slots: Vec<(u64, PageBuf)>,
    room: Vec<(u64, PageBuf)>,
}

impl Model for Top {
    ghost use Rattle.std.specs.Prelude.{◌+◌, ◌≤◌, vec_len, vec_capacity, ◌^◌};
    ghost use Rattle.mem_objects.specs.Pages.{PageNumbersRise};
    ghost use Rattle.shadow_chains.specs.Own.{Own};

    ghost Value = { Own };

    ghost view = { λ t. record { pages = t.slots.items; room = t.room.items } };

    ghost invariant = { λ t. record {
      slots_rise : PageNumbersRise t.slots.items;
      room_rises : PageNumbersRise t.room.items;
      fits : vec_len t.slots + vec_len t.room ≤ vec_capacity t.slots;
    } };
}

// Takes the page of this number out, where it is there.
fn take_out(slots: &mut Vec<(u64, PageBuf)>, page: u64) -> Option<PageBuf>
    requires { PageNumbersRise slots.old.items }
    ensures rise { PageNumbersRise slots.new.items }
    ensures found { IsSome result ↔ IsSome (page_of slots.old.items page) }
    ensures others { SameBut page slots.old.items slots.new.items }
    ensures none { MatchOption result (slots.new.items ≡ slots.old.items) (λ _. Unit {0}) }
    ensures len { IfSome result (λ _. vec_len slots.new + 1 ≡ vec_len slots.old) }
    ensures shrinks { vec_len slots.new ≤ vec_len slots.old }
{
    match find(slots, page) {
        Ok(at) => {
            let slot = slots.remove(at);
            Some(slot.1)
        }
        Err(_) => None,
    }
}

// Makes the bytes those of a page, or zeros.
fn fill(buf: &mut PageBuf, from: Option<&PageBuf>)
    ensures { buf.new ≡ whole_page (option_copied from.entry) }
{
    match from {
        Some(page) => buf.set(page),
        None => buf.clear(),
    }
}

// A page that can be added: from the room, or from memory.
fn take_page(
    alloc: Global,
    slots: &mut Vec<(u64, PageBuf)>,
    room: &mut Vec<(u64, PageBuf)>,
    page: u64,
) -> Result<PageBuf, NoMemory>
    requires rises { PageNumbersRise room.old.items }
    requires fits { vec_len slots.old + vec_len room.old ≤ vec_capacity slots.old }
    ensures items { slots.new.items ≡ slots.old.items }
    ensures rises { PageNumbersRise room.new.items }
    ensures others { SameBut page room.old.items room.new.items }
    ensures space { IfOk result
        (λ _. vec_len slots.new + vec_len room.new < vec_capacity slots.new) }
    ensures fits { vec_len slots.new + vec_len room.new ≤ vec_capacity slots.new }
    ensures succeeds { IsSome (page_of room.old.items page) → IsOk result }
    ensures err { OnErr result (room.new.items ≡ room.old.items) }
{
    match take_out(room, page) {
        Some(buf) => Ok(buf),
        None => grow(alloc, slots, room.len()),
    }
}

// Space for so many pages and one more, and that one.
fn grow(alloc: Global, slots: &mut Vec<(u64, PageBuf)>, room: usize) -> Result<PageBuf, NoMemory>
    requires { room < 2 ^ 63 }
    ensures items { slots.new.items ≡ slots.old.items }
    ensures len { vec_len slots.new ≡ vec_len slots.old }
    ensures space { IfOk result (λ _. vec_len slots.new + room < vec_capacity slots.new) }
    ensures capacity { vec_capacity slots.old ≤ vec_capacity slots.new }
{
    if slots.reserve(room + 1).is_err() {
        return Err(NoMemory);
    }
    PageBuf::zeroed(alloc)
}

// Adds a page that is not there, where there is space.
fn place(slots: &mut Vec<(u64, PageBuf)>, page: u64, buf: PageBuf)
    requires rises { PageNumbersRise slots.old.items }
    requires absent { page_of slots.old.items page ≡ None }
    requires space { vec_len slots.old < vec_capacity slots.old }
    ensures puts { PutsPage slots.old.items slots.new.items page buf }
    ensures rises { PageNumbersRise slots.new.items }
    ensures len { vec_len slots.new ≡ vec_len slots.old + 1 }
    ensures capacity { vec_capacity slots.old ≤ vec_capacity slots.new }
{
    match find(slots, page) {
        Ok(_) => {}
        Err(at) => {
            let _ = add(slots, at, page, buf);
        }
    }
}

// Space and a page in the room.
fn hold_in(
    alloc: Global,
    slots: &mut Vec<(u64, PageBuf)>,
    room: &mut Vec<(u64, PageBuf)>,
    page: u64,
) -> Result<(), NoMemory>
    requires rises { PageNumbersRise room.old.items }
    requires fits { vec_len slots.old + vec_len room.old ≤ vec_capacity slots.old }
    ensures items { slots.new.items ≡ slots.old.items }
    ensures rises { PageNumbersRise room.new.items }
    ensures fits { vec_len slots.new + vec_len room.new ≤ vec_capacity slots.new }
    ensures ok { OnOk result (IsSome (page_of room.new.items page)) }
    ensures keeps { Keeps room.old.items room.new.items }
    ensures succeeds { IsSome (page_of room.old.items page) → IsOk result }
{
    match find(room, page) {
        Ok(_) => Ok(()),
        Err(at) => {
            let buf = grow(alloc, slots, room.len())?;
            add(room, at, page, buf)
        }
    }
}

impl Top {
    pub fn new(alloc: Global) -> Top
        ensures pages { result.pages ≡ [] }
        ensures room { result.room ≡ [] }
    {
        Top {
            slots: Vec::new(alloc),
            room: Vec::new(alloc),
        }
    }

    // The pages of a layer.
    pub fn of(alloc: Global, layer: Layer) -> Top
        ensures pages { result.pages ≡ layer }
        ensures room { result.room ≡ [] }
    {
        Top {
            slots: layer.into_slots(),
            room: Vec::new(alloc),
        }
    }

    pub fn into_layer(self) -> Layer
        ensures { result ≡ self.pages }
    {
        let Top { slots, room } = self;
        drop(room);
        Layer::of(slots)
    }

    pub fn is_empty(&self) -> bool
        ensures empty { OnTrue result (self.now.pages ≡ []) }
    {
        self.slots.is_empty()
    }

    pub fn get(&self, page: u64) -> Option<&PageBuf>
        ensures { option_copied result ≡ page_of self.now.pages page }
    {
        get_in(&self.slots, page)
    }

    // Writes bytes into a page, if it is there.
    pub fn write(&mut self, page: u64, at: usize, bytes: &[u8]) -> bool
        requires { at + length bytes.now ≤ 4096 }
        ensures there { OnTrue result (WritesIn self.old.pages self.new.pages page at bytes.now) }
        ensures absent { OnFalse result (page_of self.old.pages page ≡ None) }
        ensures same { OnFalse result (self.new ≡ self.old) }
        ensures ready { StaysReady self.old self.new }
    {
        write_in(&mut self.slots, page, at, bytes)
    }

    // Brings a page that is not there into the layer: a copy, with bytes put into it.
    pub fn bring(
        &mut self,
        alloc: Global,
        page: u64,
        below: Option<&PageBuf>,
        at: usize,
        bytes: &[u8],
    ) -> Result<(), NoMemory>
        requires fits { at + length bytes.now ≤ 4096 }
        requires absent { page_of self.old.pages page ≡ None }
        ensures ok { OnOk result (Brings self.old.pages self.new.pages page
            (option_copied below.entry) at bytes.now) }
        ensures err { OnErr result (self.new ≡ self.old) }
        ensures ready { StaysReady self.old self.new }
        ensures succeeds { IsSome (page_of self.old.room page) → IsOk result }
    {
        let mut buf = take_page(alloc, &mut self.slots, &mut self.room, page)?;
        fill(&mut buf, below);
        buf.write(at, bytes);
        place(&mut self.slots, page, buf);
        Ok(())
    }

    // Makes a page ready: a write to it then takes no memory.
    pub fn hold(&mut self, alloc: Global, page: u64) -> Result<(), NoMemory>
        ensures pages { self.new.pages ≡ self.old.pages }
        ensures ok { OnOk result (IsReady self.new page) }
        ensures ready { StaysReady self.old self.new }
        ensures succeeds { IsReady self.old page → IsOk result }
    {
        match find(&self.slots, page) {
            Ok(_) => Ok(()),
            Err(_) => hold_in(alloc, &mut self.slots, &mut self.room, page),
        }
    }

    // Takes the pages of the layers from a place on, which lie below; the room goes.
    pub fn pull(
        &mut self,
        alloc: Global,
        layers: &mut Vec<Arc<Layer>>,
        since: usize,
    ) -> Result<(), NoMemory>
        requires { since ≤ vec_len layers.old }
        ensures lowers { Lowers since (map (λ a. arc_value a) layers.old.items) self.old.pages
            (map (λ a. arc_value a) layers.new.items) self.new.pages }
        ensures ok { OnOk result (vec_len layers.new ≡ since) }
    {
        self.room = Vec::new(alloc);
        pull_since(alloc, layers, since, &mut self.slots)
    }
}
