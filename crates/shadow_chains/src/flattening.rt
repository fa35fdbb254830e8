//! Layers put into one: pages are moved out of a layer that nobody shares, and copied out of any other.
ghost use Rattle.std.specs.Prelude.{◌≡◌, ◌<◌, ◌≤◌, ◌+◌, vec_len, vec_capacity, OnOk, OnErr, [], ◌∷◌, ◌++◌, length, map, ℕ};
ghost use Rattle.std.specs.Arc.{arc_value};
ghost use Rattle.mem_objects.specs.Pages.{PageNumbersRise};
ghost use Rattle.shadow_chains.specs.Own.{Joins, ShowSame, ShowAlike, Lowers};

use lists::NoMemory;
use mem_objects::{Layer, PageBuf, add, find};
use std::alloc::Global;
use std::mem;
use std::sync::Arc;

// Adds a layer where there is room.
pub(crate) fn push_shared(layers: &mut Vec<Arc<Layer>>, layer: Arc<Layer>)
    requires { vec_len layers.old < vec_capacity layers.old }
    ensures items { map (λ a. arc_value a) layers.new.items
        ≡ map (λ a. arc_value a) layers.old.items ++ arc_value layer ∷ [] }
    ensures len { vec_len layers.new ≡ vec_len layers.old + 1 }
    ensures capacity { vec_capacity layers.old ≤ vec_capacity layers.new }
{
    let _ = layers.push(layer);
}

// A copy of a page of the layer below, where the upper pages lack it.
fn copy_one(
    alloc: Global,
    over: &mut Vec<(u64, PageBuf)>,
    page: u64,
    buf: &PageBuf,
) -> Result<(), NoMemory>
    requires { PageNumbersRise over.old.items }
    ensures rise { PageNumbersRise over.new.items }
    ensures ok { OnOk result (Joins over.old.items ((page, buf.now) ∷ []) over.new.items) }
    ensures err { OnErr result (over.new.items ≡ over.old.items) }
{
    match find(over, page) {
        Ok(_) => Ok(()),
        Err(at) => {
            let copy = PageBuf::of(alloc, buf.as_array())?;
            add(over, at, page, copy)
        }
    }
}

// The same for all pages of the layer below.
fn copy_missing(
    alloc: Global,
    over: &mut Vec<(u64, PageBuf)>,
    below: &[(u64, PageBuf)],
) -> Result<(), NoMemory>
    requires { PageNumbersRise over.old.items }
    ensures rise { PageNumbersRise over.new.items }
    ensures ok { OnOk result (Joins over.old.items below.now over.new.items) }
    ensures same { ShowSame over.old.items below.now over.new.items below.now }
{
    for slot in below {
        copy_one(alloc, over, slot.0, &slot.1)?;
    }
    Ok(())
}

// The page itself, where the upper pages lack it.
fn move_one(over: &mut Vec<(u64, PageBuf)>, page: u64, buf: PageBuf)
    requires rise { PageNumbersRise over.old.items }
    requires room { vec_len over.old < vec_capacity over.old }
    ensures rise { PageNumbersRise over.new.items }
    ensures joins { Joins over.old.items ((page, buf) ∷ []) over.new.items }
    ensures len { vec_len over.new ≤ vec_len over.old + 1 }
    ensures capacity { vec_capacity over.old ≤ vec_capacity over.new }
{
    match find(over, page) {
        Ok(_) => {}
        Err(at) => {
            let _ = add(over, at, page, buf);
        }
    }
}

// The same for all pages of the layer below.
fn move_missing(over: &mut Vec<(u64, PageBuf)>, below: Vec<(u64, PageBuf)>)
    requires rise { PageNumbersRise over.old.items }
    requires room { vec_len over.old + vec_len below ≤ vec_capacity over.old }
    ensures rise { PageNumbersRise over.new.items }
    ensures joins { Joins over.old.items below.items over.new.items }
{
    for slot in below {
        move_one(over, slot.0, slot.1);
    }
}

// Moves the pages of a layer under the upper ones; it is then empty.
fn pull_pages(
    alloc: Global,
    over: &mut Vec<(u64, PageBuf)>,
    layer: &mut Layer,
) -> Result<(), NoMemory>
    requires { PageNumbersRise over.old.items }
    ensures rise { PageNumbersRise over.new.items }
    ensures ok { OnOk result (Joins over.old.items layer.old over.new.items) }
    ensures same { ShowSame over.old.items layer.old over.new.items layer.new }
{
    over.reserve(layer.len())?;
    let pages = mem::replace(layer, Layer::new(alloc)).into_slots();
    move_missing(over, pages);
    Ok(())
}

// Takes the pages of a layer under the upper ones.
fn pull(
    alloc: Global,
    over: &mut Vec<(u64, PageBuf)>,
    below: &mut Arc<Layer>,
) -> Result<(), NoMemory>
    requires { PageNumbersRise over.old.items }
    ensures rise { PageNumbersRise over.new.items }
    ensures ok { OnOk result (Joins over.old.items (arc_value below.old) over.new.items) }
    ensures same { ShowSame over.old.items (arc_value below.old)
        over.new.items (arc_value below.new) }
{
    match Arc::get_mut(below) {
        Some(layer) => pull_pages(alloc, over, layer),
        None => copy_missing(alloc, over, below.as_slice()),
    }
}

// Takes the pages of the topmost layer under the upper ones, and the layer away.
fn pull_topmost(
    alloc: Global,
    layers: &mut Vec<Arc<Layer>>,
    over: &mut Vec<(u64, PageBuf)>,
) -> Result<(), NoMemory>
    requires rise { PageNumbersRise over.old.items }
    requires some { 0 < vec_len layers.old }
    ensures rise { PageNumbersRise over.new.items }
    ensures lowers { (since : ℕ) → since < vec_len layers.old →
        Lowers since (map (λ a. arc_value a) layers.old.items) over.old.items
        (map (λ a. arc_value a) layers.new.items) over.new.items }
    ensures ok { OnOk result (vec_len layers.new + 1 ≡ vec_len layers.old) }
    ensures len { vec_len layers.new ≤ vec_len layers.old }
    ensures capacity { vec_capacity layers.old ≤ vec_capacity layers.new }
{
    let Some(mut below) = layers.pop() else {
        return Err(NoMemory);
    };
    if pull(alloc, over, &mut below).is_ok() {
        return Ok(());
    }
    push_shared(layers, below);
    Err(NoMemory)
}

// Takes the pages of all layers from a place on under the upper ones.
pub(crate) fn pull_since(
    alloc: Global,
    layers: &mut Vec<Arc<Layer>>,
    since: usize,
    over: &mut Vec<(u64, PageBuf)>,
) -> Result<(), NoMemory>
    requires rise { PageNumbersRise over.old.items }
    requires fits { since ≤ vec_len layers.old }
    ensures rise { PageNumbersRise over.new.items }
    ensures lowers { Lowers since (map (λ a. arc_value a) layers.old.items) over.old.items
        (map (λ a. arc_value a) layers.new.items) over.new.items }
    ensures ok { OnOk result (vec_len layers.new ≡ since) }
{
    while layers.len() > since {
        pull_topmost(alloc, layers, over)?;
    }
    Ok(())
}

// Takes the pages of the topmost layer into this one, which lies over it.
fn join_under(
    alloc: Global,
    layers: &mut Vec<Arc<Layer>>,
    over: &mut Arc<Layer>,
) -> Result<(), NoMemory>
    requires { 0 < vec_len layers.old }
    ensures alike { ShowAlike (map (λ a. arc_value a) layers.old.items ++ arc_value over.old ∷ [])
        (map (λ a. arc_value a) layers.new.items ++ arc_value over.new ∷ []) }
    ensures ok { OnOk result (vec_len layers.new + 1 ≡ vec_len layers.old) }
    ensures len { vec_len layers.new ≤ vec_len layers.old }
    ensures capacity { vec_capacity layers.old ≤ vec_capacity layers.new }
{
    let Some(layer) = Arc::get_mut(over) else {
        return Err(NoMemory);
    };
    let mut pages = mem::replace(layer, Layer::new(alloc)).into_slots();
    let pulled = pull_topmost(alloc, layers, &mut pages);
    *layer = Layer::of(pages);
    pulled
}

// Makes one layer of the two topmost ones.
fn join_topmost(alloc: Global, layers: &mut Vec<Arc<Layer>>) -> Result<(), NoMemory>
    requires { 1 < vec_len layers.old }
    ensures alike { ShowAlike (map (λ a. arc_value a) layers.old.items)
        (map (λ a. arc_value a) layers.new.items) }
    ensures ok { OnOk result (vec_len layers.new + 1 ≡ vec_len layers.old) }
{
    let Some(mut over) = layers.pop() else {
        return Err(NoMemory);
    };
    let joined = join_under(alloc, layers, &mut over);
    push_shared(layers, over);
    joined
}

// An empty layer on top, which nobody shares.
fn push_empty(alloc: Global, layers: &mut Vec<Arc<Layer>>) -> Result<(), NoMemory>
    ensures alike { ShowAlike (map (λ a. arc_value a) layers.old.items)
        (map (λ a. arc_value a) layers.new.items) }
{
    layers.reserve(1)?;
    let Ok(layer) = Arc::new(alloc, Layer::new(alloc)) else {
        return Err(NoMemory);
    };
    push_shared(layers, layer);
    Ok(())
}

// Makes at most one layer of all.
pub(crate) fn flatten_in(alloc: Global, layers: &mut Vec<Arc<Layer>>) -> Result<(), NoMemory>
    ensures alike { ShowAlike (map (λ a. arc_value a) layers.old.items)
        (map (λ a. arc_value a) layers.new.items) }
    ensures ok { OnOk result (vec_len layers.new ≤ 1) }
{
    if layers.len() < 2 {
        return Ok(());
    }
    push_empty(alloc, layers)?;
    while layers.len() > 1 {
        join_topmost(alloc, layers)?;
    }
    Ok(())
}
