//! The layers of a group's objects.
ghost use Rattle.std.specs.Prelude.{◌≡◌, ◌<◌, ◌≤◌, ◌^◌, List, ℕ, Some, Err, IfOk, IfErr, length, take, drop};
ghost use Rattle.std.specs.List.{AllByRecursion, AllPairs};
ghost use Rattle.lists.specs.Bytes.{AreBytes};
ghost use Rattle.mem_objects.specs.Pages.{IsZero};
ghost use Rattle.ckpt_chain.specs.Chain.{block};
ghost use Rattle.ckpt_chain.specs.Refusals.{FaultRose};
ghost use Rattle.ckpt_chain.specs.Reads.{OnlyReads};
ghost use Rattle.ckpt_chain.specs.declared.stream.StreamRefused.TheVariants.{Broken, NoMemory as OutOfMemory};
ghost use Rattle.ckpt_records.specs.Spells.{PagesRise};
ghost use Rattle.restore_group.specs.Layers.{AreLayersOf, IsLayerOf, IsPage, behind, front, layer_in, layers_in, shared_out, NoneZero};

use ckpt_chain::{StreamRefused, read_block};
use ckpt_records::PagePlace;
use dev_traits::Disk;
use group_defs::ObjectRec;
use lists::{NoMemory, Seq, bytes_fit};
use mem_objects::{Layer, PageBuf, is_zero};
use std::alloc::Global;

/// Reads the listed pages, each once and in their order, into one layer for each object. A page that is all zero is refused
/// as Broken. Pages of no object here, or out of the objects' order, are left out.
pub fn read_layers<D: Disk>(
    alloc: Global,
    disk: &mut D,
    objects: &[ObjectRec],
    pages: &[PagePlace],
) -> Result<Seq<(u64, Layer)>, StreamRefused>
    requires placed { AllByRecursion (λ p. p.block < (D.view disk.old).blocks) pages.now }
    requires most { (D.view disk.old).blocks ≤ 2 ^ 20 }
    requires rising { PagesRise pages.now }
    ensures layers { IfOk result (λ v. AreLayersOf (shared_out objects.now pages.now) v) }
    ensures found { (image : List ℕ) → (D.view disk.old).reading ≡ Some image
        → IfOk result (λ v. v ≡ layers_in image (shared_out objects.now pages.now)) }
    ensures only { (image : List ℕ) → (D.view disk.old).reading ≡ Some image → result ≡ Err Broken
        → NoneZero image pages.now → ⊥ }
    ensures disk { OnlyReads (D.view disk.old) (D.view disk.new) }
    ensures cause { FaultRose (D.view disk.old).faults (D.view disk.new).faults result }
{
    let mut layers = Vec::new(alloc);
    let mut rest = pages;
    for o in objects {
        let (own, more) = rest.split_at(front_len(o.number, rest));
        layers.push((o.number, read_layer(alloc, disk, own)?))?;
        rest = more;
    }
    Ok(Seq::of(layers))
}

/// How many pages of an object stand at the front.
fn front_len(object: u64, pages: &[PagePlace]) -> usize
    ensures at_front { take result pages.now ≡ front object pages.now }
    ensures after { drop result pages.now ≡ behind object pages.now }
    ensures len { result ≤ length pages.now }
{
    let mut n = 0;
    while n < pages.len() && pages[n].object == object {
        n += 1;
    }
    n
}

/// Reads pages of one object into a layer. A page that is all zero is refused as Broken.
fn read_layer<D: Disk>(
    alloc: Global,
    disk: &mut D,
    own: &[PagePlace],
) -> Result<Layer, StreamRefused>
    requires placed { AllByRecursion (λ p. p.block < (D.view disk.old).blocks) own.now }
    requires most { (D.view disk.old).blocks ≤ 2 ^ 20 }
    requires rising { AllPairs (λ p q. p.page < q.page) own.now }
    ensures layer { IfOk result (λ l. IsLayerOf own.now l) }
    ensures found { (image : List ℕ) → (D.view disk.old).reading ≡ Some image
        → IfOk result (λ l. l ≡ layer_in image own.now) }
    ensures only { (image : List ℕ) → (D.view disk.old).reading ≡ Some image → result ≡ Err Broken
        → NoneZero image own.now → ⊥ }
    ensures disk { OnlyReads (D.view disk.old) (D.view disk.new) }
    ensures cause { FaultRose (D.view disk.old).faults (D.view disk.new).faults result }
{
    let mut slots = Vec::new(alloc);
    for p in own {
        slots.push((p.page, read_page(alloc, disk, p.block)?))?;
    }
    Ok(Layer::of(slots))
}

/// Reads the page in a block. One that is all zero is refused as Broken.
fn read_page<D: Disk>(alloc: Global, disk: &mut D, at: u64) -> Result<PageBuf, StreamRefused>
    requires placed { at < (D.view disk.old).blocks }
    requires most { (D.view disk.old).blocks ≤ 2 ^ 20 }
    ensures page { IfOk result IsPage }
    ensures found { (image : List ℕ) → (D.view disk.old).reading ≡ Some image
        → IfOk result (λ p. p ≡ block image at) }
    ensures only { (image : List ℕ) → (D.view disk.old).reading ≡ Some image → result ≡ Err Broken
        → IsZero (block image at) }
    ensures disk { OnlyReads (D.view disk.old) (D.view disk.new) }
    ensures cause { FaultRose (D.view disk.old).faults (D.view disk.new).faults result }
{
    let bytes = read_block(disk, at)?;
    let page = page_with(alloc, &bytes)?;
    if is_zero(&page) {
        return Err(StreamRefused::Broken);
    }
    Ok(page)
}

/// A page with these bytes.
fn page_with(alloc: Global, bytes: &[u8; 4096]) -> Result<PageBuf, StreamRefused>
    ensures page { IfOk result (λ p. (p ≡ bytes.now) × (length p ≡ 4096) × AreBytes p) }
    ensures refused { IfErr result (λ e. e ≡ OutOfMemory) }
{
    bytes_fit(bytes);
    match PageBuf::of(alloc, bytes) {
        Ok(page) => Ok(page),
        Err(NoMemory) => Err(StreamRefused::NoMemory),
    }
}
