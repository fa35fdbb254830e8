//! The origin of a run on a new disk.
ghost use Rattle.std.specs.Prelude.{◌≡◌, ◌<◌, ◌≤◌, ℕ, [], ◌∷◌, IfOk, length, map};
ghost use Rattle.lists.specs.Bytes.{AreBytes};
ghost use Rattle.ckpt_records.specs.Parts.{group_of, memory_of, page_in};
ghost use Rattle.ckpt_records.specs.Origin.{IsNewOrigin, IsUnworn};
ghost use Rattle.group_boot.specs.Flat.{flat_group, flat_process, image_page, pages_for as pages_taken};

use ckpt_chain::Slot;
use ckpt_records::{Origin, Parts, Placement};
use group_defs::{Frame, Mapping, Next, ObjectRec, Open, OpenKind, Out, Proc, ProcState};
use lists::{NoMemory, Seq, bytes_fit};
use mem_objects::{Layer, PageBuf, is_zero};
use std::alloc::Global;

/// Where the image lies.
const IMAGE_START: u64 = 0x10000;

/// The top of the stack.
const STACK_TOP: u64 = 0x3f_ffff_f000;

/// The one page of stack.
const STACK: Mapping = Mapping {
    start: 0x3f_ffff_e000,
    pages: 1,
    prot: 3,
    shared: false,
    object: 1,
    first: 0,
};

const STACK_OBJECT: ObjectRec = ObjectRec {
    number: 1,
    pages: 1,
};

/// What descriptor 0 is at.
const NOTHING: Open = Open {
    number: 0,
    kind: OpenKind::Nothing,
    offset: 0,
    flags: 0,
};

/// What descriptors 1 and 2 are at.
const OUTSIDE: Open = Open {
    number: 1,
    kind: OpenKind::Outside,
    offset: 0,
    flags: 0,
};

/// The numbers that come next, after one process with two objects and two descriptions.
const NEXT: Next = Next {
    pid: 2,
    object: 2,
    descr: 2,
    pipe: 0,
    pair: 0,
};

/// How many pages an image takes.
fn pages_for(image: &[u8]) -> u64
    ensures { result ≡ pages_taken image.now }
{
    image.len().div_ceil(4096) as u64
}

fn list_of<T: Copy + Drop>(alloc: Global, items: &[T]) -> Result<Seq<T>, NoMemory>
    ensures { IfOk result (λ list. list ≡ items.now) }
{
    Ok(Seq::of(Vec::from_slice(alloc, items)?))
}

/// The process, with pc at the image's first byte and x2 at the stack's top.
fn process(alloc: Global, image: &[u8]) -> Result<Proc, NoMemory>
    requires { length image.now ≤ 16777216 }
    ensures { IfOk result (λ process. process ≡ flat_process image.now) }
{
    let pages = pages_for(image);
    let mapping = Mapping {
        start: IMAGE_START,
        pages,
        prot: 7,
        shared: false,
        object: 0,
        first: 0,
    };
    let mut regs = [0; 31];
    regs[1] = STACK_TOP;
    Ok(Proc {
        pid: 1,
        parent: 0,
        state: ProcState::Running,
        pc: IMAGE_START,
        regs,
        brk_base: IMAGE_START + 4096 * pages,
        brk: IMAGE_START + 4096 * pages,
        maps: list_of(alloc, &[mapping, STACK])?,
        fds: list_of(alloc, &[(0, 0), (1, 1), (2, 1)])?,
    })
}

fn frame(alloc: Global, image: &[u8]) -> Result<Frame, NoMemory>
    requires { length image.now ≤ 16777216 }
    ensures { IfOk result (λ frame. frame ≡ (flat_group image.now).frame) }
{
    let mut procs = Seq::new(alloc);
    procs.push(process(alloc, image)?)?;
    let object = ObjectRec {
        number: 0,
        pages: pages_for(image),
    };
    Ok(Frame {
        procs,
        objects: list_of(alloc, &[object, STACK_OBJECT])?,
        opens: list_of(alloc, &[NOTHING, OUTSIDE])?,
        pipes: Seq::new(alloc),
        pairs: Seq::new(alloc),
        files: Seq::new(alloc),
        next: NEXT,
        out: Out {
            from: 0,
            mark: 0,
            bytes: Seq::new(alloc),
        },
    })
}

/// Makes a page that of this number in an image, the last one filled up with zeros.
fn fill(page: &mut PageBuf, image: &[u8], number: u64)
    requires { number < pages_taken image.now }
    ensures { page.new ≡ image_page image.now number }
{
    let from = 4096 * number as usize;
    let to = image.len().min(from + 4096);
    page.clear();
    page.write(0, &image[from..to]);
}

/// The pages of an image that aren't all zero.
fn image_layer(alloc: Global, image: &[u8]) -> Result<Layer, NoMemory>
    ensures { IfOk result (λ layer. (page : ℕ) → page < pages_taken image.now
        → page_in layer page ≡ image_page image.now page) }
{
    let mut layer = Layer::new(alloc);
    let mut page = PageBuf::zeroed(alloc)?;
    for number in 0..pages_for(image) {
        fill(&mut page, image, number);
        if !is_zero(&page) {
            layer.put(alloc, number, &page)?;
        }
    }
    Ok(layer)
}

/// The image's pages in object 0, and none of the stack in object 1.
fn layers(alloc: Global, image: &[u8]) -> Result<Seq<(u64, Layer)>, NoMemory>
    ensures numbers { IfOk result (λ layers. map {B = ℕ} (λ l. l.0) layers ≡ 0 ∷ 1 ∷ []) }
    ensures memory { IfOk result (λ layers. memory_of (flat_group image.now).frame.objects layers
        ≡ (flat_group image.now).memory) }
{
    let mut layers = Seq::new(alloc);
    layers.push((0, image_layer(alloc, image)?))?;
    layers.push((1, Layer::new(alloc)))?;
    Ok(layers)
}

/// The origin of a new disk with the first group of an image, whose bytes lie from 0x10000 on with pc at the first.
/// The gate bytes are those of slots A and B.
pub fn flat_origin(alloc: Global, image: Vec<u8>, gates: [u8; 2]) -> Result<Origin, NoMemory>
    requires { (1 ≤ length image.items) × (length image.items ≤ 16777216) }
    ensures group { IfOk result (λ o. group_of o.parts ≡ flat_group image.items) }
    ensures new { IfOk result (λ o. IsNewOrigin o) }
    ensures unworn { IfOk result (λ o. IsUnworn o.epoch o.parts.frame) }
    ensures gates { IfOk result (λ o. o.gates ≡ gates) }
{
    bytes_fit(&image);
    let frame = frame(alloc, &image)?;
    let layers = layers(alloc, &image)?;
    Ok(Origin {
        epoch: 0,
        parts: Parts { frame, layers },
        placement: Placement {
            pages: Seq::new(alloc),
            metas: Seq::new(alloc),
            slot: Slot::B,
        },
        gates,
    })
}
