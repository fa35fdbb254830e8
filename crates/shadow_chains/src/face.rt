ghost use Rattle.std.specs.Prelude.{◌≡◌, ◌+◌, ◌*◌, ◌≤◌, ◌<◌, ◌∷◌, [], ◌++◌, OnOk, OnErr, IfOk, IsOk, Some, None, length, slice_range, replicate, is_some, true, false, ◌^◌};
ghost use Rattle.lists.specs.Bytes.{put};
ghost use Rattle.shadow_chains.specs.Chain.{flat, overlaid, page_set, with_range, HasRange, IsSubset};
ghost use Rattle.shadow_chains.specs.Own.{Seals};
ghost use Rattle.shadow_chains.specs.Faces.{touched, SameBase};

use crate::layers::Layers;
use crate::own::Top;
use crate::pieces::{hold_range, read_all, write_over};
use lists::NoMemory;
use mem_objects::Layer;
use std::alloc::Global;
use std::marker::Model;
use std::mem;

/// What the owner of a memory object sees: a layer of its own over shared layers, over a base.
#[derive(Debug, Drop)]
pub struct Face {
    alloc: Global,
    pages: u64,
    base: Option<u64>,
    layers: Layers,
    since: usize,
    top: Top,
    spare: Option<Layers>,
}

impl Model for Face {
    ghost use Rattle.shadow_chains.specs.Faces.{FaceView, see, Stands};

    ghost Value = { FaceView };

    ghost view = { λ f. see f.pages f.base f.layers f.since f.top f.spare };

    ghost invariant = { λ f. Stands f.layers f.since f.top f.spare };
}

/// What a freeze gives: an object as it stood then.
#[derive(Debug, Drop)]
pub struct Frozen {
    /// The object's number.
    pub number: u64,
    /// The number of the object of the freeze before that lies below; none where nothing does.
    pub base: Option<u64>,
    /// The layers since that freeze, from the oldest to the topmost. No later call changes them.
    pub layers: Layers,
}

impl Face {
    /// A face of so many pages of zeros, without a base.
    pub fn zeroed(alloc: Global, pages: u64) -> Result<Face, NoMemory>
        ensures pages { IfOk result (λ f. f.pages ≡ pages) }
        ensures bytes { IfOk result (λ f. f.bytes ≡ replicate (4096 * pages) 0) }
        ensures base { IfOk result (λ f. f.base ≡ None) }
        ensures base_bytes { IfOk result (λ f. f.base_bytes ≡ replicate (4096 * pages) 0) }
        ensures touched { IfOk result (λ f. touched f ≡ replicate pages false) }
        ensures depth { IfOk result (λ f. f.depth ≡ 1) }
    {
        Ok(Face {
            alloc,
            pages,
            base: None,
            layers: Layers::new(alloc),
            since: 0,
            top: Top::new(alloc),
            spare: None,
        })
    }

    /// A face of so many pages over the base of this number, whose pages are those of the layer, and
    /// zeros where the layer has none.
    pub fn of(alloc: Global, pages: u64, number: u64, layer: Layer) -> Result<Face, NoMemory>
        ensures pages { IfOk result (λ f. f.pages ≡ pages) }
        ensures bytes { IfOk result (λ f. f.bytes ≡ flat (layer ∷ []) pages) }
        ensures base { IfOk result (λ f. f.base ≡ Some number) }
        ensures base_bytes { IfOk result (λ f. f.base_bytes ≡ flat (layer ∷ []) pages) }
        ensures touched { IfOk result (λ f. touched f ≡ replicate pages false) }
        ensures depth { IfOk result (λ f. f.depth ≡ 2) }
    {
        let mut layers = Layers::new(alloc);
        if layers.push(alloc, layer).is_err() {
            return Err(NoMemory);
        }
        Ok(Face {
            alloc,
            pages,
            base: Some(number),
            layers,
            since: 1,
            top: Top::new(alloc),
            spare: None,
        })
    }

    /// The number of its pages.
    pub fn pages(&self) -> u64
        ensures count { result ≡ self.now.pages }
        ensures bytes { length self.now.bytes ≡ 4096 * result }
        ensures touched { length (touched self.now) ≡ result }
        ensures over { overlaid self.now.layers self.now.base_bytes result ≡ self.now.bytes }
    {
        self.pages
    }

    /// How many layers it looks through, its own among them.
    pub fn depth(&self) -> u64
        ensures { result ≡ self.now.depth }
    {
        next(self.layers.len())
    }

    /// Reads the bytes at a place.
    pub fn read(&self, place: u64, into: &mut [u8])
        requires { place + length into.old ≤ 4096 * self.now.pages }
        ensures { into.new ≡ slice_range self.now.bytes place (place + length into.old) }
    {
        read_all(&self.layers, &self.top, place, into)
    }

    /// Puts bytes at a place.
    pub fn write(&mut self, place: u64, bytes: &[u8]) -> Result<(), NoMemory>
        requires { place + length bytes.now ≤ 4096 * self.old.pages }
        ensures ok { OnOk result (self.new.bytes ≡ put self.old.bytes place bytes.now) }
        ensures touched { OnOk result
            (touched self.new ≡ with_range (touched self.old) place (length bytes.now)) }
        ensures err { OnErr result (self.new.bytes ≡ self.old.bytes) }
        ensures err_touched { OnErr result (touched self.new ≡ touched self.old) }
        ensures base { SameBase self.old self.new }
        ensures depth { self.new.depth ≡ self.old.depth }
        ensures unprepared { self.new.prepared ≡ false }
        ensures succeeds { HasRange self.old.ready place (length bytes.now) → IsOk result }
        ensures ready { IsSubset self.old.ready self.new.ready }
    {
        self.spare = None;
        write_over(self.alloc, &self.layers, &mut self.top, place, bytes)
    }

    /// Makes the pages of a range ready: a write inside it then takes no memory, until the next fork,
    /// preparation, freeze or flattening.
    pub fn reserve(&mut self, place: u64, n: u64) -> Result<(), NoMemory>
        requires { place + n ≤ 4096 * self.old.pages }
        ensures same { self.new ≡ record self.old { ready = self.new.ready } }
        ensures ok { OnOk result (HasRange self.new.ready place n) }
        ensures ready { IsSubset self.old.ready self.new.ready }
        ensures succeeds { HasRange self.old.ready place n → IsOk result }
    {
        hold_range(self.alloc, &mut self.top, place, n)
    }

    /// Another face that sees the same bytes, over the same layers.
    pub fn fork(&mut self) -> Result<Face, NoMemory>
        ensures bytes { self.new.bytes ≡ self.old.bytes }
        ensures base { SameBase self.old self.new }
        ensures touched { touched self.new ≡ touched self.old }
        ensures depth { self.new.depth ≤ self.old.depth + 1 }
        ensures unprepared { self.new.prepared ≡ false }
        ensures copy_bytes { IfOk result (λ f. f.bytes ≡ self.old.bytes) }
        ensures copy_base { IfOk result (λ f. SameBase self.old f) }
        ensures copy_touched { IfOk result (λ f. touched f ≡ touched self.old) }
        ensures copy_layers { IfOk result (λ f. f.layers ≡ self.new.layers) }
        ensures copy_depth { IfOk result (λ f. f.depth ≡ self.new.depth) }
        ensures copy_unprepared { IfOk result (λ f. f.prepared ≡ false) }
    {
        self.spare = None;
        seal(self.alloc, &mut self.layers, &mut self.top)?;
        let layers = self.layers.share_from(self.alloc, 0)?;
        Ok(Face {
            alloc: self.alloc,
            pages: self.pages,
            base: self.base,
            layers,
            since: self.since,
            top: Top::new(self.alloc),
            spare: None,
        })
    }

    /// Makes the face ready for a freeze: its own layer is then empty, and a list of the layers since the
    /// last freeze stands ready, with an owner more of each.
    pub fn prepare(&mut self) -> Result<(), NoMemory>
        ensures bytes { self.new.bytes ≡ self.old.bytes }
        ensures base { SameBase self.old self.new }
        ensures touched { touched self.new ≡ touched self.old }
        ensures depth { self.new.depth ≤ self.old.depth + 1 }
        ensures ok { OnOk result (self.new.prepared ≡ true) }
    {
        self.spare = None;
        seal(self.alloc, &mut self.layers, &mut self.top)?;
        let spare = self.layers.share_from(self.alloc, self.since)?;
        self.spare = Some(spare);
        Ok(())
    }

    /// Gives the layers since the last freeze. The object of this number is then the base.
    pub fn freeze(&mut self, number: u64) -> Frozen
        requires { self.old.prepared ≡ true }
        ensures number { result.number ≡ number }
        ensures old_base { result.base ≡ self.old.base }
        ensures layers { self.old.layers ≡ result.layers ++ [] ∷ [] }
        ensures over { overlaid result.layers self.old.base_bytes self.old.pages ≡ self.old.bytes }
        ensures standing { page_set result.layers self.old.pages ≡ touched self.old }
        ensures pages { self.new.pages ≡ self.old.pages }
        ensures bytes { self.new.bytes ≡ self.old.bytes }
        ensures base { self.new.base ≡ Some number }
        ensures base_bytes { self.new.base_bytes ≡ self.old.bytes }
        ensures touched { touched self.new ≡ replicate self.old.pages false }
        ensures depth { self.new.depth ≡ self.old.depth }
        ensures unprepared { self.new.prepared ≡ false }
    {
        let layers = spare_of(self.alloc, mem::replace(&mut self.spare, None));
        let base = mem::replace(&mut self.base, Some(number));
        self.since = self.layers.len();
        Frozen {
            number,
            base,
            layers,
        }
    }

    /// Makes at most one layer of those below the last freeze, and one of those since. Pages are moved out
    /// of layers that have no other owner, and copied out of others. After an `Err` some may have moved.
    pub fn flatten(&mut self) -> Result<(), NoMemory>
        ensures bytes { self.new.bytes ≡ self.old.bytes }
        ensures base { SameBase self.old self.new }
        ensures touched { touched self.new ≡ touched self.old }
        ensures depth { OnOk result (self.new.depth ≤ 2) }
        ensures unprepared { self.new.prepared ≡ false }
    {
        self.spare = None;
        self.layers.lower(self.alloc, self.since, &mut self.top)?;
        let flattened = self.layers.flatten(self.alloc);
        self.since = self.layers.len();
        flattened
    }
}

fn next(n: usize) -> u64
    requires { n < 2 ^ 63 }
    ensures { result ≡ n + 1 }
{
    n as u64 + 1
}

fn spare_of(alloc: Global, spare: Option<Layers>) -> Layers
    requires { is_some spare ≡ true }
    ensures { spare ≡ Some result }
{
    match spare {
        Some(layers) => layers,
        None => Layers::new(alloc),
    }
}

// Lays the own layer over the others, if it has pages.
fn seal(alloc: Global, layers: &mut Layers, top: &mut Top) -> Result<(), NoMemory>
    ensures ok { OnOk result (Seals layers.old top.old.pages layers.new) }
    ensures emptied { OnOk result (top.new.pages ≡ []) }
    ensures err_layers { OnErr result (layers.new ≡ layers.old) }
    ensures err_pages { OnErr result (top.new.pages ≡ top.old.pages) }
{
    if top.is_empty() {
        return Ok(());
    }
    let own = mem::replace(top, Top::new(alloc));
    match layers.push(alloc, own.into_layer()) {
        Ok(()) => Ok(()),
        Err(layer) => {
            *top = Top::of(alloc, layer);
            Err(NoMemory)
        }
    }
}
