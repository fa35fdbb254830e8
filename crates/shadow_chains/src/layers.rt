ghost use Rattle.std.specs.Prelude.{◌≡◌, ◌<◌, ◌≤◌, ◌^◌, ◌+◌, vec_len, vec_capacity, OnOk, OnErr, IfOk, IfErr, [], ◌∷◌, ◌++◌, length, map, drop, take};
ghost use Rattle.std.specs.Option.{option_copied};
ghost use Rattle.std.specs.Arc.{arc_value};
ghost use Rattle.shadow_chains.specs.Chain.{top_page};
ghost use Rattle.shadow_chains.specs.Own.{ShowAlike, Lowers};

use crate::flattening::{flatten_in, push_shared};
use crate::own::Top;
use lists::NoMemory;
use mem_objects::{Layer, PageBuf};
use std::alloc::Global;
use std::marker::Model;
use std::sync::Arc;

/// Shared layers, from the oldest to the topmost. None of them ever changes.
#[derive(Debug, Drop)]
pub struct Layers {
    layers: Vec<Arc<Layer>>,
}

impl Model for Layers {
    ghost use Rattle.std.specs.Prelude.{List, map};
    ghost use Rattle.std.specs.Arc.{arc_value};
    ghost use Rattle.mem_objects.specs.Pages.{Pages};

    ghost Value = { List Pages };

    ghost view = { λ l. map (λ a. arc_value a) l.layers.items };
}

// The page of the topmost of these layers that has it.
fn find_page(layers: &[Arc<Layer>], page: u64) -> Option<&PageBuf>
    ensures { option_copied result ≡ top_page (map (λ a. arc_value a) layers.now) page }
{
    let mut i = layers.len();
    while i > 0 {
        i -= 1;
        let layer: &Layer = &layers[i];
        if let Some(buf) = layer.get(page) {
            return Some(buf);
        }
    }
    None
}

// Second owners of these layers.
fn share(alloc: Global, layers: &[Arc<Layer>]) -> Result<Vec<Arc<Layer>>, NoMemory>
    ensures { IfOk result (λ v. map (λ a. arc_value a) v.items
        ≡ map (λ a. arc_value a) layers.now) }
{
    let Ok(mut shared) = Vec::with_capacity(alloc, layers.len()) else {
        return Err(NoMemory);
    };
    for layer in layers {
        let Ok(owner) = Arc::try_clone(layer) else {
            return Err(NoMemory);
        };
        if shared.push(owner).is_err() {
            return Err(NoMemory);
        }
    }
    Ok(shared)
}

impl Layers {
    /// No layers. They take no memory until one is added.
    pub fn new(alloc: Global) -> Layers
        ensures { result ≡ [] }
    {
        Layers {
            layers: Vec::new(alloc),
        }
    }

    /// The layers of a `Vec`; no memory is taken.
    pub fn of(layers: Vec<Arc<Layer>>) -> Layers
        ensures { result ≡ map (λ a. arc_value a) layers.items }
    {
        Layers { layers }
    }

    /// The `Vec` behind the layers; no memory is taken.
    pub fn into_vec(self) -> Vec<Arc<Layer>>
        ensures { map (λ a. arc_value a) result.items ≡ self }
    {
        let Layers { layers } = self;
        layers
    }

    pub fn as_slice(&self) -> &[Arc<Layer>]
        ensures { map (λ a. arc_value a) result.now ≡ self.now }
    {
        &self.layers
    }

    pub fn len(&self) -> usize
        ensures count { result ≡ length self.now }
        ensures small { result < 2 ^ 63 }
    {
        self.layers.len()
    }

    /// The page of the topmost layer that has it.
    pub fn find(&self, page: u64) -> Option<&PageBuf>
        ensures { option_copied result ≡ top_page self.now page }
    {
        find_page(&self.layers, page)
    }

    /// A second owner of each layer from a place on.
    pub(crate) fn share_from(&self, alloc: Global, from: usize) -> Result<Layers, NoMemory>
        requires { from ≤ length self.now }
        ensures { IfOk result (λ l. l ≡ drop from self.now) }
    {
        let Ok(layers) = share(alloc, &self.layers[from..]) else {
            return Err(NoMemory);
        };
        Ok(Layers { layers })
    }

    /// Puts a layer on top, or gives it back.
    pub(crate) fn push(&mut self, alloc: Global, layer: Layer) -> Result<(), Layer>
        ensures ok { OnOk result (self.new ≡ self.old ++ layer ∷ []) }
        ensures err { OnErr result (self.new ≡ self.old) }
        ensures given_back { IfErr result (λ l. l ≡ layer) }
    {
        if self.layers.reserve(1).is_err() {
            return Err(layer);
        }
        match Arc::new(alloc, layer) {
            Ok(shared) => {
                push_shared(&mut self.layers, shared);
                Ok(())
            }
            Err(failed) => Err(failed.value),
        }
    }

    /// Takes the pages of the layers from a place on into the own layer over them.
    pub(crate) fn lower(
        &mut self,
        alloc: Global,
        since: usize,
        top: &mut Top,
    ) -> Result<(), NoMemory>
        requires { since ≤ length self.old }
        ensures lowers { Lowers since self.old top.old.pages self.new top.new.pages }
        ensures ok { OnOk result (length self.new ≡ since) }
    {
        top.pull(alloc, &mut self.layers, since)
    }

    /// Makes at most one layer of all.
    pub(crate) fn flatten(&mut self, alloc: Global) -> Result<(), NoMemory>
        ensures alike { ShowAlike self.old self.new }
        ensures ok { OnOk result (length self.new ≤ 1) }
    {
        flatten_in(alloc, &mut self.layers)
    }
}
