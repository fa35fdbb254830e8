//! What holds of the objects behind a process's faces, whatever they are.

ghost use Rattle.std.specs.Prelude.{◌≡◌, ◌<◌, ◌||◌, ℕ, List, length};
ghost use Rattle.std.specs.List.{filter};
ghost use Rattle.rv64_isa.specs.Memory.{private_cells};
ghost use Rattle.address_maps.specs.declared.maps.Mapping.{Mapping};
ghost use Rattle.group_defs.specs.Cells.{sight, with_stored};
ghost use Rattle.group_defs.specs.Fork.{maps_privately};
ghost use Rattle.group_defs.specs.Group.{Group};
ghost use Rattle.group_defs.specs.Pages.{is_among, pages_at};
ghost use Rattle.group_defs.specs.declared.frame.Proc.{Proc};
ghost use Rattle.proc_lease.specs.GroupObjects.{HavePrivate, KeepBases, is_in_set, set_of};
ghost use Rattle.proc_lease.specs.Private.{ObjectView, memory_of, private_in, stored_into};

/// A process whose objects have the bytes that its group has for what it maps privately sees of private mappings what the
/// group's process sees of them. They have these bytes where they are the group's objects that it maps privately.
pub fn objects_of_a_group()
    ensures sees { (objects : List ObjectView) (g : Group) (p : Proc)
        → HavePrivate objects g.memory p.maps
        → private_in objects p.maps ≡ private_cells (sight g p) }
    ensures own { (objects : List ObjectView) (memory : List (ℕ × List ℕ)) (maps : List Mapping)
        → memory_of objects ≡ filter (λ o. maps_privately maps o.0) memory
        → HavePrivate objects memory maps }
{}

/// What a process stores comes into the flat table of its objects as into a group's, and exactly the pages that the bytes lie
/// in come into the sets. Every object keeps its number, its pages and its base, and so many pages in its set.
pub fn stores_of_a_process()
    ensures bytes { (objects : List ObjectView) (maps : List Mapping) (address : ℕ)
        (bytes : List ℕ) → memory_of (stored_into objects maps address bytes)
        ≡ with_stored (memory_of objects) maps address bytes }
    ensures sets { (objects : List ObjectView) (maps : List Mapping) (address : ℕ)
        (bytes : List ℕ) (object page : ℕ) → page < length (set_of objects object)
        → is_in_set (stored_into objects maps address bytes) (object, page)
        ≡ (is_in_set objects (object, page)
        || is_among (pages_at maps address bytes) (object, page)) }
    ensures set_sizes { (objects : List ObjectView) (maps : List Mapping) (address : ℕ)
        (bytes : List ℕ) (object : ℕ)
        → length (set_of (stored_into objects maps address bytes) object)
        ≡ length (set_of objects object) }
    ensures bases { (objects : List ObjectView) (maps : List Mapping) (address : ℕ)
        (bytes : List ℕ) → KeepBases objects (stored_into objects maps address bytes) }
{}
