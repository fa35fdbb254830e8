use lists::NoMemory;

/// Why a mapping wasn't added. Nothing has changed.
#[derive(Clone, Copy, Debug, Drop, PartialEq, Eq)]
pub enum AddRefused {
    /// One of its bytes is mapped.
    Overlap,
    /// There are 1,024 mappings.
    Full,
    /// The machine refused memory.
    NoMemory,
}

/// Why a range wasn't cut. Nothing has changed.
#[derive(Clone, Copy, Debug, Drop, PartialEq, Eq)]
pub enum CutRefused {
    /// More than 1,024 mappings would stand.
    Full,
    /// The machine refused memory.
    NoMemory,
}

impl From<NoMemory> for AddRefused {
    ghost use Rattle.std.specs.Prelude.{◌≡◌};
    ghost use Rattle.address_maps.specs.declared.refusals.AddRefused.TheVariants.{NoMemory};

    ghost from_gives = { λ _ refused. refused ≡ NoMemory };

    fn from(_: NoMemory) -> AddRefused {
        AddRefused::NoMemory
    }
}

impl From<NoMemory> for CutRefused {
    ghost use Rattle.std.specs.Prelude.{◌≡◌};
    ghost use Rattle.address_maps.specs.declared.refusals.CutRefused.TheVariants.{NoMemory};

    ghost from_gives = { λ _ refused. refused ≡ NoMemory };

    fn from(_: NoMemory) -> CutRefused {
        CutRefused::NoMemory
    }
}
