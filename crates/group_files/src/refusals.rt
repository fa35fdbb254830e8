use lists::NoMemory;

/// Why a file wasn't created. Nothing has changed.
#[derive(Clone, Copy, Debug, Drop, PartialEq, Eq)]
pub enum CreateRefused {
    /// There is a file of this name.
    Exists,
    /// There are 64 files.
    TableFull,
    /// The machine refused memory.
    NoMemory,
}

/// The length is above 1,048,576 bytes. Nothing has changed.
#[derive(Clone, Copy, Debug, Drop, PartialEq, Eq)]
pub struct TooBig;

impl From<NoMemory> for CreateRefused {
    ghost use Rattle.std.specs.Prelude.{◌≡◌};
    ghost use Rattle.group_files.specs.declared.refusals.CreateRefused.TheVariants.{NoMemory};

    ghost from_gives = { λ _ refused. refused ≡ NoMemory };

    fn from(_: NoMemory) -> CreateRefused {
        CreateRefused::NoMemory
    }
}
