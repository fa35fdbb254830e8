ghost use Rattle.std.specs.Prelude.{◌≡◌, IfOk, IsErrOf};
ghost use Rattle.std.specs.Option.{ForSome, option_map};
ghost use Rattle.dev_traits.specs.Counts.{HasCause};
ghost use Rattle.dev_traits.specs.Outside.{FilesView};

use std::alloc::{AllocError, Global};

/// A file that could not be read.
#[derive(Clone, Copy, Debug, Drop, PartialEq, Eq)]
pub enum FilesFailed {
    Failed,
    NoMemory,
}

impl From<AllocError> for FilesFailed {
    ghost use Rattle.dev_traits.specs.declared.files.FilesFailed.TheVariants.{NoMemory};

    ghost from_gives = { λ _ e. e ≡ NoMemory };

    fn from(_: AllocError) -> FilesFailed {
        FilesFailed::NoMemory
    }
}

/// Files by name, which no call changes.
pub trait Files {
    ghost view: { Self → FilesView };

    /// The whole file, or None where no file has that name.
    fn read(&mut self, alloc: Global, name: &str) -> Result<Option<Vec<u8>>, FilesFailed>
        ensures whole { IfOk result
            (λ found. ForSome (view self.old).contents
            (λ held. option_map (λ v. v.items) found ≡ held name.now)) }
        ensures contents { (view self.new).contents ≡ (view self.old).contents }
        ensures faults { HasCause (view self.old).faults (view self.new).faults
            (IsErrOf result FilesFailed.Failed) };
}
