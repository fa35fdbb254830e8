//! Where a byte of a process lies.
ghost use Rattle.std.specs.Prelude.{◌≡◌, ◌<◌};
ghost use Rattle.rv64_isa.specs.Numbers.{has_bit};

/// Where the byte at an address lies, in a mapping of these rights.
#[derive(Clone, Copy, Debug)]
pub struct MappedByte {
    pub rights: u8,
    /// The object's place among the objects.
    pub object: usize,
    /// The byte's place in the object.
    pub place: usize,
    /// How many bytes the mapping has from there on.
    pub room: u64,
}

impl MappedByte {
    pub fn allows(&self, right: u8) -> bool
        requires { 0 < right }
        ensures { result ≡ has_bit self.now.rights right }
    {
        self.rights / right % 2 == 1
    }
}
