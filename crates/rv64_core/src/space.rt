//! The private memory of a process.

ghost use Rattle.std.specs.Prelude.{◌≡◌, ℕ, ◌*◌, ◌^◌, ◌<◌, List, false, IfOk, OnErr, IfSome, MatchBool, IsTrue};
ghost use Rattle.std.specs.Option.{ForSome, option_map};
ghost use Rattle.rv64_isa.specs.Memory.{Cells, fetched, readable, can_write, stored};
ghost use Rattle.rv64_isa.specs.Numbers.{bytes_of, number_of};
ghost use Rattle.rv64_isa.specs.Instruction.{IsSize};

use lists::NoMemory;

/// Memory of one process, of which nobody else has a byte. It answers for private bytes with the right alone. Addresses
/// are modulo 2^64, and n is the number of bytes, low first.
pub trait Space {
    /// The cells of private mappings.
    ghost cells: { Self → Cells };

    /// What the layer above keeps behind the cells, and what becomes of it when bytes are stored at an address.
    ghost Table: { Type 0 } = { Unit {0} };

    ghost table: { Self → Self.Table };

    ghost landed: { Self.Table → ℕ → List ℕ → Self.Table };

    /// What lies in a shared mapping has no cell here.
    ghost all_private: { (s : Self) (address : ℕ) → ForSome (cells s address)
        (λ c. c.shared ≡ false) };

    /// The word at pc; none where one of its four bytes isn't private or lacks EXEC. What is kept to find a page sooner may
    /// change, and nothing that is seen.
    fn fetch(&mut self, pc: u64) -> Option<u32>
        ensures value { result ≡ fetched (cells self.old) pc }
        ensures cells { cells self.new ≡ cells self.old }
        ensures table { Self.table self.new ≡ Self.table self.old };

    /// The number in n bytes; none where one of them isn't private or lacks READ. What is kept to find a page sooner may
    /// change, and nothing that is seen.
    fn load(&mut self, address: u64, n: u8) -> Option<u64>
        requires { IsSize n }
        ensures value { result ≡ option_map number_of (readable (cells self.old) address n) }
        ensures range { IfSome result (λ v. v < 2 ^ (8 * n)) }
        ensures cells { cells self.new ≡ cells self.old }
        ensures table { Self.table self.new ≡ Self.table self.old };

    /// Stores the low n bytes of a value; false, and nothing is stored, where one of them isn't private or lacks WRITE.
    fn store(&mut self, address: u64, n: u8, value: u64) -> Result<bool, NoMemory>
        requires { IsSize n }
        ensures able { IfOk result (λ able. able ≡ can_write (cells self.old) address n) }
        ensures ok { IfOk result (λ able. MatchBool able
            (cells self.new ≡ stored (cells self.old) address (bytes_of n value))
            (cells self.new ≡ cells self.old)) }
        ensures table { IfOk result (λ able. MatchBool able
            (Self.table self.new ≡ Self.landed (Self.table self.old) address (bytes_of n value))
            (Self.table self.new ≡ Self.table self.old)) }
        ensures able_first { OnErr result (IsTrue (can_write (cells self.old) address n)) }
        ensures err { OnErr result (cells self.new ≡ cells self.old) }
        ensures table_err { OnErr result (Self.table self.new ≡ Self.table self.old) };
}
