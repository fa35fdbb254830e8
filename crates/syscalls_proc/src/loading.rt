//! Numbers in memory.

ghost use Rattle.std.specs.Prelude.{◌≡◌, ◌≤◌, ◌<◌, ◌*◌, ◌^◌, IfSome, length};
ghost use Rattle.std.specs.Option.{option_map};
ghost use Rattle.rv64_isa.specs.Instruction.{IsSize};
ghost use Rattle.rv64_isa.specs.Memory.{readable};
ghost use Rattle.rv64_isa.specs.Numbers.{number_of};

use group_defs::{Fault, UserMem};

// The number that up to 8 bytes spell, low first.
fn spelled(bytes: &[u8]) -> u64
    requires { length bytes.now ≤ 8 }
    ensures value { result ≡ number_of bytes.now }
    ensures range { result < 2 ^ (8 * length bytes.now) }
{
    let mut low_first = [0; 8];
    low_first[..bytes.len()].copy_from_slice(bytes);
    u64::from_le_bytes(low_first)
}

/// The number in n bytes, low first; none where one of them lacks its mapping or READ.
pub fn number_at<M: UserMem>(mem: &M, address: u64, n: u8) -> Option<u64>
    requires { IsSize n }
    ensures value { result ≡ option_map number_of (readable (M.cells mem.now) address n) }
    ensures range { IfSome result (λ v. v < 2 ^ (8 * n)) }
{
    let mut low_first = [0; 8];
    let bytes = &mut low_first[..usize::from(n)];
    match mem.copy_in(address, bytes) {
        Ok(()) => Some(spelled(bytes)),
        Err(Fault) => None,
    }
}
