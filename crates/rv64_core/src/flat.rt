//! Memory in one list of bytes.

ghost use Rattle.std.specs.Prelude.{◌≡◌, ℕ, ◌+◌, ◌*◌, ◌/◌, ◌^◌, ◌<◌, ◌≤◌, IfSome, IsTrue, List, length, slice_index};
ghost use Rattle.std.specs.Option.{option_map};
ghost use Rattle.rv64_isa.specs.Memory.{bytes_with, byte_with, can_write, stored};
ghost use Rattle.rv64_isa.specs.Numbers.{number_of};
ghost use Rattle.rv64_core.specs.Flat.{flat_cells, flat_private};

use crate::space::Space;
use lists::NoMemory;

/// One private object from address 0 on. Each page of 4,096 bytes has its rights: 1 for READ, 2 for WRITE and 4 for EXEC
/// together; a page that the list of rights doesn't reach has none.
#[derive(Drop)]
pub struct Flat {
    pub rights: Vec<u8>,
    pub bytes: Vec<u8>,
}

impl Flat {
    /// The rights of the page with an address.
    fn rights_at(&self, address: u64) -> u8
        ensures { result ≡ slice_index self.now.rights.items (address / 4096) }
    {
        let page = address / 4096;
        if page < self.rights.len() as u64 {
            self.rights[page as usize]
        } else {
            0
        }
    }

    /// The byte at an address, where its page has the right.
    fn byte(&self, right: u8, address: u64) -> Option<u8>
        requires { 0 < right }
        ensures value { result ≡ byte_with right
            (flat_cells self.now.rights.items self.now.bytes.items) address }
    {
        if address < self.bytes.len() as u64 && self.rights_at(address) / right % 2 == 1 {
            Some(self.bytes[address as usize])
        } else {
            None
        }
    }

    /// The number in n bytes, where each has the right.
    fn number(&self, right: u8, address: u64, n: u8) -> Option<u64>
        requires right { 0 < right }
        requires size { n ≤ 8 }
        ensures value { result ≡ option_map number_of
            (bytes_with right (flat_cells self.now.rights.items self.now.bytes.items) address n) }
        ensures range { IfSome result (λ v. v < 2 ^ (8 * n)) }
        ensures within { IfSome result (λ v. 0 < n → address + n ≤ length self.now.bytes.items) }
    {
        if n == 0 {
            return Some(0);
        }
        match self.byte(right, address) {
            None => None,
            Some(low) => match self.number(right, address.wrapping_add(1), n - 1) {
                None => None,
                Some(high) => Some(u64::from(low) + high * 256),
            },
        }
    }

    /// Whether n bytes can be stored at an address.
    pub fn can_store(&self, address: u64, n: u8) -> bool
        requires { n ≤ 8 }
        ensures able { result ≡ can_write (flat_cells self.now.rights.items self.now.bytes.items)
            address n }
        ensures within { IsTrue result → 0 < n → address + n ≤ length self.now.bytes.items }
    {
        self.number(2, address, n).is_some()
    }
}

/// Puts bytes from an address on.
fn put(bytes: &mut [u8], address: u64, new: &[u8])
    requires { address + length new.now ≤ length bytes.old }
    ensures { (rights : List ℕ) → flat_cells rights bytes.new
        ≡ stored (flat_cells rights bytes.old) address new.now }
{
    match new {
        [] => {}
        [first, rest @ ..] => {
            bytes[address as usize] = *first;
            put(bytes, address + 1, rest);
        }
    }
}

impl Space for Flat {
    ghost cells = { λ s. flat_cells s.rights.items s.bytes.items };

    ghost table = { λ _. tt };

    ghost landed = { λ _ _ _. tt };

    ghost all_private = { λ s address. flat_private s.rights.items s.bytes.items address };

    fn fetch(&mut self, pc: u64) -> Option<u32> {
        match self.number(4, pc, 4) {
            Some(word) => Some(word as u32),
            None => None,
        }
    }

    fn load(&mut self, address: u64, n: u8) -> Option<u64> {
        self.number(1, address, n)
    }

    fn store(&mut self, address: u64, n: u8, value: u64) -> Result<bool, NoMemory> {
        if !self.can_store(address, n) {
            return Ok(false);
        }
        let low_first = value.to_le_bytes();
        put(&mut self.bytes, address, &low_first[..usize::from(n)]);
        Ok(true)
    }
}
