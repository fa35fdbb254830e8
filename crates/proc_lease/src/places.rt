//! What an address shows.
ghost use Rattle.std.specs.Prelude.{◌≡◌, ◌<◌, ◌&&◌, not, List, IfNone, IfSome, None};
ghost use Rattle.rv64_isa.specs.Memory.{byte_with};
ghost use Rattle.rv64_isa.specs.Numbers.{has_bit};
ghost use Rattle.proc_lease.specs.Private.{ObjectView, private_in, IsPrivatePlace};

use address_maps::{Map, Place};

pub const READ: u8 = 1;

pub const WRITE: u8 = 2;

pub const EXEC: u8 = 4;

fn allows(place: &Place, right: u8) -> bool
    requires { 0 < right }
    ensures { result ≡ (not place.now.shared && has_bit place.now.prot right) }
{
    !place.shared && place.prot / right % 2 == 1
}

/// What an address shows, where its mapping is private and has the right.
pub fn private_place(map: &Map, right: u8, address: u64) -> Option<Place>
    requires { 0 < right }
    ensures some { IfSome result (IsPrivatePlace map.now.entries right address) }
    ensures none { IfNone result ((objects : List ObjectView) → byte_with right
        (private_in objects map.now.entries) address ≡ None) }
{
    match map.find(address) {
        Some(place) => {
            if allows(&place, right) {
                Some(place)
            } else {
                None
            }
        }
        None => None,
    }
}
