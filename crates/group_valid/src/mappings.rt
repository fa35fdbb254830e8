ghost use Rattle.std.specs.Prelude.{◌≡◌, ◌↔◌, IsTrue};
ghost use Rattle.address_maps.specs.Mappings as of_mappings;
ghost use Rattle.group_defs.specs.Mappings.{IsUserMapping, IsInside};
ghost use Rattle.address_maps.specs.Mappings.{AreApart};

use address_maps::Mapping;
use group_defs::ObjectRec;

fn end_of(m: &Mapping) -> u128
    ensures { result ≡ of_mappings.end_of m.now }
{
    u128::from(m.start) + 4_096 * u128::from(m.pages)
}

/// Whether a mapping lies where one may lie.
#[tactic(auto, unfolding(group_defs::specs::Mappings::IsUserMapping))]
pub fn is_placed(m: &Mapping) -> bool
    ensures { IsTrue result ↔ IsUserMapping m.now }
{
    m.start % 4_096 == 0 && m.pages >= 1 && m.start >= 4_096 && end_of(m) <= 1 << 38 && m.prot <= 7
}

/// Whether a mapping lies inside its object.
#[tactic(auto, unfolding(group_defs::specs::Mappings::IsInside))]
pub fn is_inside(objects: &[ObjectRec], m: &Mapping) -> bool
    ensures { IsTrue result ↔ IsInside objects.now m.now }
{
    let end = u128::from(m.first) + u128::from(m.pages);
    objects
        .iter()
        .any(|o| o.number == m.object && end <= u128::from(o.pages))
}

/// Whether no two mappings share a page.
pub fn are_apart(maps: &[Mapping]) -> bool
    ensures { IsTrue result ↔ AreApart maps.now }
{
    maps.is_sorted_by(|m, n| end_of(m) <= u128::from(n.start))
}
