// Where numbers stand in a list.
ghost use Rattle.std.specs.Prelude.{◌≡◌, IfOk};
ghost use Rattle.std.specs.BTreeMap.{get};
ghost use Rattle.std.specs.Ordering.{nat_cmp};
ghost use Rattle.half_trees.specs.Places.{ArePlaces};

use std::alloc::{AllocError, Global};
use std::collections::BTreeMap;

/// The first place of each number.
pub(crate) type Places = BTreeMap<u32, usize>;

/// The places of these numbers.
pub(crate) fn places_of(alloc: Global, numbers: &[u32]) -> Result<Places, AllocError>
    ensures { IfOk result (λ m. ArePlaces m numbers.now) }
{
    let mut places = BTreeMap::new(alloc);
    let mut at = numbers.len();
    while at > 0 {
        at -= 1;
        places.insert(numbers[at], at)?;
    }
    Ok(places)
}

/// The place of this number.
pub(crate) fn place_of(places: &Places, n: u32) -> Option<usize>
    ensures { result ≡ get nat_cmp places.now n }
{
    places.get(&n).copied()
}
