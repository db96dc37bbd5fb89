// What functions and hosts are called with, by their numbers.
ghost use Rattle.std.specs.Prelude.{◌≡◌, IsTrue, map, nat_eq};
ghost use Rattle.std.specs.Map.{lookup};
ghost use Rattle.std.specs.Option.{option_copied};
ghost use Rattle.typed_tree.specs.WellFormed.{are_rising};
ghost use Rattle.pt_core.specs.CodeTree.{numbered};

use code_rules::{Names, signature_of};
use pt_base::FnId;
use pt_core::Signatures;
use pt_tree::Signature;
use std::alloc::{AllocError, Global};

/// What functions and hosts are called with, in the order of their numbers.
#[derive(Drop)]
pub(crate) struct Signed {
    pub(crate) signatures: Signatures,
    // By number, the place of a signature that may be there.
    places: Vec<usize>,
    ghost rising: { IsTrue (are_rising 0 (map (λ s. s.0) (numbered signatures))) },
}

impl Signed {
    ghost use Rattle.std.specs.Prelude.{◌≡◌, IfOk, IsTrue, map, nat_eq};
    ghost use Rattle.std.specs.Map.{lookup};
    ghost use Rattle.std.specs.Option.{option_copied};
    ghost use Rattle.typed_tree.specs.WellFormed.{are_rising};
    ghost use Rattle.pt_core.specs.CodeTree.{numbered};

    /// These, which are in the order of their numbers.
    pub(crate) fn new(alloc: Global, signatures: Signatures) -> Result<Signed, AllocError>
        requires { IsTrue (are_rising 0 (map (λ s. s.0) (numbered signatures))) }
        ensures { IfOk result (λ x. x.signatures ≡ signatures) }
    {
        let places = places_of(alloc, signatures.as_slice())?;
        Ok(Signed { signatures, places })
    }

    /// What the function of this number is called with.
    #[inline(always)]
    pub(crate) fn signature(&self, f: FnId) -> Option<&Signature>
        ensures { option_copied result ≡ lookup (nat_eq f.0) (numbered self.now.signatures) }
    {
        let signatures = self.signatures.as_slice();
        if let Some(place) = self.places.get(f.0 as usize) {
            let place = *place;
            if place < signatures.len() && signatures[place].0.0 == f.0 {
                return Some(&signatures[place].1);
            }
        }
        searched(signatures, f)
    }
}

// The same, searched for by halves.
fn searched(signatures: &[(FnId, Signature)], f: FnId) -> Option<&Signature>
    requires { IsTrue (are_rising 0 (map (λ s. s.0) (numbered signatures.now))) }
    ensures { option_copied result ≡ lookup (nat_eq f.0) (numbered signatures.now) }
{
    let names = Names {
        structs: &[],
        globals: &[],
        signatures,
    };
    signature_of(&names, f)
}

// A number that is greater has no place of its own.
const GREATEST: usize = 65535;

// Of each number, the place of its signature; of a number that has none, any place.
fn places_of(alloc: Global, signatures: &[(FnId, Signature)]) -> Result<Vec<usize>, AllocError> {
    let mut places = Vec::new(alloc);
    for (place, entry) in signatures.iter().enumerate() {
        let number = entry.0.0 as usize;
        if number > GREATEST {
            break;
        }
        places.resize(number, 0)?;
        places.push(place)?;
    }
    Ok(places)
}
