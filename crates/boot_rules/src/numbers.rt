// Lists in the order of their numbers.
ghost use Rattle.std.specs.Prelude.{◌≡◌, map};
ghost use Rattle.typed_tree.specs.WellFormed.{are_rising};
ghost use Rattle.pt_core.specs.CodeTree.{numbered, view_function, view_global};

use pt_base::FnId;
use pt_core::{CoreFn, GlobalVar};

/// Whether what a list has for functions is in the order of their numbers, with no number twice.
pub(crate) fn numbers_rise<T>(items: &[(FnId, T)]) -> bool
    ensures { result ≡ are_rising 0 (map (λ x. x.0) (numbered items.now)) }
{
    let mut least = 0;
    for item in items {
        let number = u64::from(item.0.0);
        if number < least {
            return false;
        }
        least = number + 1;
    }
    true
}

/// The same of functions.
pub(crate) fn functions_rise(functions: &[CoreFn]) -> bool
    ensures { result ≡ are_rising 0 (map (λ f. f.id) (map view_function functions.now)) }
{
    let mut least = 0;
    for function in functions {
        let number = u64::from(function.id.0);
        if number < least {
            return false;
        }
        least = number + 1;
    }
    true
}

/// The same of globals.
pub(crate) fn globals_rise(globals: &[GlobalVar]) -> bool
    ensures { result ≡ are_rising 0 (map (λ g. g.id) (map view_global globals.now)) }
{
    let mut least = 0;
    for global in globals {
        let number = u64::from(global.id.0);
        if number < least {
            return false;
        }
        least = number + 1;
    }
    true
}
