// Functions by their numbers.
ghost use Rattle.std.specs.Prelude.{◌≡◌, false, is_some, option_map};
ghost use Rattle.std.specs.Option.{option_map_or};
ghost use Rattle.typed_tree.specs.TypedTree.{view_function};
ghost use Rattle.typed_tree.specs.TypedView.{view_typed};
ghost use Rattle.typed_tree.specs.Lookup.{function_at};
ghost use Rattle.reach.specs.CallGraph as graph;
ghost use Rattle.reach.specs.Contexts as is;

use crate::calls::Half;
use pt_base::FnId;
use typed_tree::{Typed, TypedFn};

/// The function of this number, None where there is none.
pub fn function_at(t: &Typed, f: FnId) -> Option<&TypedFn>
    ensures { option_map (λ g. view_function g.now) result ≡ function_at (view_typed t.now) f }
{
    t.functions.get(f.0 as usize)
}

/// Whether it has a body and is marked `priv`.
pub(crate) fn is_privileged(function: &TypedFn) -> bool
    ensures { result ≡ is.is_privileged (view_function function.now) }
{
    function.body.is_some() && function.signature.privileged
}

// whether a call of it stays in a half
fn is_entered(half: Half, function: &TypedFn) -> bool
    ensures { result ≡ graph.is_entered half (view_function function.now) }
{
    match half {
        Half::Monitor => function.body.is_some(),
        Half::Slave => function.body.is_some() && !function.signature.privileged,
    }
}

/// Whether a call of the function of this number stays in a half.
pub(crate) fn stays(t: &Typed, half: Half, f: FnId) -> bool
    ensures { result ≡ is.test_function (graph.is_entered half) (view_typed t.now) f }
{
    match function_at(t, f) {
        Some(function) => is_entered(half, function),
        None => false,
    }
}
