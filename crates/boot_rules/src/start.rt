// Whether there is one function to start with.
ghost use Rattle.std.specs.Prelude.{◌≡◌, map};
ghost use Rattle.std.specs.List.{list_any};
ghost use Rattle.typed_tree.specs.WellFormed as typed;
ghost use Rattle.pt_core.specs.CodeTree.{view_boot, view_function};
ghost use Rattle.pt_core.specs.WellFormed as well;

use crate::candidate::Candidate;
use crate::code::signature_at;
use pt_base::{FnId, IntType};
use pt_core::CoreFn;
use typed_tree::is_main;

/// Whether one function, and no second, has the name main, gives an int and takes nothing.
pub(crate) fn has_main(candidate: &Candidate<'_>) -> bool
    ensures { result ≡ well.has_main (well.boot_program (view_boot candidate.now.boot.now)) }
{
    let mut rest = candidate.boot.functions.as_slice();
    while let [function, others @ ..] = rest {
        if is_main_number(candidate, function.id) {
            return may_start(candidate, function.id) && !any_main(candidate, others);
        }
        rest = others;
    }
    false
}

fn any_main(candidate: &Candidate<'_>, functions: &[CoreFn]) -> bool
    ensures { result ≡ list_any (λ f. well.is_main_by (well.signature_at (well.boot_program (view_boot candidate.now.boot.now)) f.id)) (map view_function functions.now) }
{
    for function in functions {
        if is_main_number(candidate, function.id) {
            return true;
        }
    }
    false
}

fn is_main_number(candidate: &Candidate<'_>, f: FnId) -> bool
    ensures { result ≡ well.is_main_by (well.signature_at (well.boot_program (view_boot candidate.now.boot.now)) f.0) }
{
    match signature_at(candidate, f) {
        Some(signature) => is_main(signature),
        None => false,
    }
}

// Whether it gives an int and takes nothing.
fn may_start(candidate: &Candidate<'_>, f: FnId) -> bool
    ensures { result ≡ well.starts_by (well.signature_at (well.boot_program (view_boot candidate.now.boot.now)) f.0) }
{
    match signature_at(candidate, f) {
        Some(signature) => { gives_int(signature.result) && signature.params.as_slice().is_empty() }
        None => false,
    }
}

fn gives_int(ty: Option<IntType>) -> bool
    ensures { result ≡ typed.is_int_result ty }
{
    match ty {
        Some(t) => t == IntType::Int,
        None => false,
    }
}
