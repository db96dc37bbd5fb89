// Which functions are well formed.
ghost use Rattle.std.specs.Prelude.{◌≡◌, ◌&&◌, false, Some, length, map, nat_eq, take};
ghost use Rattle.std.specs.List.{list_all};
ghost use Rattle.typed_tree.specs.WellFormed as typed;
ghost use Rattle.pt_core.specs.CodeTree.{view_boot, view_function};
ghost use Rattle.pt_core.specs.WellFormed as well;

use crate::candidate::Candidate;
use crate::code::{has_fitting_body, signature_at};
use crate::objects::is_small;
use crate::params::params_lead;
use crate::structs::is_variable;
use pt_core::CoreFn;
use pt_tree::{Param, Signature};
use typed_tree::{Var, VarTy};

/// Whether each function is well formed.
pub(crate) fn functions_fit(candidate: &Candidate<'_>, functions: &[CoreFn]) -> bool
    ensures { result ≡ list_all (well.function_fits false (well.boot_program (view_boot candidate.now.boot.now))) (map view_function functions.now) }
{
    for function in functions {
        if !function_fits(candidate, function) {
            return false;
        }
    }
    true
}

fn function_fits(candidate: &Candidate<'_>, function: &CoreFn) -> bool
    ensures { result ≡ well.function_fits false (well.boot_program (view_boot candidate.now.boot.now)) (view_function function.now) }
{
    match signature_at(candidate, function.id) {
        Some(signature) => fits_signature(candidate, function, signature),
        None => false,
    }
}

// Whether a function with this signature is well formed.
fn fits_signature(candidate: &Candidate<'_>, function: &CoreFn, signature: &Signature) -> bool
    ensures { result ≡ well.function_by false (well.boot_program (view_boot candidate.now.boot.now)) (view_function function.now) (Some signature.now) }
{
    let vars = function.vars.as_slice();
    !signature.host
        && has_params(signature.params.as_slice(), function.params, vars)
        && (vars_fit(candidate, vars) && has_fitting_body(candidate, function, signature.result))
}

// Whether there are so many parameters, and they are the first variables.
fn has_params(params: &[Param], count: u8, vars: &[Var]) -> bool
    ensures { result ≡ (nat_eq count (length params.now) && typed.params_lead (take count params.now) vars.now) }
{
    if count as usize != params.len() {
        return false;
    }
    params_lead(params, vars)
}

// Whether each variable has a type that there is, and at most 65,536 cells.
fn vars_fit(candidate: &Candidate<'_>, vars: &[Var]) -> bool
    ensures { result ≡ list_all (well.variable_fits candidate.now.boot.now.structs) vars.now }
{
    for var in vars {
        if !var_fits(candidate, var.ty) {
            return false;
        }
    }
    true
}

fn var_fits(candidate: &Candidate<'_>, ty: VarTy) -> bool
    ensures { result ≡ (typed.is_variable_type (length candidate.now.boot.now.structs) ty && typed.is_small candidate.now.boot.now.structs ty) }
{
    is_variable(candidate.boot.structs.as_slice().len(), ty) && is_small(candidate, ty)
}
