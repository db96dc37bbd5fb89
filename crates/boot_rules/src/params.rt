// Parameters as the first variables of functions.
ghost use Rattle.std.specs.Prelude.{◌≡◌, ◌&&◌};
ghost use Rattle.typed_tree.specs.TypeTests as types;
ghost use Rattle.typed_tree.specs.WellFormed as typed;
ghost use Rattle.typed_tree.specs.WellFormedExpression.{param_type};

use pt_tree::{Param, ParamKind};
use typed_tree::{Var, VarTy, param_type, same_type};

/// Whether the first variables have the types and marks of the parameters.
pub(crate) fn params_lead(params: &[Param], vars: &[Var]) -> bool
    ensures { result ≡ typed.params_lead params.now vars.now }
{
    let mut rest = params;
    let mut left = vars;
    while let [param, after @ ..] = rest {
        let [var, others @ ..] = left else {
            return false;
        };
        if !is_param(param.kind, param.marked, var.ty, var.marked) {
            return false;
        }
        rest = after;
        left = others;
    }
    true
}

// Whether a variable has a parameter's type and mark.
fn is_param(kind: ParamKind, marked: bool, ty: VarTy, also: bool) -> bool
    ensures { result ≡ (types.same_type (param_type kind) ty && types.same_bool marked also) }
{
    same_type(param_type(kind), ty) && same_bool(marked, also)
}

// Whether both hold or neither does.
fn same_bool(a: bool, b: bool) -> bool
    ensures { result ≡ types.same_bool a b }
{
    a == b
}
