// Which signatures are well formed.
ghost use Rattle.std.specs.Prelude.{◌≡◌};
ghost use Rattle.std.specs.List.{list_all};
ghost use Rattle.typed_tree.specs.WellFormed.{is_integer_kind, is_integer_param};
ghost use Rattle.pt_core.specs.CodeTree.{numbered};
ghost use Rattle.pt_core.specs.WellFormed as well;

use crate::structs::is_variable;
use pt_base::FnId;
use pt_tree::{Param, ParamKind, Signature};
use typed_tree::{StructInfo, param_type};

// The most parameters of a function or host.
const MOST_PARAMS: usize = 8;

/// Whether each signature has at most 8 parameters of types that there are, and those of hosts are
/// integers.
pub(crate) fn signatures_fit(structs: &[StructInfo], signatures: &[(FnId, Signature)]) -> bool
    ensures { result ≡ list_all (λ s. well.signature_fits structs.now s.1) (numbered signatures.now) }
{
    for entry in signatures {
        if !signature_fits(structs, &entry.1) {
            return false;
        }
    }
    true
}

fn signature_fits(structs: &[StructInfo], signature: &Signature) -> bool
    ensures { result ≡ well.signature_fits structs.now signature.now }
{
    let params = signature.params.as_slice();
    params.len() <= MOST_PARAMS
        && params_fit(structs.len(), params)
        && (!signature.host || are_integers(params))
}

fn params_fit(structs: usize, params: &[Param]) -> bool
    ensures { result ≡ list_all (well.param_fits structs) params.now }
{
    params
        .iter()
        .all(|param| is_variable(structs, param_type(param.kind)))
}

fn are_integers(params: &[Param]) -> bool
    ensures { result ≡ list_all is_integer_param params.now }
{
    params.iter().all(|param| is_integer(param.kind))
}

fn is_integer(kind: ParamKind) -> bool
    ensures { result ≡ is_integer_kind kind }
{
    match kind {
        ParamKind::Int(_) => true,
        ParamKind::Ptr { .. } => false,
    }
}
