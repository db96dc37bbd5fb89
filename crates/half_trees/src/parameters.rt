// Parameters as they are declared.
ghost use Rattle.std.specs.Prelude.{◌≡◌, ◌++◌, [], ◌∷◌, IfOk, OnOk, map, false};
ghost use Rattle.pt_tree.specs.ProgramTree.{view_param};
ghost use Rattle.half_trees.specs.Declarations as declared;
ghost use Rattle.half_trees.specs.Names as names;

use crate::declarations::is_pointer;
use crate::names::{NOWHERE, local_name, word};
use crate::specifiers::{Marks, object_specs, push_result};
use pt_tree::{Param, ParamDecl, Suffix};
use std::alloc::{AllocError, Global};
use typed_tree::{StructInfo, VarTy, param_type};

/// The parameter of this number.
pub(crate) fn parameter(
    alloc: Global,
    structs: &[StructInfo],
    marks: Marks,
    ty: VarTy,
    number: usize,
) -> Result<ParamDecl, AllocError>
    ensures { IfOk result (λ p. view_param p ≡ declared.parameter structs.now (declared.mark_specs marks.private marks.unpriv marks.declassify) ty (names.local_name number)) }
{
    let specs = object_specs(alloc, structs, marks, ty)?;
    Ok(ParamDecl {
        span: NOWHERE,
        specs,
        pointer: is_pointer(ty),
        name: Some(word(local_name(alloc, number)?)),
        suffix: Suffix::Plain,
    })
}

// `void` in the place of parameters.
fn void_parameter(alloc: Global) -> Result<ParamDecl, AllocError>
    ensures { IfOk result (λ p. view_param p ≡ declared.void_parameter) }
{
    let mut specs = Vec::new(alloc);
    push_result(None, &mut specs)?;
    Ok(ParamDecl {
        span: NOWHERE,
        specs,
        pointer: false,
        name: None,
        suffix: Suffix::Plain,
    })
}

/// The parameters, `void` where there are none.
pub(crate) fn parameters_or_void(
    alloc: Global,
    mut params: Vec<ParamDecl>,
) -> Result<Vec<ParamDecl>, AllocError>
    ensures { IfOk result (λ v. map view_param v.items ≡ declared.parameters_or_void (map view_param params.items)) }
{
    if params.is_empty() {
        params.push(void_parameter(alloc)?)?;
    }
    Ok(params)
}

/// The parameters of a signature.
pub(crate) fn declared_params(
    alloc: Global,
    structs: &[StructInfo],
    params: &[Param],
) -> Result<Vec<ParamDecl>, AllocError>
    ensures { IfOk result (λ v. map view_param v.items ≡ declared.declared_from structs.now 0 params.now) }
{
    let mut trees = Vec::with_capacity(alloc, params.len())?;
    for k in 0..params.len() {
        let param = params[k];
        let marks = Marks {
            private: param.marked,
            unpriv: false,
            declassify: param.declassify,
        };
        trees.push(parameter(alloc, structs, marks, param_type(param.kind), k)?)?;
    }
    Ok(trees)
}
