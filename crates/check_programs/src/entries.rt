// The entries of functions, variables and structs in the typed tree.
ghost use Rattle.std.specs.Prelude.{◌≡◌, map, IfOk};
ghost use Rattle.typed_tree.specs.TypedTree.{view_function};
ghost use Rattle.check_expressions.specs.StructInfos as objects;
ghost use Rattle.check_programs.specs.Progress as results;
ghost use Rattle.check_programs.specs.Functions as is;

use crate::function_marks::{FunctionMarks, marks_at};
use check_declarations::Marks;
use check_expressions::{Callable, Variable};
use pt_base::{IntType, Listed, Span};
use pt_tree::{Param, ParamKind, Signature};
use std::alloc::{AllocError, Global};
use type_rules::Type;
use typed_tree::{TypedFn, Var, VarTy};

/// The type of an object; that of a faulty one is any.
#[tactic(auto, unfolding(check_expressions::specs::Operands::var_type))]
pub(crate) fn object_type_of(ty: Type) -> VarTy
    ensures { result ≡ objects.object_type_of ty }
{
    match ty {
        Type::Bad | Type::Void => VarTy::Int(IntType::Int),
        Type::Int(t) => VarTy::Int(t),
        Type::Struct(n) => VarTy::Struct(n),
        Type::Array { elem, count } => VarTy::Array { elem, count },
        Type::Pointer { elem, fixed } => VarTy::Pointer { elem, fixed },
    }
}

/// The type of a result; None is void. That of a faulty one is any.
pub(crate) fn result_of(ty: Type) -> Option<IntType>
    ensures { result ≡ results.result_type_of ty }
{
    match ty {
        Type::Int(t) => Some(t),
        Type::Bad | Type::Void | Type::Struct(_) | Type::Array { .. } | Type::Pointer { .. } =>
            None,
    }
}

/// A variable in the typed tree.
fn var_of(alloc: Global, variable: &Variable) -> Result<Var, AllocError>
    ensures { IfOk result (λ v. v ≡ is.var_of variable.now) }
{
    Ok(Var {
        name: variable.name.copy(alloc)?,
        span: variable.span,
        ty: object_type_of(variable.ty),
        marked: variable.marked,
        unpriv: variable.unpriv,
        holds: None,
    })
}

/// The variables of a function in the typed tree.
pub(crate) fn vars_of(alloc: Global, variables: &[Variable]) -> Result<Vec<Var>, AllocError>
    ensures { IfOk result (λ vars. vars.items ≡ map is.var_of variables.now) }
{
    let mut vars = Vec::with_capacity(alloc, variables.len())?;
    for variable in variables {
        vars.push(var_of(alloc, variable)?)?;
    }
    Ok(vars)
}

/// The types of variables, in order.
pub(crate) fn types_of(alloc: Global, variables: &[Variable]) -> Result<Vec<Type>, AllocError>
    ensures { IfOk result (λ types. types.items ≡ map (λ v. v.ty) variables.now) }
{
    let mut types = Vec::with_capacity(alloc, variables.len())?;
    for variable in variables {
        types.push(variable.ty)?;
    }
    Ok(types)
}

/// What a parameter of this type takes; that of a faulty one is any.
fn kind_of(ty: Type) -> ParamKind
    ensures { result ≡ is.kind_of ty }
{
    match ty {
        Type::Int(t) => ParamKind::Int(t),
        Type::Pointer { elem, fixed } => ParamKind::Ptr { elem, fixed },
        Type::Bad | Type::Void | Type::Struct(_) | Type::Array { .. } => {
            ParamKind::Int(IntType::Int)
        }
    }
}

fn param_of(marks: Marks, ty: Type) -> Param
    ensures { result ≡ is.param_of marks ty }
{
    Param {
        kind: kind_of(ty),
        marked: marks.marked,
        declassify: marks.declassify,
    }
}

/// The parameters of these types, with their marks by position.
fn params_of(alloc: Global, marks: &[Marks], types: &[Type]) -> Result<Vec<Param>, AllocError>
    ensures { IfOk result (λ ps. ps.items ≡ is.params_of marks.now 0 types.now) }
{
    let mut params = Vec::with_capacity(alloc, types.len())?;
    for ty in types {
        let own = marks_at(marks, params.len());
        params.push(param_of(own, *ty))?;
    }
    Ok(params)
}

/// What a function is called with, and how it is marked.
pub(crate) fn signature_of(
    alloc: Global,
    marks: &FunctionMarks,
    function: &Callable,
) -> Result<Signature, AllocError>
    ensures { IfOk result (λ s. s ≡ is.signature_of marks.now function.now) }
{
    let params = params_of(alloc, marks.params.as_slice(), function.params.as_slice())?;
    Ok(Signature {
        name: function.name.copy(alloc)?,
        result: result_of(function.result),
        params: Listed::new(params),
        host: !marks.defined,
        privileged: marks.privileged,
        declassify: marks.declassify,
    })
}

/// The entry of a function, as its first declaration has it: its variables are its parameters.
pub(crate) fn entry_of(
    alloc: Global,
    marks: &FunctionMarks,
    function: &Callable,
    variables: &[Variable],
    at: Span,
) -> Result<TypedFn, AllocError>
    ensures { IfOk result (λ f. view_function f ≡ is.entry_of marks.now function.now variables.now at) }
{
    Ok(TypedFn {
        signature: signature_of(alloc, marks, function)?,
        name: at,
        vars: Listed::new(vars_of(alloc, variables)?),
        body: None,
    })
}
