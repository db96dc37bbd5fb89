// Implicit conversions: a form of its own where the type changes, with the operand's span, and none
// where it stays.
ghost use Rattle.std.specs.Prelude.{◌≡◌, IfOk};
ghost use Rattle.typed_tree.specs.ExpressionTree.{view_expr};
ghost use Rattle.check_expressions.specs.Conversions as is;

use pt_base::IntType;
use pt_int::promote;
use pt_tree::Elem;
use std::alloc::{AllocError, Global};
use type_rules::{Type, is_same_int};
use typed_tree::{Form, TypedExpr, VarTy};

/// A value as one of the type, which it fits; `is_null` says that it is a null constant.
#[tactic(auto, unfolding(crate::specs::Conversions::as_type))]
pub fn as_type(
    alloc: Global,
    ty: Type,
    is_null: bool,
    value: TypedExpr,
) -> Result<TypedExpr, AllocError>
    ensures { IfOk result (λ x. view_expr x ≡ is.as_type ty is_null (view_expr value)) }
{
    match ty {
        Type::Bad | Type::Void | Type::Struct(_) | Type::Array { .. } => Ok(value),
        Type::Int(t) => to_int(alloc, t, value),
        Type::Pointer { elem, fixed } => {
            if is_null {
                Ok(to_null(elem, fixed, value))
            } else {
                to_pointer(alloc, elem, fixed, value)
            }
        }
    }
}

/// The integer promotions (C99 6.3.1.1p2) of a value of the type.
#[tactic(auto, unfolding(crate::specs::Conversions::as_promoted))]
pub(crate) fn as_promoted(
    alloc: Global,
    ty: Type,
    value: TypedExpr,
) -> Result<TypedExpr, AllocError>
    ensures { IfOk result (λ x. view_expr x ≡ is.as_promoted ty (view_expr value)) }
{
    match ty {
        Type::Bad | Type::Void | Type::Struct(_) | Type::Array { .. } | Type::Pointer { .. } => {
            Ok(value)
        }
        Type::Int(t) => to_int(alloc, promote(t), value),
    }
}

/// A value as one of the integer type.
#[tactic(auto, unfolding(crate::specs::Conversions::to_int))]
pub(crate) fn to_int(alloc: Global, t: IntType, value: TypedExpr) -> Result<TypedExpr, AllocError>
    ensures { IfOk result (λ x. view_expr x ≡ is.to_int t (view_expr value)) }
{
    if is_of_int(t, value.ty) {
        return Ok(value);
    }
    converted(alloc, VarTy::Int(t), value)
}

/// A pointer to such elements as one whose pointee is const or not.
#[tactic(auto, unfolding(crate::specs::Conversions::to_pointer))]
fn to_pointer(
    alloc: Global,
    elem: Elem,
    fixed: bool,
    value: TypedExpr,
) -> Result<TypedExpr, AllocError>
    ensures { IfOk result (λ x. view_expr x ≡ is.to_pointer elem fixed (view_expr value)) }
{
    if is_of_pointer(fixed, value.ty) {
        return Ok(value);
    }
    converted(alloc, VarTy::Pointer { elem, fixed }, value)
}

/// A null constant as a pointer (C99 6.3.2.3p3).
fn to_null(elem: Elem, fixed: bool, value: TypedExpr) -> TypedExpr
    ensures { view_expr result ≡ is.to_null elem fixed (view_expr value) }
{
    TypedExpr {
        span: value.span,
        ty: Some(VarTy::Pointer { elem, fixed }),
        form: Form::Null,
    }
}

fn converted(alloc: Global, ty: VarTy, value: TypedExpr) -> Result<TypedExpr, AllocError>
    ensures { IfOk result (λ x. view_expr x ≡ is.converted ty (view_expr value)) }
{
    let span = value.span;
    Ok(TypedExpr {
        span,
        ty: Some(ty),
        form: Form::convert(alloc, value)?,
    })
}

/// Whether a value of the second type is one of the integer type.
#[tactic(auto, unfolding(crate::specs::Conversions::is_of_int))]
fn is_of_int(t: IntType, ty: Option<VarTy>) -> bool
    ensures { result ≡ is.is_of_int t ty }
{
    match ty {
        Some(VarTy::Int(u)) => is_same_int(t, u),
        Some(VarTy::Struct(_)) => false,
        Some(VarTy::Array { .. }) => false,
        Some(VarTy::Pointer { .. }) => false,
        None => false,
    }
}

/// Whether a value of the second type is a pointer whose pointee is const or not, as `fixed` says.
#[tactic(auto, unfolding(crate::specs::Conversions::is_of_pointer))]
fn is_of_pointer(fixed: bool, ty: Option<VarTy>) -> bool
    ensures { result ≡ is.is_of_pointer fixed ty }
{
    match ty {
        Some(VarTy::Pointer { fixed: own, .. }) => fixed == own,
        Some(VarTy::Int(_)) => false,
        Some(VarTy::Struct(_)) => false,
        Some(VarTy::Array { .. }) => false,
        None => false,
    }
}
