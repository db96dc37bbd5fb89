// The types of expressions and of objects.
ghost use Rattle.std.specs.Prelude.{◌≡◌, Some};
ghost use Rattle.typed_tree.specs.ExpressionTree.{view_expr};
ghost use Rattle.typed_tree.specs.TypeTests as tests;
ghost use Rattle.source_meaning.specs.Expressions as meaning;
ghost use Rattle.lowering.specs.Expressions as is;

use pt_base::IntType;
use pt_core::element_of;
use pt_tree::Elem;
use typed_tree::{TypedExpr, VarTy};

/// The type of an expression's value, int of none.
pub fn type_or_int(ty: Option<VarTy>) -> VarTy
    ensures { result ≡ meaning.type_or_int ty }
{
    match ty {
        Some(ty) => ty,
        None => VarTy::Int(IntType::Int),
    }
}

/// The type of an expression.
pub fn type_of(e: &TypedExpr) -> VarTy
    ensures { result ≡ meaning.type_of (view_expr e.now) }
{
    type_or_int(e.ty)
}

/// The type of a number, int of another value.
pub fn int_of(ty: Option<VarTy>) -> IntType
    ensures { result ≡ is.int_of ty }
{
    match ty {
        Some(ty) => integer(ty),
        None => IntType::Int,
    }
}

// the same of a type
fn integer(ty: VarTy) -> IntType
    ensures { result ≡ is.int_of (Some ty) }
{
    match ty {
        VarTy::Int(t) => t,
        VarTy::Struct(_) | VarTy::Array { .. } | VarTy::Pointer { .. } => IntType::Int,
    }
}

/// What a pointer is of, int of another value.
pub fn elem_of(ty: VarTy) -> Elem
    ensures { result ≡ is.elem_of ty }
{
    match ty {
        VarTy::Pointer { elem, .. } => elem,
        VarTy::Int(_) | VarTy::Struct(_) | VarTy::Array { .. } => Elem::Int(IntType::Int),
    }
}

/// Whether a value is a struct's.
pub fn is_struct(ty: Option<VarTy>) -> bool
    ensures { result ≡ is.is_struct ty }
{
    match ty {
        Some(ty) => names_struct(ty),
        None => false,
    }
}

// the same of a type
fn names_struct(ty: VarTy) -> bool
    ensures { result ≡ is.is_struct (Some ty) }
{
    match ty {
        VarTy::Struct(_) => true,
        VarTy::Int(_) | VarTy::Array { .. } | VarTy::Pointer { .. } => false,
    }
}

/// Whether a pointer is of a const pointee.
pub fn points_to_const(ty: VarTy) -> bool
    ensures { result ≡ tests.points_to_const (Some ty) }
{
    match ty {
        VarTy::Pointer { fixed, .. } => fixed,
        VarTy::Int(_) | VarTy::Struct(_) | VarTy::Array { .. } => false,
    }
}

/// A pointer to the first element of an array of this type, which is const where the array is.
pub fn decayed_type(fixed: bool, ty: VarTy) -> VarTy
    ensures { result ≡ is.decayed_type fixed ty }
{
    VarTy::Pointer {
        elem: element_of(ty),
        fixed,
    }
}
