// What the types of expressions and parts of objects are.
ghost use Rattle.std.specs.Prelude.{◌≡◌, Some, option_map};
ghost use Rattle.typed_tree.specs.ExpressionTree.{view_expr, view_form};
ghost use Rattle.typed_tree.specs.TypeTests as tests;
ghost use Rattle.typed_tree.specs.WellFormedExpression as typed;

use typed_tree::{Form, StructInfo, TypedExpr, VarTy, is_struct, type_of_elem};

/// What a pointer points to, as an object.
pub(crate) fn pointee(ty: Option<VarTy>) -> Option<VarTy>
    ensures { result ≡ option_map tests.type_of_elem (tests.pointee_of ty) }
{
    match ty {
        Some(VarTy::Pointer { elem, .. }) => Some(type_of_elem(elem)),
        Some(VarTy::Int(_)) | Some(VarTy::Struct(_)) | Some(VarTy::Array { .. }) | None => None,
    }
}

/// An element of an array, as an object.
pub(crate) fn item(ty: Option<VarTy>) -> Option<VarTy>
    ensures { result ≡ option_map tests.type_of_elem (tests.item_of ty) }
{
    match ty {
        Some(VarTy::Array { elem, .. }) => Some(type_of_elem(elem)),
        Some(VarTy::Int(_)) | Some(VarTy::Struct(_)) | Some(VarTy::Pointer { .. }) | None => None,
    }
}

/// The type of a field.
pub(crate) fn field(structs: &[StructInfo], ty: Option<VarTy>, field: u32) -> Option<VarTy>
    ensures { result ≡ typed.field_type structs.now ty field }
{
    match ty {
        Some(VarTy::Struct(n)) => field_of(structs, n, field),
        Some(VarTy::Int(_)) | Some(VarTy::Array { .. }) | Some(VarTy::Pointer { .. }) | None =>
            None,
    }
}

// the type of a field of the struct of this number
fn field_of(structs: &[StructInfo], structure: u32, field: u32) -> Option<VarTy>
    ensures { result ≡ typed.field_type structs.now (Some (VarTy.Struct structure)) field }
{
    let info = structs.get(structure as usize)?;
    let field = info.fields.as_slice().get(field as usize)?;
    Some(field.ty)
}

// whether an expression is an assignment
fn is_assign(form: &Form) -> bool
    ensures { result ≡ typed.is_assign (view_form form.now) }
{
    matches!(form, Form::Assign(_, _))
}

/// The type of an assignment of structs, None of any other expression.
pub(crate) fn assigned(e: &TypedExpr) -> Option<VarTy>
    ensures { result ≡ typed.assigned_type (view_expr e.now) }
{
    if is_assign(&e.form) && is_struct(e.ty) {
        e.ty
    } else {
        None
    }
}
