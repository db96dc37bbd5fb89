// Tests of types, and the types of elements and parameters.
ghost use Rattle.std.specs.Prelude.{◌≡◌, is_some};
ghost use Rattle.typed_tree.specs.Sizes as sizes;
ghost use Rattle.typed_tree.specs.TypeTests as tests;
ghost use Rattle.typed_tree.specs.WellFormedExpression as typed;

use crate::types::{Field, StructInfo, VarTy};
use pt_base::{IntType, same_int};
use pt_tree::{Elem, ParamKind, Signature};

/// Whether they are one type.
pub fn same_elem(a: Elem, b: Elem) -> bool
    ensures { result ≡ tests.same_elem a b }
{
    match (a, b) {
        (Elem::Int(a), Elem::Int(b)) => same_int(a, b),
        (Elem::Struct(m), Elem::Struct(n)) => m == n,
        _ => false,
    }
}

// whether both hold or neither does
fn same_bool(a: bool, b: bool) -> bool
    ensures { result ≡ tests.same_bool a b }
{
    a == b
}

/// Whether they are one type.
pub fn same_type(a: VarTy, b: VarTy) -> bool
    ensures { result ≡ tests.same_type a b }
{
    match a {
        VarTy::Int(t) => is_this_int(b, t),
        VarTy::Struct(n) => is_this_struct(b, n),
        VarTy::Array { elem, count } => is_this_array(b, elem, count),
        VarTy::Pointer { elem, fixed } => is_this_pointer(b, elem, fixed),
    }
}

// whether it is this integer type
fn is_this_int(ty: VarTy, wanted: IntType) -> bool
    ensures { result ≡ tests.same_type (VarTy.Int wanted) ty }
{
    match ty {
        VarTy::Int(t) => same_int(wanted, t),
        VarTy::Struct(_) | VarTy::Array { .. } | VarTy::Pointer { .. } => false,
    }
}

// whether it is this struct
fn is_this_struct(ty: VarTy, wanted: u32) -> bool
    ensures { result ≡ tests.same_type (VarTy.Struct wanted) ty }
{
    match ty {
        VarTy::Struct(n) => wanted == n,
        VarTy::Int(_) | VarTy::Array { .. } | VarTy::Pointer { .. } => false,
    }
}

// whether it is an array of so many of these
fn is_this_array(ty: VarTy, wanted: Elem, long: u32) -> bool
    ensures { result ≡ tests.same_type (VarTy.Array wanted long) ty }
{
    match ty {
        VarTy::Array { elem, count } => same_elem(wanted, elem) && long == count,
        VarTy::Int(_) | VarTy::Struct(_) | VarTy::Pointer { .. } => false,
    }
}

// whether it is a pointer to this, const or not
fn is_this_pointer(ty: VarTy, wanted: Elem, constant: bool) -> bool
    ensures { result ≡ tests.same_type (VarTy.Pointer wanted constant) ty }
{
    match ty {
        VarTy::Pointer { elem, fixed } => same_elem(wanted, elem) && same_bool(constant, fixed),
        VarTy::Int(_) | VarTy::Struct(_) | VarTy::Array { .. } => false,
    }
}

/// Whether it is a pointer's.
pub fn is_pointer(ty: Option<VarTy>) -> bool
    ensures { result ≡ is_some (tests.pointee_of ty) }
{
    match ty {
        Some(VarTy::Pointer { .. }) => true,
        Some(VarTy::Int(_)) | Some(VarTy::Struct(_)) | Some(VarTy::Array { .. }) | None => false,
    }
}

/// Whether it is a struct's.
pub fn is_struct(ty: Option<VarTy>) -> bool
    ensures { result ≡ typed.is_struct ty }
{
    match ty {
        Some(VarTy::Struct(_)) => true,
        Some(VarTy::Int(_)) | Some(VarTy::Array { .. }) | Some(VarTy::Pointer { .. }) | None =>
            false,
    }
}

/// An element as an object.
pub fn type_of_elem(elem: Elem) -> VarTy
    ensures { result ≡ tests.type_of_elem elem }
{
    match elem {
        Elem::Int(t) => VarTy::Int(t),
        Elem::Struct(n) => VarTy::Struct(n),
    }
}

/// The type of a parameter as a variable.
pub fn param_type(kind: ParamKind) -> VarTy
    ensures { result ≡ typed.param_type kind }
{
    match kind {
        ParamKind::Int(t) => VarTy::Int(t),
        ParamKind::Ptr { elem, fixed } => VarTy::Pointer { elem, fixed },
    }
}

/// The fields of a struct, none where there is none of this number.
pub fn fields_of(structs: &[StructInfo], structure: u32) -> &[Field]
    ensures { result.now ≡ sizes.fields_of structs.now structure }
{
    match structs.get(structure as usize) {
        Some(info) => info.fields.as_slice(),
        None => &[],
    }
}

/// Whether it is main's.
pub fn is_main(signature: &Signature) -> bool
    ensures { result ≡ typed.is_main signature.now }
{
    signature.name.as_slice() == b"main".as_slice()
}
