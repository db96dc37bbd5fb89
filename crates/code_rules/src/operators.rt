// The types of what is computed, by the types of operands and objects. None is the type of what
// isn't well formed.
ghost use Rattle.std.specs.Prelude.{◌≡◌, ◌&&◌, false, if◌then◌else◌, None, Some, length, option_map};
ghost use Rattle.std.specs.Bool.{then_some};
ghost use Rattle.pt_int.specs.Conversion.{is_in_range};
ghost use Rattle.pt_int.specs.Operator.{binary_type, is_shift, unary_type};
ghost use Rattle.typed_tree.specs.TypeTests as tests;
ghost use Rattle.typed_tree.specs.TypeRules.{int_where, is_comparison, is_promoted, moved_type, unary_fits};
ghost use Rattle.typed_tree.specs.WellFormedExpression.{is_elem};
ghost use Rattle.code_rules.specs.Parts as is;

use crate::types::{both_elem, element_of, integer_of, is_scalar, item_of, pointee_of};
use pt_base::{IntType, same_int};
use pt_int::{BinOp, UnOp, is_in_range, promote};
use pt_tree::Elem;
use typed_tree::{StructInfo, VarTy, type_of_elem};

/// The type of a constant, which is to be in its range.
pub(crate) fn constant_type(ty: IntType, value: i128) -> Option<VarTy>
    ensures { result ≡ then_some (is_in_range ty value) (VarTy.Int ty) }
{
    is_in_range(ty, value).then_some(VarTy::Int(ty))
}

// Whether promotion keeps it.
fn is_promoted(ty: IntType) -> bool
    ensures { result ≡ is_promoted ty }
{
    same_int(promote(ty), ty)
}

/// The type of an operator before an operand that may fit.
pub(crate) fn prefixed(op: UnOp, ty: IntType, fits: bool) -> Option<VarTy>
    ensures { result ≡ is.prefixed op ty fits }
{
    (fits && goes_before(op, ty)).then_some(VarTy::Int(type_of_one(op, ty)))
}

// Whether it may stand before a number of this type: but for `!`, a promoted one.
fn goes_before(op: UnOp, ty: IntType) -> bool
    ensures { result ≡ unary_fits op (Some (VarTy.Int ty)) (Some (VarTy.Int (unary_type op ty))) }
{
    match op {
        UnOp::Not => true,
        UnOp::Minus | UnOp::Plus | UnOp::Flip => is_promoted(ty),
    }
}

// The type of an operator before a number of this type.
fn type_of_one(op: UnOp, ty: IntType) -> IntType
    ensures { result ≡ unary_type op ty }
{
    match op {
        UnOp::Not => IntType::Int,
        UnOp::Minus | UnOp::Plus | UnOp::Flip => ty,
    }
}

/// The type of an operator between two operands, of which the left one may fit.
pub(crate) fn joined(op: BinOp, ty: IntType, fits: bool, right: Option<VarTy>) -> Option<VarTy>
    ensures { result ≡ is.joined op ty fits right }
{
    (fits && takes_right(op, ty, right)).then_some(VarTy::Int(type_of_two(op, ty)))
}

// Whether its right operand may be of this type.
fn takes_right(op: BinOp, ty: IntType, right: Option<VarTy>) -> bool
    ensures { result ≡ is.takes_right op ty right }
{
    match integer_of(right) {
        Some(of) => is_promoted(ty) && goes_behind(op, ty, of),
        None => false,
    }
}

// Whether an operator of numbers of the one type may stand before a number of the other: a shift
// takes any that is promoted.
fn goes_behind(op: BinOp, ty: IntType, of: IntType) -> bool
    ensures { result ≡ (if is_shift op then is_promoted of else tests.same_int of ty) }
{
    if op.is_shift() {
        is_promoted(of)
    } else {
        same_int(of, ty)
    }
}

// The type of an operator between numbers of this type.
fn type_of_two(op: BinOp, ty: IntType) -> IntType
    ensures { result ≡ binary_type op ty }
{
    match op {
        BinOp::Lt | BinOp::Gt | BinOp::Le | BinOp::Ge | BinOp::Eq | BinOp::Ne => IntType::Int,
        _ => ty,
    }
}

/// The type of a null pointer, whose struct is to be one of these.
pub(crate) fn null_type(structs: &[StructInfo], elem: Elem) -> Option<VarTy>
    ensures { result ≡ then_some (is_elem (length structs.now) (Some elem)) (VarTy.Pointer elem false) }
{
    is_elem(structs, elem).then_some(VarTy::Pointer { elem, fixed: false })
}

// Whether it is an integer type, or one of these structs.
fn is_elem(structs: &[StructInfo], elem: Elem) -> bool
    ensures { result ≡ is_elem (length structs.now) (Some elem) }
{
    match elem {
        Elem::Int(_) => true,
        Elem::Struct(n) => (n as usize) < structs.len(),
    }
}

/// The type of the value of an object of this type, which is to be an integer or a pointer.
pub(crate) fn value_type(ty: Option<VarTy>) -> Option<VarTy>
    ensures { result ≡ is.scalar ty }
{
    if is_scalar(ty) { ty } else { None }
}

/// The type of a pointer to an object of this type, if `&` may stand before it.
pub(crate) fn address_type(addressed: bool, ty: Option<VarTy>) -> Option<VarTy>
    ensures { result ≡ is.addressed addressed ty }
{
    if addressed {
        pointer_to(element_of(ty))
    } else {
        None
    }
}

/// The type of a pointer to the first element of an array of this type.
pub(crate) fn decayed_type(ty: Option<VarTy>) -> Option<VarTy>
    ensures { result ≡ is.pointer_to (tests.item_of ty) }
{
    pointer_to(item_of(ty))
}

// The type of a pointer to this, where it is there.
fn pointer_to(elem: Option<Elem>) -> Option<VarTy>
    ensures { result ≡ is.pointer_to elem }
{
    let elem = elem?;
    Some(VarTy::Pointer { elem, fixed: false })
}

/// The type of what a pointer of this type points to, as an object.
pub(crate) fn pointed_type(ty: Option<VarTy>) -> Option<VarTy>
    ensures { result ≡ option_map tests.type_of_elem (tests.pointee_of ty) }
{
    let elem = pointee_of(ty)?;
    Some(type_of_elem(elem))
}

/// The type of a pointer that is moved by an integer.
pub(crate) fn moved(pointer: Option<VarTy>, by: Option<VarTy>) -> Option<VarTy>
    ensures { result ≡ moved_type pointer by }
{
    if pointee_of(pointer).is_some() && integer_of(by).is_some() {
        pointer
    } else {
        None
    }
}

/// The type of a comparison of two pointers with the same pointee.
pub(crate) fn compared(op: BinOp, a: Option<VarTy>, b: Option<VarTy>) -> Option<VarTy>
    ensures { result ≡ int_where (is_comparison op && tests.both_elem (tests.pointee_of a) (tests.pointee_of b)) }
{
    if is_comparison(op) && both_elem(pointee_of(a), pointee_of(b)) {
        Some(VarTy::Int(IntType::Int))
    } else {
        None
    }
}

// Whether the operator tells a truth.
fn is_comparison(op: BinOp) -> bool
    ensures { result ≡ is_comparison op }
{
    match op {
        BinOp::Lt | BinOp::Gt | BinOp::Le | BinOp::Ge | BinOp::Eq | BinOp::Ne => true,
        _ => false,
    }
}

/// The type of a pointer minus a pointer with the same pointee.
pub(crate) fn subtracted(a: Option<VarTy>, b: Option<VarTy>) -> Option<VarTy>
    ensures { result ≡ (if tests.both_elem (tests.pointee_of a) (tests.pointee_of b) then Some (VarTy.Int IntType.Long) else None) }
{
    if both_elem(pointee_of(a), pointee_of(b)) {
        Some(VarTy::Int(IntType::Long))
    } else {
        None
    }
}
