// Operators and conversions in the normal form.
ghost use Rattle.std.specs.Prelude.{◌≡◌, Bool, IfOk};
ghost use Rattle.pt_core.specs.CodeTree.{view_expr};
ghost use Rattle.lowering.specs.Operators as is;

use pt_base::{IntType, Span, same_int};
use pt_core::Expr;
use pt_int::{BinOp, UnOp, promote, usual};
use pt_tree::Elem;
use std::alloc::{AllocError, Global};
use typed_tree::{LinkStep, VarTy};

/// A number converted to the type, where it isn't of it.
pub fn as_int(alloc: Global, ty: VarTy, to: IntType, a: Expr) -> Result<Expr, AllocError>
    ensures { IfOk result (λ e. view_expr e ≡ is.as_int ty to (view_expr a)) }
{
    match ty {
        VarTy::Int(t) => {
            if same_int(t, to) {
                Ok(a)
            } else {
                Expr::convert(alloc, to, a)
            }
        }
        VarTy::Struct(_) | VarTy::Array { .. } | VarTy::Pointer { .. } => Ok(a),
    }
}

/// A conversion that is written: of a number to an integer type; a pointer stays as it is.
pub fn converted(alloc: Global, ty: VarTy, a: Expr) -> Result<Expr, AllocError>
    ensures { IfOk result (λ e. view_expr e ≡ is.converted ty (view_expr a)) }
{
    match ty {
        VarTy::Int(to) => Expr::convert(alloc, to, a),
        VarTy::Struct(_) | VarTy::Array { .. } | VarTy::Pointer { .. } => Ok(a),
    }
}

/// An operator before its operand; `!` of a pointer asks whether it is null.
pub fn prefixed(alloc: Global, op: UnOp, ty: VarTy, a: Expr, span: Span) -> Result<Expr, AllocError>
    ensures { IfOk result (λ e. view_expr e ≡ is.prefixed op ty (view_expr a) span) }
{
    match ty {
        VarTy::Int(t) => Expr::unary(alloc, op, t, a, span),
        VarTy::Pointer { elem, .. } => prefixed_pointer(alloc, op, elem, a, span),
        VarTy::Struct(_) | VarTy::Array { .. } => Ok(a),
    }
}

// the same of a pointer
fn prefixed_pointer(
    alloc: Global,
    op: UnOp,
    elem: Elem,
    a: Expr,
    span: Span,
) -> Result<Expr, AllocError>
    ensures { (fixed : Bool) → IfOk result (λ e. view_expr e ≡ is.prefixed op (VarTy.Pointer elem fixed) (view_expr a) span) }
{
    match op {
        UnOp::Not => Expr::compare(alloc, BinOp::Eq, a, Expr::Null { elem }, span),
        UnOp::Minus | UnOp::Plus | UnOp::Flip => Ok(a),
    }
}

/// 1 where the value isn't 0 or null, else 0.
pub fn truth_of(alloc: Global, ty: VarTy, a: Expr, span: Span) -> Result<Expr, AllocError>
    ensures { IfOk result (λ e. view_expr e ≡ is.truth_of ty (view_expr a) span) }
{
    match ty {
        VarTy::Int(t) => {
            let is_zero = Expr::unary(alloc, UnOp::Not, t, a, span)?;
            Expr::unary(alloc, UnOp::Not, IntType::Int, is_zero, span)
        }
        VarTy::Pointer { elem, .. } => {
            Expr::compare(alloc, BinOp::Ne, a, Expr::Null { elem }, span)
        }
        VarTy::Struct(_) | VarTy::Array { .. } => Ok(a),
    }
}

// `<<`, or `>>`
fn shift_of(left: bool) -> BinOp
    ensures { result ≡ is.shift_of left }
{
    if left { BinOp::Shl } else { BinOp::Shr }
}

// the promoted type of an integer (C99 6.3.1.1p2)
fn promoted_of(ty: VarTy) -> IntType
    ensures { result ≡ is.promoted_of ty }
{
    match ty {
        VarTy::Int(t) => promote(t),
        VarTy::Struct(_) | VarTy::Array { .. } | VarTy::Pointer { .. } => IntType::Int,
    }
}

/// A step from the value so far, of this type, with an operand.
pub fn stepped(
    alloc: Global,
    ty: VarTy,
    step: LinkStep,
    a: Expr,
    b: Expr,
    span: Span,
) -> Result<Expr, AllocError>
    ensures { IfOk result (λ e. view_expr e ≡ is.stepped ty step (view_expr a) (view_expr b) span) }
{
    match step {
        LinkStep::Arithmetic(op, t) => {
            let left = as_int(alloc, ty, t, a)?;
            Expr::binary(alloc, op, t, left, b, span)
        }
        LinkStep::Shift { left } => {
            let t = promoted_of(ty);
            let shifted = as_int(alloc, ty, t, a)?;
            Expr::binary(alloc, shift_of(left), t, shifted, b, span)
        }
        LinkStep::Move { back } => Expr::moved(alloc, a, b, back, span),
        LinkStep::MoveBy => Expr::moved(alloc, b, a, false, span),
        LinkStep::Difference => Expr::difference(alloc, a, b, span),
        LinkStep::Compare(op) => Expr::compare(alloc, op, a, b, span),
    }
}

/// What a compound assignment stores in a place of this type, from what its step gives
/// (C99 6.5.16.2p3).
pub fn stored(alloc: Global, ty: VarTy, step: LinkStep, a: Expr) -> Result<Expr, AllocError>
    ensures { IfOk result (λ e. view_expr e ≡ is.stored ty step (view_expr a)) }
{
    match ty {
        VarTy::Int(to) => stored_int(alloc, to, step, a),
        VarTy::Struct(_) | VarTy::Array { .. } | VarTy::Pointer { .. } => Ok(a),
    }
}

// the same in an integer
fn stored_int(alloc: Global, to: IntType, step: LinkStep, a: Expr) -> Result<Expr, AllocError>
    ensures { IfOk result (λ e. view_expr e ≡ is.stored (VarTy.Int to) step (view_expr a)) }
{
    match step {
        LinkStep::Arithmetic(_, t) => as_int(alloc, VarTy::Int(t), to, a),
        LinkStep::Shift { .. } => as_int(alloc, VarTy::Int(promote(to)), to, a),
        LinkStep::Move { .. } | LinkStep::MoveBy | LinkStep::Difference | LinkStep::Compare(_) =>
            Ok(a),
    }
}

/// The step of `++`, or of `--` where `back` holds (C99 6.5.2.4, 6.5.3.1).
pub fn unit_step(ty: VarTy, back: bool) -> LinkStep
    ensures { result ≡ is.unit_step ty back }
{
    match ty {
        VarTy::Int(t) => {
            let op = if back { BinOp::Sub } else { BinOp::Add };
            LinkStep::Arithmetic(op, usual(t, IntType::Int))
        }
        VarTy::Struct(_) | VarTy::Array { .. } | VarTy::Pointer { .. } => LinkStep::Move { back },
    }
}

/// The 1 that is added, of the type in which it is added.
pub fn unit_of(ty: VarTy) -> Expr
    ensures { view_expr result ≡ is.unit_of ty }
{
    match ty {
        VarTy::Int(t) => Expr::Const {
            ty: usual(t, IntType::Int),
            value: 1,
        },
        VarTy::Struct(_) | VarTy::Array { .. } | VarTy::Pointer { .. } => Expr::Const {
            ty: IntType::Int,
            value: 1,
        },
    }
}
