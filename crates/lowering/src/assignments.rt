// The statements of assignments, `++`, `--` and calls, behind those of their operands.
ghost use Rattle.std.specs.Prelude.{◌≡◌, [], None, Some, pos, IfOk, OnOk, map};
ghost use Rattle.typed_tree.specs.ExpressionTree as t;
ghost use Rattle.pt_core.specs.CodeTree as core;
ghost use Rattle.pt_core.specs.CodeTree.{view_expr};
ghost use Rattle.lowering.specs.Lowered.{Temp, Lowered, LoweredPlace, Arguments, past};
ghost use Rattle.lowering.specs.Expressions as is;
ghost use Rattle.lowering.specs.ExpressionParts.{count_at};
ghost use Rattle.lowering.specs.Functions.{span_of};
ghost use Rattle.lowering.specs.Output.{Output, output_of, next, temporary_of, view_found, Gives, GivesAll, Finds, Does};

use crate::operators::{stepped, stored, unit_of, unit_step};
use crate::output::{Lowering, temp};
use crate::place::{FoundPlace, fixed_if};
use crate::temporary::Temporary;
use pt_base::{FnId, IntType, Span};
use pt_core::{Expr, Stmt};
use std::alloc::{AllocError, Global};
use typed_tree::{LinkStep, VarTy};

/// An assignment of an object to another: the place to which it was copied.
pub fn copied(
    alloc: Global,
    to: FoundPlace,
    of: FoundPlace,
    lowering: &mut Lowering,
) -> Result<FoundPlace, AllocError>
    ensures { (o o1 : Output) (low from : LoweredPlace) → Finds o low o1 (view_found to) → Finds o1 from (output_of lowering.old) (view_found of) → IfOk result (λ p. Finds o (is.copied low from) (output_of lowering.new) (view_found p)) }
{
    lowering.add(Stmt::Copy {
        to: to.place.copy(alloc)?,
        of: of.place,
    })?;
    Ok(to)
}

/// An assignment of a value: the place in which it was stored.
pub fn given(
    alloc: Global,
    to: FoundPlace,
    value: Expr,
    lowering: &mut Lowering,
) -> Result<FoundPlace, AllocError>
    ensures { (o o1 : Output) (low : LoweredPlace) (v : Lowered) → Finds o low o1 (view_found to) → Gives o1 v (output_of lowering.old) (view_expr value) → IfOk result (λ p. Finds o (is.given low v) (output_of lowering.new) (view_found p)) }
{
    lowering.add(Stmt::Assign {
        place: to.place.copy(alloc)?,
        value,
    })?;
    Ok(to)
}

/// A compound assignment: from the place's value a step with the operand gives what is stored.
pub fn compounded(
    alloc: Global,
    span: Span,
    step: LinkStep,
    to: FoundPlace,
    operand: Expr,
    lowering: &mut Lowering,
) -> Result<FoundPlace, AllocError>
    ensures { (o o1 : Output) (low : LoweredPlace) (v : Lowered) → Finds o low o1 (view_found to) → Gives o1 v (output_of lowering.old) (view_expr operand) → IfOk result (λ p. Finds o (is.compounded span step low v) (output_of lowering.new) (view_found p)) }
{
    let before = Expr::read(to.place.copy(alloc)?);
    let after = stepped(alloc, to.ty, step, before, operand, span)?;
    let value = stored(alloc, to.ty, step, after)?;
    lowering.add(Stmt::Assign {
        place: to.place.copy(alloc)?,
        value,
    })?;
    Ok(to)
}

/// `++`, or `--` where `back` holds.
pub fn counted(
    alloc: Global,
    span: Span,
    back: bool,
    to: FoundPlace,
    lowering: &mut Lowering,
) -> Result<FoundPlace, AllocError>
    ensures { (o : Output) (low : LoweredPlace) → Finds o low (output_of lowering.old) (view_found to) → IfOk result (λ p. Finds o (is.counted span back low) (output_of lowering.new) (view_found p)) }
{
    let step = unit_step(to.ty, back);
    let unit = unit_of(to.ty);
    compounded(alloc, span, step, to, unit, lowering)
}

/// The value of `++` or `--`, which stands behind its operand where `postfix` holds. The operand
/// stands at `at`.
pub fn count(
    alloc: Global,
    span: Span,
    at: Span,
    back: bool,
    postfix: bool,
    place: FoundPlace,
    lowering: &mut Lowering,
) -> Result<Expr, AllocError>
    ensures { (o : Output) (p : t.PlaceTree) (low : LoweredPlace) → Finds o low (output_of lowering.old) (view_found place) → IfOk result (λ v. Gives o (count_at span p at back postfix low (next o)) (output_of lowering.new) (view_expr v)) }
{
    let to = fixed_if(alloc, true, place, lowering)?;
    if postfix {
        counted_after(alloc, span, back, at, to, lowering)
    } else {
        let after = counted(alloc, span, back, to, lowering)?;
        Ok(Expr::read(after.place))
    }
}

// `++` or `--` behind its operand: the value before it
fn counted_after(
    alloc: Global,
    span: Span,
    back: bool,
    at: Span,
    to: FoundPlace,
    lowering: &mut Lowering,
) -> Result<Expr, AllocError>
    ensures { (o : Output) (x : Temp) (low : LoweredPlace) → Finds o low (output_of lowering.old) (view_found to) → temporary_of x ≡ record { ty = low.ty; holds = Some at } → IfOk result (λ v. Gives o (is.counted_after span back (past (next o) low.temps) x low) (output_of lowering.new) (view_expr v)) }
{
    let old = Expr::read(to.place.copy(alloc)?);
    let k = lowering.hold(alloc, Temporary::holding(to.ty, at), old)?;
    counted(alloc, span, back, to, lowering)?;
    Ok(temp(alloc, k))
}

/// A call whose result is dropped.
pub fn call_alone(
    f: FnId,
    span: Span,
    values: Vec<Expr>,
    lowering: &mut Lowering,
) -> Result<(), AllocError>
    ensures { (o : Output) (a : Arguments) → GivesAll o a (output_of lowering.old) (map view_expr values.items) → OnOk result (Does o (is.call_effects f.0 span None [] a) (output_of lowering.new)) }
{
    lowering.add(Stmt::Call {
        callee: f,
        args: values,
        result: None,
        span,
    })
}

/// A call whose result, of the type `ty`, is held if it has one.
pub fn called(
    alloc: Global,
    f: FnId,
    span: Span,
    ty: Option<VarTy>,
    values: Vec<Expr>,
    lowering: &mut Lowering,
) -> Result<Expr, AllocError>
    ensures { (o : Output) (e : t.ExprTree) (a : Arguments) → span_of e ≡ span → GivesAll o a (output_of lowering.old) (map view_expr values.items) → IfOk result (λ v. Gives o (is.called f.0 span ty e (next o) a) (output_of lowering.new) (view_expr v)) }
{
    match ty {
        Some(ty) => called_for(alloc, f, span, ty, values, lowering),
        None => {
            call_alone(f, span, values, lowering)?;
            Ok(zero())
        }
    }
}

// a call whose result is held
fn called_for(
    alloc: Global,
    f: FnId,
    span: Span,
    ty: VarTy,
    values: Vec<Expr>,
    lowering: &mut Lowering,
) -> Result<Expr, AllocError>
    ensures { (o : Output) (e : t.ExprTree) (a : Arguments) → span_of e ≡ span → GivesAll o a (output_of lowering.old) (map view_expr values.items) → IfOk result (λ v. Gives o (is.called f.0 span (Some ty) e (next o) a) (output_of lowering.new) (view_expr v)) }
{
    let k = lowering.claim(Temporary::holding(ty, span))?;
    lowering.add(Stmt::Call {
        callee: f,
        args: values,
        result: Some(k),
        span,
    })?;
    Ok(temp(alloc, k))
}

/// What stands for the value of an expression that has none.
pub fn zero() -> Expr
    ensures { view_expr result ≡ core.constant IntType.Int (pos 0) }
{
    Expr::Const {
        ty: IntType::Int,
        value: 0,
    }
}
