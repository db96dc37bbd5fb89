// The lowering of expressions, from left to right.
ghost use Rattle.std.specs.Prelude.{◌≡◌, ℕ, Bool, [], List, Option, Some, IfOk, OnOk, map};
ghost use Rattle.typed_tree.specs.ExpressionTree as t;
ghost use Rattle.pt_core.specs.CodeTree.{view_expr};
ghost use Rattle.lowering.specs.Lowered.{Effects, Lowered, LoweredPlace};
ghost use Rattle.lowering.specs.Expressions as is;
ghost use Rattle.lowering.specs.ExpressionParts.{link_in, operand_in, arm_in, argument_in, held_in, step_in, assignment_in};
ghost use Rattle.lowering.specs.Functions.{span_of};
ghost use Rattle.lowering.specs.Names.{scope_of};
ghost use Rattle.lowering.specs.Output.{Output, output_of, next, view_found, Gives, Finds, Does, Values, Arguing, Places, Doing, Collecting};

use lowering::assignments::{call_alone, called, compounded, copied, count, counted, given, zero};
use lowering::logical::{started, with_operand};
use lowering::names::Names;
use lowering::operators::{converted, prefixed, stepped};
use lowering::output::{Lowering, held_if, temp};
use lowering::place::{FoundPlace, behind, element, field, fixed_if, global, no_object, variable};
use lowering::purity::{fixes_left, holds_left, is_pure, pure_from};
use lowering::temporary::Temporary;
use lowering::types::{decayed_type, elem_of, int_of, is_struct, type_of, type_or_int};
use pt_base::{Span, VarId};
use pt_core::{Expr, Stmt};
use std::alloc::{AllocError, Global};
use typed_tree::{Form, LogicalOp, Place, PlaceStep, Root, TypedExpr, TypedLink, TypedOperand};

/// The value of an expression, behind the statements that it needs.
#[cycle(expressions)]
pub(crate) fn value(
    alloc: Global,
    names: &Names<'_>,
    e: &TypedExpr,
    lowering: &mut Lowering,
) -> Result<Expr, AllocError>
    ensures { Values result (output_of lowering.old) (is.value_in (scope_of names.now) (t.view_expr e.now)) (output_of lowering.new) }
{
    match &e.form {
        Form::Constant(n) => Ok(Expr::Const {
            ty: int_of(e.ty),
            value: *n,
        }),
        Form::Null => Ok(Expr::Null {
            elem: elem_of(type_or_int(e.ty)),
        }),
        Form::Read(p) => {
            let at = place(alloc, names, p, lowering)?;
            Ok(Expr::read(at.place))
        }
        Form::Decay(p) => {
            let at = place(alloc, names, p, lowering)?;
            Ok(Expr::decay(at.place))
        }
        Form::Address(p) => {
            let at = place(alloc, names, p, lowering)?;
            Ok(Expr::address(at.place))
        }
        Form::Unary(op, a) => {
            let v = value(alloc, names, a, lowering)?;
            prefixed(alloc, *op, type_of(a), v, e.span)
        }
        Form::Convert(a) => {
            let v = value(alloc, names, a, lowering)?;
            converted(alloc, type_or_int(e.ty), v)
        }
        Form::Discard(a) => {
            effects(alloc, names, a, lowering)?;
            Ok(zero())
        }
        Form::Chain(a, links) => {
            let first = value(alloc, names, a, lowering)?;
            let keeper = Temporary::holding(type_of(a), a.span);
            chained(alloc, names, links, keeper, first, lowering)
        }
        Form::Logical(op, a, others) => {
            let first = value(alloc, names, a, lowering)?;
            let k = started(alloc, e.span, type_of(a), first, lowering)?;
            operands(alloc, names, others, *op, k, lowering)?;
            Ok(temp(alloc, k))
        }
        Form::Choice(test, yes, no) => {
            let cond = value(alloc, names, test, lowering)?;
            let whole = Temporary::holding(type_or_int(e.ty), e.span);
            let k = lowering.claim(whole)?;
            let first = arm(alloc, names, yes, k, lowering)?;
            let second = arm(alloc, names, no, k, lowering)?;
            lowering.add(Stmt::choose(cond, first, second))?;
            Ok(temp(alloc, k))
        }
        Form::Assign(p, a) => {
            let to = assignment(alloc, names, p, a, true, is_struct(e.ty), lowering)?;
            Ok(Expr::read(to.place))
        }
        Form::Compound {
            place: p,
            step,
            operand,
            ..
        } => {
            let to = target(alloc, names, p, fixes_left(true, operand), lowering)?;
            let v = value(alloc, names, operand, lowering)?;
            let after = compounded(alloc, e.span, *step, to, v, lowering)?;
            Ok(Expr::read(after.place))
        }
        Form::Step {
            place: p,
            at,
            back,
            postfix,
        } => {
            let to = place(alloc, names, p, lowering)?;
            count(alloc, e.span, *at, *back, *postfix, to, lowering)
        }
        Form::Call(f, all) => {
            let values = arguments(alloc, names, all, lowering)?;
            called(alloc, *f, e.span, e.ty, values, lowering)
        }
    }
}

/// What an expression does where its value is dropped; it is evaluated all the same, as it may
/// trap.
#[cycle(expressions)]
pub(crate) fn effects(
    alloc: Global,
    names: &Names<'_>,
    e: &TypedExpr,
    lowering: &mut Lowering,
) -> Result<(), AllocError>
    ensures { Doing result (output_of lowering.old) (is.effects_in (scope_of names.now) (t.view_expr e.now)) (output_of lowering.new) }
{
    match &e.form {
        Form::Constant(_) => Ok(()),
        Form::Null => Ok(()),
        Form::Read(p) => checked(alloc, names, p, lowering),
        Form::Decay(p) => checked(alloc, names, p, lowering),
        Form::Address(p) => checked(alloc, names, p, lowering),
        Form::Unary(_, _) => held(alloc, names, e, lowering),
        Form::Convert(a) => effects(alloc, names, a, lowering),
        Form::Discard(a) => effects(alloc, names, a, lowering),
        Form::Chain(_, _) => held(alloc, names, e, lowering),
        Form::Logical(_, _, _) => {
            let _v = value(alloc, names, e, lowering)?;
            Ok(())
        }
        Form::Choice(test, yes, no) => {
            let cond = value(alloc, names, test, lowering)?;
            let first = effects_apart(alloc, names, yes, lowering)?;
            let second = effects_apart(alloc, names, no, lowering)?;
            lowering.add(Stmt::choose(cond, first, second))
        }
        Form::Assign(p, a) => {
            let _to = assignment(alloc, names, p, a, false, is_struct(e.ty), lowering)?;
            Ok(())
        }
        Form::Compound {
            place: p,
            step,
            operand,
            ..
        } => {
            let to = target(alloc, names, p, fixes_left(false, operand), lowering)?;
            let v = value(alloc, names, operand, lowering)?;
            let _to = compounded(alloc, e.span, *step, to, v, lowering)?;
            Ok(())
        }
        Form::Step { place: p, back, .. } => {
            let to = place(alloc, names, p, lowering)?;
            let _to = counted(alloc, e.span, *back, to, lowering)?;
            Ok(())
        }
        Form::Call(f, all) => {
            let values = arguments(alloc, names, all, lowering)?;
            call_alone(*f, e.span, values, lowering)
        }
    }
}

/// The object whose value an expression of a struct's type gives.
#[cycle(expressions)]
pub(crate) fn object(
    alloc: Global,
    names: &Names<'_>,
    e: &TypedExpr,
    lowering: &mut Lowering,
) -> Result<FoundPlace, AllocError>
    ensures { Places result (output_of lowering.old) (is.object_in (scope_of names.now) (t.view_expr e.now)) (output_of lowering.new) }
{
    match &e.form {
        Form::Read(p) => place(alloc, names, p, lowering),
        Form::Assign(p, a) => assignment(alloc, names, p, a, true, is_struct(e.ty), lowering),
        Form::Constant(_)
        | Form::Null
        | Form::Decay(_)
        | Form::Address(_)
        | Form::Unary(_, _)
        | Form::Convert(_)
        | Form::Discard(_)
        | Form::Chain(_, _)
        | Form::Logical(_, _, _)
        | Form::Choice(_, _, _)
        | Form::Compound { .. }
        | Form::Step { .. }
        | Form::Call(_, _) => Ok(no_object(alloc, type_or_int(e.ty))),
    }
}

// an object is found, and that is all
#[cycle(expressions)]
fn checked(
    alloc: Global,
    names: &Names<'_>,
    p: &Place,
    lowering: &mut Lowering,
) -> Result<(), AllocError>
    ensures { Doing result (output_of lowering.old) (λ n. is.checked (is.place_in (scope_of names.now) (t.view_place p.now) n)) (output_of lowering.new) }
{
    let at = place(alloc, names, p, lowering)?;
    lowering.add(Stmt::Check { place: at.place })
}

// a value is held in a temporary, since it may trap
#[cycle(expressions)]
fn held(
    alloc: Global,
    names: &Names<'_>,
    e: &TypedExpr,
    lowering: &mut Lowering,
) -> Result<(), AllocError>
    ensures { Doing result (output_of lowering.old) (held_in (scope_of names.now) (t.view_expr e.now)) (output_of lowering.new) }
{
    let v = value(alloc, names, e, lowering)?;
    let _k = lowering.hold(alloc, Temporary::holding(type_of(e), e.span), v)?;
    Ok(())
}

// the links behind a first operand, which this temporary would hold
#[cycle(expressions)]
fn chained(
    alloc: Global,
    names: &Names<'_>,
    links: &[TypedLink],
    first: Temporary,
    value: Expr,
    lowering: &mut Lowering,
) -> Result<Expr, AllocError>
    ensures { (o : Output) (whole : t.ExprTree) (far : Lowered) (s : Span) → Gives o far (output_of lowering.old) (view_expr value) → first.holds ≡ Some (span_of whole) → IfOk result (λ v. Gives o (is.links_in (scope_of names.now) (t.link_trees (map t.view_link links.now)) whole [] s first.ty far (next o)) (output_of lowering.new) (view_expr v)) }
{
    let mut so_far = value;
    let mut keeper = first;
    for link in links {
        so_far = linked(alloc, names, link, keeper, so_far, lowering)?;
        keeper = Temporary::holding(link.ty, link.span);
    }
    Ok(so_far)
}

// a link behind the value so far, which this temporary would hold
#[cycle(expressions)]
fn linked(
    alloc: Global,
    names: &Names<'_>,
    link: &TypedLink,
    keeper: Temporary,
    so_far: Expr,
    lowering: &mut Lowering,
) -> Result<Expr, AllocError>
    ensures { (o : Output) (whole : t.ExprTree) (far : Lowered) → Gives o far (output_of lowering.old) (view_expr so_far) → keeper.holds ≡ Some (span_of whole) → IfOk result (λ v. Gives o (link_in (scope_of names.now) (t.view_link link.now) whole keeper.ty far (next o)) (output_of lowering.new) (view_expr v)) }
{
    let left = held_if(alloc, holds_left(link), keeper, so_far, lowering)?;
    let right = value(alloc, names, &link.operand, lowering)?;
    stepped(alloc, keeper.ty, link.step, left, right, link.span)
}

// the operands of `&&` or `||` behind the first, with the value so far in a temporary
#[cycle(expressions)]
fn operands(
    alloc: Global,
    names: &Names<'_>,
    all: &[TypedOperand],
    op: LogicalOp,
    k: VarId,
    lowering: &mut Lowering,
) -> Result<(), AllocError>
    ensures { (o : Output) (far : Effects) → Does o far (output_of lowering.old) → OnOk result (Does o (is.operands_in (scope_of names.now) (t.operand_trees (map t.view_operand all.now)) op k.0 far (next o)) (output_of lowering.new)) }
{
    for operand in all {
        operand_of(alloc, names, operand, op, k, lowering)?;
    }
    Ok(())
}

// an operand of `&&` or `||`, where the value so far, in a temporary, leaves it open
#[cycle(expressions)]
fn operand_of(
    alloc: Global,
    names: &Names<'_>,
    operand: &TypedOperand,
    op: LogicalOp,
    k: VarId,
    lowering: &mut Lowering,
) -> Result<(), AllocError>
    ensures { (o : Output) (far : Effects) → Does o far (output_of lowering.old) → OnOk result (Does o (operand_in (scope_of names.now) (t.view_operand operand.now) op k.0 far (next o)) (output_of lowering.new)) }
{
    let outer = lowering.begin(alloc);
    let v = value(alloc, names, &operand.operand, lowering)?;
    let ty = type_of(&operand.operand);
    with_operand(alloc, op, k, ty, operand.span, v, outer, lowering)
}

// an arm of `?:`, whose value a temporary is given
#[cycle(expressions)]
fn arm(
    alloc: Global,
    names: &Names<'_>,
    e: &TypedExpr,
    k: VarId,
    lowering: &mut Lowering,
) -> Result<Vec<Stmt>, AllocError>
    ensures { Collecting result (output_of lowering.old) (arm_in (scope_of names.now) k.0 (t.view_expr e.now)) (output_of lowering.new) }
{
    let outer = lowering.begin(alloc);
    let v = value(alloc, names, e, lowering)?;
    lowering.give(alloc, k, v)?;
    Ok(lowering.end(outer))
}

// what an expression does, in a list of its own
#[cycle(expressions)]
fn effects_apart(
    alloc: Global,
    names: &Names<'_>,
    e: &TypedExpr,
    lowering: &mut Lowering,
) -> Result<Vec<Stmt>, AllocError>
    ensures { Collecting result (output_of lowering.old) (is.effects_in (scope_of names.now) (t.view_expr e.now)) (output_of lowering.new) }
{
    let outer = lowering.begin(alloc);
    effects(alloc, names, e, lowering)?;
    Ok(lowering.end(outer))
}

// an assignment, of an object where `whole` holds; the place is used once more where `used` does
#[cycle(expressions)]
fn assignment(
    alloc: Global,
    names: &Names<'_>,
    p: &Place,
    a: &TypedExpr,
    used: bool,
    whole: bool,
    lowering: &mut Lowering,
) -> Result<FoundPlace, AllocError>
    ensures { Places result (output_of lowering.old) (assignment_in (scope_of names.now) used (t.view_place p.now) (t.view_expr a.now) whole) (output_of lowering.new) }
{
    let to = target(alloc, names, p, fixes_left(used, a), lowering)?;
    if whole {
        let of = object(alloc, names, a, lowering)?;
        copied(alloc, to, of, lowering)
    } else {
        let v = value(alloc, names, a, lowering)?;
        given(alloc, to, v, lowering)
    }
}

// the left place of an assignment, which is fixed where this says so
#[cycle(expressions)]
fn target(
    alloc: Global,
    names: &Names<'_>,
    p: &Place,
    is_fixed: bool,
    lowering: &mut Lowering,
) -> Result<FoundPlace, AllocError>
    ensures { Places result (output_of lowering.old) (λ n. is.fixed_if is_fixed n (is.place_in (scope_of names.now) (t.view_place p.now) n)) (output_of lowering.new) }
{
    let to = place(alloc, names, p, lowering)?;
    fixed_if(alloc, is_fixed, to, lowering)
}

// the values of arguments, each of which is held where one behind it isn't pure
#[cycle(expressions)]
fn arguments(
    alloc: Global,
    names: &Names<'_>,
    all: &[TypedExpr],
    lowering: &mut Lowering,
) -> Result<Vec<Expr>, AllocError>
    ensures { Arguing result (output_of lowering.old) (is.arguments_in (scope_of names.now) (t.expr_trees (map t.view_expr all.now))) (output_of lowering.new) }
{
    let from = pure_from(all);
    let mut values = Vec::new(alloc);
    for (i, e) in all.iter().enumerate() {
        values.push(argument(alloc, names, e, i + 1 < from, lowering)?)?;
    }
    Ok(values)
}

// the value of an argument, which is held where this says so
#[cycle(expressions)]
fn argument(
    alloc: Global,
    names: &Names<'_>,
    e: &TypedExpr,
    is_held: bool,
    lowering: &mut Lowering,
) -> Result<Expr, AllocError>
    ensures { Values result (output_of lowering.old) (argument_in (scope_of names.now) is_held (t.view_expr e.now)) (output_of lowering.new) }
{
    let v = value(alloc, names, e, lowering)?;
    held_if(
        alloc,
        is_held,
        Temporary::holding(type_of(e), e.span),
        v,
        lowering,
    )
}

/// The place at which an object lies, behind the statements that it needs.
#[cycle(expressions)]
fn place(
    alloc: Global,
    names: &Names<'_>,
    p: &Place,
    lowering: &mut Lowering,
) -> Result<FoundPlace, AllocError>
    ensures { Places result (output_of lowering.old) (is.place_in (scope_of names.now) (t.view_place p.now)) (output_of lowering.new) }
{
    let whole = root(alloc, names, &p.root, lowering)?;
    part(alloc, names, &p.steps, whole, lowering)
}

// the part of an object to which these steps lead
#[cycle(expressions)]
fn part(
    alloc: Global,
    names: &Names<'_>,
    steps: &[PlaceStep],
    whole: FoundPlace,
    lowering: &mut Lowering,
) -> Result<FoundPlace, AllocError>
    ensures { (o : Output) (root : t.RootTree) (low : LoweredPlace) → Finds o low (output_of lowering.old) (view_found whole) → IfOk result (λ p. Finds o (is.steps_in (scope_of names.now) (t.step_trees (map t.view_step steps.now)) root [] low (next o)) (output_of lowering.new) (view_found p)) }
{
    let mut at = whole;
    for step in steps {
        at = stepped_to(alloc, names, step, at, lowering)?;
    }
    Ok(at)
}

// the part to which one step leads
#[cycle(expressions)]
fn stepped_to(
    alloc: Global,
    names: &Names<'_>,
    step: &PlaceStep,
    at: FoundPlace,
    lowering: &mut Lowering,
) -> Result<FoundPlace, AllocError>
    ensures { (o : Output) (root : t.RootTree) (before : List t.StepTree) (low : LoweredPlace) → Finds o low (output_of lowering.old) (view_found at) → IfOk result (λ p. Finds o (step_in (scope_of names.now) (t.view_step step.now) root before low (next o)) (output_of lowering.new) (view_found p)) }
{
    match step {
        PlaceStep::Field(k) => field(names, *k, at),
        PlaceStep::Item { index, span } => item(alloc, names, index, *span, at, lowering),
    }
}

// an element of an array
#[cycle(expressions)]
fn item(
    alloc: Global,
    names: &Names<'_>,
    index: &TypedExpr,
    span: Span,
    at: FoundPlace,
    lowering: &mut Lowering,
) -> Result<FoundPlace, AllocError>
    ensures { (o : Output) (root : t.RootTree) (before : List t.StepTree) (low : LoweredPlace) → Finds o low (output_of lowering.old) (view_found at) → IfOk result (λ p. Finds o (step_in (scope_of names.now) (t.item (t.view_expr index.now) span) root before low (next o)) (output_of lowering.new) (view_found p)) }
{
    let ty = decayed_type(at.fixed, at.ty);
    let is_held = !is_pure(index);
    let first = Expr::decay(at.place);
    let base = held_if(
        alloc,
        is_held,
        Temporary::holding(ty, span),
        first,
        lowering,
    )?;
    let v = value(alloc, names, index, lowering)?;
    element(alloc, span, ty, base, v)
}

// the object at the root of a place
#[cycle(expressions)]
fn root(
    alloc: Global,
    names: &Names<'_>,
    root: &Root,
    lowering: &mut Lowering,
) -> Result<FoundPlace, AllocError>
    ensures { Places result (output_of lowering.old) (is.root_in (scope_of names.now) (t.view_root root.now)) (output_of lowering.new) }
{
    match root {
        Root::Local(v) => Ok(variable(alloc, names, *v)),
        Root::Global(g) => Ok(global(alloc, names, *g)),
        Root::Deref { pointer, span } => {
            let v = value(alloc, names, pointer, lowering)?;
            behind(alloc, *span, pointer, v)
        }
        Root::Assigned(e) => object(alloc, names, e, lowering),
    }
}
