// The outermost expressions of a function's body, those that stand in no other.
ghost use Rattle.std.specs.Prelude.{◌≡◌, ◌++◌, ◌∷◌, [], IfOk, OnOk, length, option_map};
ghost use Rattle.pt_tree.specs.ExpressionTree.{view_expr};
ghost use Rattle.check_statements.specs.Gives.{GivesMaybe, GivesPlaced, progress_of, state_of};
ghost use Rattle.check_statements.specs.Outermost as is;

use crate::walk::Walk;
use check_declarations::{FaultKind, note_if};
use check_expressions::{Names, as_number, as_type, expression, is_misfit, span_of};
use pt_tree::Expr;
use std::alloc::{AllocError, Global};
use type_rules::{ConditionRule, Type, condition_rule};
use typed_tree::{ExprId, TypedExpr};

/// Gives an outermost expression the next number.
pub(crate) fn place(exprs: &mut Vec<TypedExpr>, tree: TypedExpr) -> Result<ExprId, AllocError>
    ensures id { IfOk result (λ id. id ≡ record { 0 = length exprs.old.items }) }
    ensures placed { OnOk result (exprs.new.items ≡ exprs.old.items ++ tree ∷ []) }
{
    let id = ExprId(as_number(exprs.len())?);
    exprs.push(tree)?;
    Ok(id)
}

/// An expression that is evaluated alone, of any type.
pub(crate) fn evaluated(
    alloc: Global,
    names: &Names,
    walk: &mut Walk,
    e: &Expr,
) -> Result<ExprId, AllocError>
    ensures { GivesPlaced result (progress_of names.now walk.old) (progress_of names.now walk.new) (is.evaluated (state_of names.now walk.old) (view_expr e.now)) }
{
    let operand = expression(alloc, names, &mut walk.findings, e)?;
    place(&mut walk.exprs, operand.into_tree(alloc, span_of(e))?)
}

/// A condition (C99 6.8.4.1p1, 6.8.5p2): an integer or a pointer.
pub(crate) fn tested(
    alloc: Global,
    names: &Names,
    walk: &mut Walk,
    e: &Expr,
) -> Result<ExprId, AllocError>
    ensures { GivesPlaced result (progress_of names.now walk.old) (progress_of names.now walk.new) (is.tested (state_of names.now walk.old) (view_expr e.now)) }
{
    let operand = expression(alloc, names, &mut walk.findings, e)?;
    let wrong = is_no_condition(condition_rule(operand.value()));
    note_if(
        &mut walk.findings.faults,
        wrong,
        FaultKind::WrongType,
        span_of(e),
    )?;
    place(&mut walk.exprs, operand.into_tree(alloc, span_of(e))?)
}

fn is_no_condition(rule: ConditionRule) -> bool
    ensures { result ≡ is.is_no_condition rule }
{
    match rule {
        ConditionRule::Unknown | ConditionRule::Good => false,
        ConditionRule::Wrong => true,
    }
}

/// A value for an object or a result of this type, converted to it (C99 6.5.16.1).
pub(crate) fn fitted(
    alloc: Global,
    names: &Names,
    walk: &mut Walk,
    ty: Type,
    e: &Expr,
) -> Result<ExprId, AllocError>
    ensures { GivesPlaced result (progress_of names.now walk.old) (progress_of names.now walk.new) (is.fitted (state_of names.now walk.old) ty (view_expr e.now)) }
{
    let operand = expression(alloc, names, &mut walk.findings, e)?;
    let value = operand.value();
    let wrong = is_misfit(ty, value);
    note_if(
        &mut walk.findings.faults,
        wrong,
        FaultKind::WrongType,
        span_of(e),
    )?;
    let tree = operand.into_tree(alloc, span_of(e))?;
    place(&mut walk.exprs, as_type(alloc, ty, value.null, tree)?)
}

/// An expression that may be left out, and that is evaluated alone.
pub(crate) fn maybe_evaluated(
    alloc: Global,
    names: &Names,
    walk: &mut Walk,
    e: &Option<Expr>,
) -> Result<Option<ExprId>, AllocError>
    ensures { GivesMaybe result (progress_of names.now walk.old) (progress_of names.now walk.new) (is.maybe_evaluated (state_of names.now walk.old) (option_map view_expr e.now)) }
{
    match e {
        None => Ok(None),
        Some(e) => Ok(Some(evaluated(alloc, names, walk, e)?)),
    }
}

/// A condition that may be left out.
pub(crate) fn maybe_tested(
    alloc: Global,
    names: &Names,
    walk: &mut Walk,
    e: &Option<Expr>,
) -> Result<Option<ExprId>, AllocError>
    ensures { GivesMaybe result (progress_of names.now walk.old) (progress_of names.now walk.new) (is.maybe_tested (state_of names.now walk.old) (option_map view_expr e.now)) }
{
    match e {
        None => Ok(None),
        Some(e) => Ok(Some(tested(alloc, names, walk, e)?)),
    }
}
