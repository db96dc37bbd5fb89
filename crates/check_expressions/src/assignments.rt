// Assignments (C99 6.5.16). `s` is the span of the whole, `left` and `right` are those of the operands,
// whose own faults are there already.
ghost use Rattle.std.specs.Prelude.{◌≡◌, IfOk};
ghost use Rattle.typed_tree.specs.ExpressionTree.{view_expr};
ghost use Rattle.type_rules.specs.Conversions.{is_wrong, fit_rule};
ghost use Rattle.type_rules.specs.Types.{is_bad};
ghost use Rattle.check_expressions.specs.Assignments as is;
ghost use Rattle.check_expressions.specs.Gives.{GivesMade};
ghost use Rattle.check_expressions.specs.Operands.{value_of, value_tree};
ghost use Rattle.check_expressions.specs.Views.{known};

use crate::conversions::as_type;
use crate::faults::{note_optional, target_fault};
use crate::links::{converted_by, integer_op, note_rule, step_of};
use crate::operand::{Operand, Placed, var_type};
use check_declarations::{FaultKind, Structs, TypeFault, note_if};
use pt_base::Span;
use pt_tree::BinaryOp;
use std::alloc::{AllocError, Global};
use type_rules::{Fit, Rule, Type, Value, compound_rule, fit_rule};
use typed_tree::{Form, TypedExpr};

/// The sides of an assignment.
#[derive(Drop)]
struct Sides {
    left: Placed,
    right: Placed,
}

/// An assignment, by an operator where it is a compound one.
#[tactic(auto, unfolding(crate::specs::Assignments::assigned))]
pub(crate) fn assigned(
    alloc: Global,
    structs: &Structs,
    op: Option<BinaryOp>,
    s: Span,
    left: Placed,
    right: Placed,
    faults: &mut Vec<TypeFault>,
) -> Result<Operand, AllocError>
    ensures { GivesMade result faults.old.items faults.new.items (is.assigned structs.now op s left.span (known left.operand) right.span (known right.operand)) }
{
    let sides = Sides { left, right };
    match op {
        None => stored(alloc, structs, s, sides, faults),
        Some(op) => compounded(alloc, structs, op, s, sides, faults),
    }
}

/// `=`
#[tactic(auto, unfolding(crate::specs::Assignments::stored, crate::specs::Assignments::stored_by))]
fn stored(
    alloc: Global,
    structs: &Structs,
    s: Span,
    sides: Sides,
    faults: &mut Vec<TypeFault>,
) -> Result<Operand, AllocError>
    ensures { GivesMade result faults.old.items faults.new.items (is.stored structs.now s sides.left.span (known sides.left.operand) sides.right.span (known sides.right.operand)) }
{
    let ty = sides.left.operand.ty;
    if is_bad(ty) || is_bad(sides.right.operand.ty) {
        return Ok(Operand::faulty());
    }
    let target = target_fault(structs, &sides.left.operand);
    let misfit = misfits(ty, sides.right.operand.value());
    note_optional(faults, target, sides.left.span)?;
    note_if(faults, misfit, FaultKind::WrongType, sides.right.span)?;
    if target.is_some() || misfit {
        return Ok(Operand::faulty());
    }
    let tree = stored_tree(alloc, s, sides)?;
    Ok(Operand::plain(ty, tree))
}

/// Whether this is the type of what is faulty.
fn is_bad(ty: Type) -> bool
    ensures { result ≡ is_bad ty }
{
    match ty {
        Type::Bad => true,
        Type::Void | Type::Int(_) | Type::Struct(_) | Type::Array { .. } | Type::Pointer { .. } => {
            false
        }
    }
}

/// Whether the right side doesn't fit; of an array or a void left side that isn't asked.
#[tactic(auto, unfolding(crate::specs::Assignments::misfits))]
fn misfits(ty: Type, value: Value) -> bool
    ensures { result ≡ is.misfits ty value }
{
    match ty {
        Type::Bad | Type::Void | Type::Array { .. } => false,
        Type::Int(_) | Type::Struct(_) | Type::Pointer { .. } => is_misfit(ty, value),
    }
}

/// Whether the value isn't taken by an object of the type (C99 6.5.16.1).
pub fn is_misfit(ty: Type, value: Value) -> bool
    ensures { result ≡ is_wrong (fit_rule ty value) }
{
    match fit_rule(ty, value) {
        Fit::Wrong => true,
        Fit::Unknown | Fit::Converts(_) | Fit::Points | Fit::Null | Fit::Copies => false,
    }
}

#[tactic(auto, unfolding(crate::specs::Assignments::stored_tree))]
fn stored_tree(alloc: Global, s: Span, sides: Sides) -> Result<TypedExpr, AllocError>
    ensures { IfOk result (λ x. view_expr x ≡ is.stored_tree s (known sides.left.operand) (value_of (known sides.right.operand)) (value_tree sides.right.span (known sides.right.operand))) }
{
    let Sides { left, right } = sides;
    let ty = left.operand.ty;
    let null = right.operand.value().null;
    let tree = right.operand.into_tree(alloc, right.span)?;
    let tree = as_type(alloc, ty, null, tree)?;
    let place = left.operand.into_elaborated().into_place(alloc)?;
    Ok(TypedExpr {
        span: s,
        ty: var_type(ty),
        form: Form::assign(alloc, place, tree)?,
    })
}

/// `op=`
#[tactic(auto, unfolding(crate::specs::Assignments::compounded, crate::specs::Assignments::compounded_by))]
fn compounded(
    alloc: Global,
    structs: &Structs,
    op: BinaryOp,
    s: Span,
    sides: Sides,
    faults: &mut Vec<TypeFault>,
) -> Result<Operand, AllocError>
    ensures { GivesMade result faults.old.items faults.new.items (is.compounded structs.now op s sides.left.span (known sides.left.operand) sides.right.span (known sides.right.operand)) }
{
    let ty = sides.left.operand.ty;
    if is_bad(ty) || is_bad(sides.right.operand.ty) {
        return Ok(Operand::faulty());
    }
    let target = target_fault(structs, &sides.left.operand);
    let rule = step_rule_of(op, ty, sides.right.operand.value());
    note_optional(faults, target, sides.left.span)?;
    note_rule(faults, rule, sides.left.span, sides.right.span)?;
    if target.is_some() || is_refused(rule) {
        return Ok(Operand::faulty());
    }
    let tree = compound_tree(alloc, rule, op, s, sides)?;
    Ok(Operand::plain(ty, tree))
}

/// The rule of the operator; an array on the left is faulty already, and the operator isn't asked.
#[tactic(auto, unfolding(crate::specs::Assignments::step_rule_of))]
fn step_rule_of(op: BinaryOp, ty: Type, value: Value) -> Rule
    ensures { result ≡ is.step_rule_of op ty value }
{
    match ty {
        Type::Bad | Type::Array { .. } => Rule::Unknown,
        Type::Void | Type::Int(_) | Type::Struct(_) | Type::Pointer { .. } => {
            operator_rule(op, ty, value)
        }
    }
}

/// The rule of a compound assignment. With an operator that forms none, as the grammar never builds it,
/// both operands are wrong.
#[tactic(auto, unfolding(crate::specs::Assignments::operator_rule))]
fn operator_rule(op: BinaryOp, ty: Type, value: Value) -> Rule
    ensures { result ≡ is.operator_rule op ty value }
{
    if is_compounding(op) {
        compound_rule(op, ty, value)
    } else {
        Rule::Wrong {
            left: true,
            right: true,
        }
    }
}

/// Whether an assignment can be compounded with it (C99 6.5.16).
#[tactic(auto, unfolding(crate::specs::Assignments::is_compounding))]
fn is_compounding(op: BinaryOp) -> bool
    ensures { result ≡ is.is_compounding op }
{
    match op {
        BinaryOp::BitOr
        | BinaryOp::BitXor
        | BinaryOp::BitAnd
        | BinaryOp::ShiftLeft
        | BinaryOp::ShiftRight
        | BinaryOp::Add
        | BinaryOp::Subtract
        | BinaryOp::Multiply
        | BinaryOp::Divide
        | BinaryOp::Remainder => true,
        BinaryOp::LogicalOr
        | BinaryOp::LogicalAnd
        | BinaryOp::Equal
        | BinaryOp::NotEqual
        | BinaryOp::Less
        | BinaryOp::Greater
        | BinaryOp::LessEqual
        | BinaryOp::GreaterEqual => false,
    }
}

#[tactic(auto, unfolding(crate::specs::Assignments::is_refused))]
fn is_refused(rule: Rule) -> bool
    ensures { result ≡ is.is_refused rule }
{
    match rule {
        Rule::Unknown | Rule::Wrong { .. } => true,
        Rule::Arithmetic(_)
        | Rule::Comparison(_)
        | Rule::Shift(_)
        | Rule::Logical
        | Rule::Move
        | Rule::MoveBy
        | Rule::Difference
        | Rule::ComparePointers => false,
    }
}

#[tactic(auto, unfolding(crate::specs::Assignments::compound_tree))]
fn compound_tree(
    alloc: Global,
    rule: Rule,
    op: BinaryOp,
    s: Span,
    sides: Sides,
) -> Result<TypedExpr, AllocError>
    ensures { IfOk result (λ x. view_expr x ≡ is.compound_tree rule op s sides.left.span (known sides.left.operand) (value_of (known sides.right.operand)) (value_tree sides.right.span (known sides.right.operand))) }
{
    let Sides { left, right } = sides;
    let ty = left.operand.ty;
    let object = Value { ty, null: false };
    let value = right.operand.value();
    let tree = right.operand.into_tree(alloc, right.span)?;
    let tree = converted_by(alloc, rule, value, object, tree)?;
    let at = left.span;
    let place = left.operand.into_elaborated().into_place(alloc)?;
    let step = step_of(integer_op(op), rule);
    Ok(TypedExpr {
        span: s,
        ty: var_type(ty),
        form: Form::compound(alloc, place, at, step, tree)?,
    })
}
