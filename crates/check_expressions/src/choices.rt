// `test ? first : last` (C99 6.5.15). The operands' own faults are there already.
ghost use Rattle.std.specs.Prelude.{◌≡◌, IfOk};
ghost use Rattle.typed_tree.specs.ExpressionTree.{view_expr};
ghost use Rattle.check_expressions.specs.Choices as is;
ghost use Rattle.check_expressions.specs.Gives.{GivesMade};
ghost use Rattle.check_expressions.specs.Views.{placed};

use crate::conversions::as_type;
use crate::faults::note;
use crate::operand::{Operand, Placed, var_type};
use crate::prefixes::refused;
use check_declarations::{FaultKind, TypeFault, note_if};
use pt_base::Span;
use std::alloc::{AllocError, Global};
use type_rules::{ChoiceRule, ConditionRule, Type, choice_rule, condition_rule};
use typed_tree::{Form, TypedExpr};

/// The operands of a choice.
#[derive(Drop)]
struct Branches {
    test: Placed,
    first: Placed,
    last: Placed,
}

/// A choice with the span `s`.
#[tactic(auto, unfolding(crate::specs::Choices::chosen, crate::specs::Choices::chosen_when))]
pub(crate) fn chosen(
    alloc: Global,
    s: Span,
    test: Placed,
    first: Placed,
    last: Placed,
    faults: &mut Vec<TypeFault>,
) -> Result<Operand, AllocError>
    ensures { GivesMade result faults.old.items faults.new.items (is.chosen s (placed test) (placed first) (placed last)) }
{
    let branches = Branches { test, first, last };
    let rule = choice_rule(
        branches.first.operand.value(),
        branches.last.operand.value(),
    );
    match condition_rule(branches.test.operand.value()) {
        ConditionRule::Unknown => Ok(Operand::faulty()),
        ConditionRule::Wrong => chosen_by(alloc, rule, true, s, branches, faults),
        ConditionRule::Good => chosen_by(alloc, rule, false, s, branches, faults),
    }
}

/// The same by the rule for the arms, where the test isn't Bad; `wrong` says that it is wrong.
#[tactic(auto, unfolding(crate::specs::Choices::chosen_by))]
fn chosen_by(
    alloc: Global,
    rule: ChoiceRule,
    wrong: bool,
    s: Span,
    branches: Branches,
    faults: &mut Vec<TypeFault>,
) -> Result<Operand, AllocError>
    ensures { GivesMade result faults.old.items faults.new.items (is.chosen_by rule wrong s (placed branches.test) (placed branches.first) (placed branches.last)) }
{
    match rule {
        ChoiceRule::Unknown => Ok(Operand::faulty()),
        ChoiceRule::Wrong => {
            note_if(faults, wrong, FaultKind::WrongType, branches.test.span)?;
            note(faults, FaultKind::WrongType, branches.last.span)?;
            Ok(Operand::faulty())
        }
        ChoiceRule::Structs => {
            note_if(faults, wrong, FaultKind::WrongType, branches.test.span)?;
            note(faults, FaultKind::OutOfProfile, s)?;
            Ok(Operand::faulty())
        }
        ChoiceRule::Gives(ty) => {
            if wrong {
                return refused(faults, FaultKind::WrongType, branches.test.span);
            }
            let tree = choice_tree(alloc, s, ty, branches)?;
            Ok(Operand::plain(ty, tree))
        }
    }
}

/// The tree of a choice, each arm as a value of the type.
#[tactic(auto, unfolding(crate::specs::Choices::choice_tree))]
fn choice_tree(
    alloc: Global,
    s: Span,
    ty: Type,
    branches: Branches,
) -> Result<TypedExpr, AllocError>
    ensures { IfOk result (λ x. view_expr x ≡ is.choice_tree s ty (placed branches.test) (placed branches.first) (placed branches.last)) }
{
    let Branches { test, first, last } = branches;
    let test = test.operand.into_tree(alloc, test.span)?;
    let first = arm(alloc, ty, first)?;
    let last = arm(alloc, ty, last)?;
    Ok(TypedExpr {
        span: s,
        ty: var_type(ty),
        form: Form::choice(alloc, test, first, last)?,
    })
}

/// An arm as a value of the type.
#[tactic(auto, unfolding(crate::specs::Choices::arm_tree))]
fn arm(alloc: Global, ty: Type, arm: Placed) -> Result<TypedExpr, AllocError>
    ensures { IfOk result (λ x. view_expr x ≡ is.arm_tree ty (placed arm)) }
{
    let null = arm.operand.value().null;
    let tree = arm.operand.into_tree(alloc, arm.span)?;
    as_type(alloc, ty, null, tree)
}
