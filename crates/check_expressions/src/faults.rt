// Faults, as the judgments add them, and what may be written.
ghost use Rattle.std.specs.Prelude.{◌≡◌, ◌++◌, ◌∷◌, [], OnOk};
ghost use Rattle.check_declarations.specs.Faults.{fault_at};
ghost use Rattle.check_expressions.specs.Targets as is;
ghost use Rattle.check_expressions.specs.Views.{known};

use crate::operand::Operand;
use check_declarations::{FaultKind, Structs, TypeFault, has_const};
use pt_base::Span;
use std::alloc::AllocError;
use type_rules::Type;

/// Adds a fault.
pub(crate) fn note(
    faults: &mut Vec<TypeFault>,
    kind: FaultKind,
    span: Span,
) -> Result<(), AllocError>
    ensures { OnOk result (faults.new.items ≡ faults.old.items ++ fault_at kind span ∷ []) }
{
    faults.push(TypeFault { span, kind })?;
    Ok(())
}

/// Adds a fault, where there is one.
#[tactic(auto, unfolding(crate::specs::Targets::optional_fault))]
pub(crate) fn note_optional(
    faults: &mut Vec<TypeFault>,
    kind: Option<FaultKind>,
    span: Span,
) -> Result<(), AllocError>
    ensures { OnOk result (faults.new.items ≡ faults.old.items ++ is.optional_fault kind span) }
{
    match kind {
        None => Ok(()),
        Some(kind) => note(faults, kind, span),
    }
}

/// What is wrong with an expression as the operand that an operator writes (C99 6.5.16p2).
#[tactic(auto, unfolding(crate::specs::Targets::target_fault, crate::specs::Targets::target_fault_of))]
pub(crate) fn target_fault(structs: &Structs, operand: &Operand) -> Option<FaultKind>
    ensures { result ≡ is.target_fault structs.now (known operand.now) }
{
    let is_const = operand.fixed || has_const(structs, operand.ty);
    match operand.ty {
        Type::Bad => None,
        Type::Array { .. } => Some(FaultKind::WrongType),
        Type::Void | Type::Int(_) | Type::Struct(_) | Type::Pointer { .. } => {
            object_fault(operand.designates, is_const)
        }
    }
}

/// What is wrong with what must designate an object that may change.
#[tactic(auto, unfolding(crate::specs::Targets::object_fault))]
fn object_fault(designates: bool, is_const: bool) -> Option<FaultKind>
    ensures { result ≡ is.object_fault designates is_const }
{
    if !designates {
        Some(FaultKind::NotLvalue)
    } else if is_const {
        Some(FaultKind::ConstWrite)
    } else {
        None
    }
}
