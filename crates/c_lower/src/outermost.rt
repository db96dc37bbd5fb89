// Outermost expressions, which statements name by number.
ghost use Rattle.lowering.specs.Expressions as is;
ghost use Rattle.lowering.specs.Names.{scope_of, code_in};
ghost use Rattle.lowering.specs.Output.{output_of, Values, Doing, Places};
ghost use Rattle.lowering.specs.Statements.{outermost, stepped};
ghost use Rattle.lowering.specs.StatementParts.{type_of_outermost};
ghost use Rattle.std.specs.Prelude.{◌≡◌};

use crate::expressions::{effects, object, value};
use lowering::names::Names;
use lowering::output::Lowering;
use lowering::place::{FoundPlace, no_object};
use lowering::types::type_of;
use pt_base::IntType;
use pt_core::Expr;
use pt_tree::Elem;
use std::alloc::{AllocError, Global};
use typed_tree::{ExprId, VarTy};

/// The type of an outermost expression's value.
pub(crate) fn type_of_numbered(names: &Names<'_>, e: ExprId) -> VarTy
    ensures { result ≡ type_of_outermost (code_in names.now) e }
{
    match names.program.exprs.get(e.0 as usize) {
        Some(e) => type_of(e),
        None => VarTy::Int(IntType::Int),
    }
}

/// The value of an outermost expression.
pub(crate) fn value_of(
    alloc: Global,
    names: &Names<'_>,
    e: ExprId,
    lowering: &mut Lowering,
) -> Result<Expr, AllocError>
    ensures { Values result (output_of lowering.old) (is.value_in (scope_of names.now) (outermost (code_in names.now) e)) (output_of lowering.new) }
{
    match names.program.exprs.get(e.0 as usize) {
        Some(e) => value(alloc, names, e, lowering),
        None => Ok(Expr::Null {
            elem: Elem::Int(IntType::Int),
        }),
    }
}

/// What an outermost expression does where its value is dropped.
pub(crate) fn effects_of(
    alloc: Global,
    names: &Names<'_>,
    e: ExprId,
    lowering: &mut Lowering,
) -> Result<(), AllocError>
    ensures { Doing result (output_of lowering.old) (is.effects_in (scope_of names.now) (outermost (code_in names.now) e)) (output_of lowering.new) }
{
    match names.program.exprs.get(e.0 as usize) {
        Some(e) => effects(alloc, names, e, lowering),
        None => Ok(()),
    }
}

/// The object whose value an outermost expression of a struct's type gives.
pub(crate) fn object_of(
    alloc: Global,
    names: &Names<'_>,
    e: ExprId,
    lowering: &mut Lowering,
) -> Result<FoundPlace, AllocError>
    ensures { Places result (output_of lowering.old) (is.object_in (scope_of names.now) (outermost (code_in names.now) e)) (output_of lowering.new) }
{
    match names.program.exprs.get(e.0 as usize) {
        Some(e) => object(alloc, names, e, lowering),
        None => Ok(no_object(alloc, VarTy::Int(IntType::Int))),
    }
}

/// The same of the step of a `for`, if there is one.
pub(crate) fn step_of(
    alloc: Global,
    names: &Names<'_>,
    step: Option<ExprId>,
    lowering: &mut Lowering,
) -> Result<(), AllocError>
    ensures { Doing result (output_of lowering.old) (stepped (code_in names.now) step) (output_of lowering.new) }
{
    match step {
        Some(e) => effects_of(alloc, names, e, lowering),
        None => Ok(()),
    }
}
