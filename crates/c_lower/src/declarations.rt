// Declarations: each variable's cells become zero, and its initialiser is stored (C99 6.7).
ghost use Rattle.std.specs.Prelude.{◌≡◌, OnOk};
ghost use Rattle.lowering.specs.Names.{code_in};
ghost use Rattle.lowering.specs.Output.{output_of, next, Does, Doing};
ghost use Rattle.lowering.specs.Statements as is;

use crate::items::store;
use crate::outermost::{effects_of, object_of, value_of};
use lowering::assignments::{copied, given};
use lowering::names::Names;
use lowering::output::Lowering;
use lowering::place::variable;
use lowering::types::is_struct;
use pt_base::VarId;
use pt_core::Stmt;
use std::alloc::{AllocError, Global};
use typed_tree::{ExprId, TypedDeclarator, TypedForInit, TypedInit};

/// Declarators, in order.
pub(crate) fn declare(
    alloc: Global,
    names: &Names<'_>,
    declarators: &[TypedDeclarator],
    lowering: &mut Lowering,
) -> Result<(), AllocError>
    ensures { Doing result (output_of lowering.old) (is.declared (code_in names.now) declarators.now) (output_of lowering.new) }
{
    for declarator in declarators {
        lowering.add(Stmt::Clear {
            var: declarator.var,
        })?;
        initialise(alloc, names, declarator.var, &declarator.init, lowering)?;
    }
    Ok(())
}

// the initialiser of a variable
fn initialise(
    alloc: Global,
    names: &Names<'_>,
    var: VarId,
    init: &TypedInit,
    lowering: &mut Lowering,
) -> Result<(), AllocError>
    ensures { Doing result (output_of lowering.old) (is.initialised (code_in names.now) init.now var.0) (output_of lowering.new) }
{
    match init {
        TypedInit::Nothing => Ok(()),
        TypedInit::Value(e) => store_value(alloc, names, var, *e, lowering),
        TypedInit::Items(span, items) => {
            store(alloc, names, *span, var, items.as_slice(), lowering)
        }
    }
}

// a variable is given the value of an expression, or a copy of the object whose value it gives
fn store_value(
    alloc: Global,
    names: &Names<'_>,
    var: VarId,
    e: ExprId,
    lowering: &mut Lowering,
) -> Result<(), AllocError>
    ensures { Doing result (output_of lowering.old) (is.value_stored (code_in names.now) var.0 (is.outermost (code_in names.now) e)) (output_of lowering.new) }
{
    let to = variable(alloc, names, var);
    if is_struct(Some(to.ty)) {
        let of = object_of(alloc, names, e, lowering)?;
        let _to = copied(alloc, to, of, lowering)?;
    } else {
        let value = value_of(alloc, names, e, lowering)?;
        let _to = given(alloc, to, value, lowering)?;
    }
    Ok(())
}

/// What stands first in the parentheses of a `for`.
pub(crate) fn begin_for(
    alloc: Global,
    names: &Names<'_>,
    init: &TypedForInit,
    lowering: &mut Lowering,
) -> Result<(), AllocError>
    ensures { Doing result (output_of lowering.old) (is.begun (code_in names.now) init.now) (output_of lowering.new) }
{
    match init {
        TypedForInit::Nothing => Ok(()),
        TypedForInit::Declare(d) => declare(alloc, names, d.declarators.as_slice(), lowering),
        TypedForInit::Evaluate(e) => effects_of(alloc, names, *e, lowering),
    }
}
