// How a function is left.
ghost use Rattle.lowering.specs.Names.{code_in};
ghost use Rattle.lowering.specs.Output.{output_of, Doing};
ghost use Rattle.lowering.specs.StatementParts.{returned_in};
ghost use Rattle.std.specs.Prelude.{Some};

use crate::outermost::value_of;
use lowering::names::Names;
use lowering::output::Lowering;
use pt_core::Stmt;
use std::alloc::{AllocError, Global};
use typed_tree::ExprId;

/// A `return`, with the value of an expression or without one.
pub(crate) fn give_back(
    alloc: Global,
    names: &Names<'_>,
    e: Option<ExprId>,
    lowering: &mut Lowering,
) -> Result<(), AllocError>
    ensures { Doing result (output_of lowering.old) (returned_in (code_in names.now) e) (output_of lowering.new) }
{
    match e {
        Some(e) => give_value(alloc, names, e, lowering),
        None => lowering.add(Stmt::Return { value: None }),
    }
}

// the same with one
fn give_value(
    alloc: Global,
    names: &Names<'_>,
    e: ExprId,
    lowering: &mut Lowering,
) -> Result<(), AllocError>
    ensures { Doing result (output_of lowering.old) (returned_in (code_in names.now) (Some e)) (output_of lowering.new) }
{
    let value = value_of(alloc, names, e, lowering)?;
    lowering.add(Stmt::Return { value: Some(value) })
}
