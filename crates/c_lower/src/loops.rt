// The heads of loops (C99 6.8.5).
ghost use Rattle.std.specs.Prelude.{Some};
ghost use Rattle.lowering.specs.Names.{code_in};
ghost use Rattle.lowering.specs.Output.{output_of, Doing, Collecting};
ghost use Rattle.lowering.specs.Statements as is;

use crate::outermost::{step_of, value_of};
use lowering::names::Names;
use lowering::output::Lowering;
use pt_core::Stmt;
use std::alloc::{AllocError, Global};
use typed_tree::ExprId;

/// The test of a loop, which is left where it fails; without a test it goes on.
pub(crate) fn test(
    alloc: Global,
    names: &Names<'_>,
    e: Option<ExprId>,
    lowering: &mut Lowering,
) -> Result<(), AllocError>
    ensures { Doing result (output_of lowering.old) (is.tested (code_in names.now) e) (output_of lowering.new) }
{
    let Some(e) = e else {
        return Ok(());
    };
    let cond = value_of(alloc, names, e, lowering)?;
    let mut leave = Vec::new(alloc);
    leave.push(Stmt::Break)?;
    lowering.add(Stmt::choose(cond, Vec::new(alloc), leave))
}

/// The test of a loop, in a list of its own.
pub(crate) fn test_apart(
    alloc: Global,
    names: &Names<'_>,
    e: ExprId,
    lowering: &mut Lowering,
) -> Result<Vec<Stmt>, AllocError>
    ensures { Collecting result (output_of lowering.old) (is.tested (code_in names.now) (Some e)) (output_of lowering.new) }
{
    let outer = lowering.begin(alloc);
    test(alloc, names, Some(e), lowering)?;
    Ok(lowering.end(outer))
}

/// The step of a `for`, in a list of its own.
pub(crate) fn step_apart(
    alloc: Global,
    names: &Names<'_>,
    e: ExprId,
    lowering: &mut Lowering,
) -> Result<Vec<Stmt>, AllocError>
    ensures { Collecting result (output_of lowering.old) (is.stepped (code_in names.now) (Some e)) (output_of lowering.new) }
{
    let outer = lowering.begin(alloc);
    step_of(alloc, names, Some(e), lowering)?;
    Ok(lowering.end(outer))
}
