// The items of a brace list, each evaluated and stored before the next: the first goes to an
// object's first integer, and so on.
ghost use Rattle.lowering.specs.Leaves.{leaf_places};
ghost use Rattle.lowering.specs.Names.{code_in};
ghost use Rattle.lowering.specs.Output.{output_of, Doing};
ghost use Rattle.lowering.specs.StatementParts.{item_in};
ghost use Rattle.lowering.specs.Statements.{variable, items_in};
ghost use Rattle.pt_core.specs.CodeTree.{view_place};
ghost use Rattle.pt_core.specs.Types.{type_at};

use crate::outermost::value_of;
use lowering::leaves::Walk;
use lowering::names::Names;
use lowering::output::Lowering;
use pt_base::{Span, VarId};
use pt_core::{Place, Stmt};
use std::alloc::{AllocError, Global};
use typed_tree::ExprId;

/// Stores items in a variable. Those for which it has no integer are left.
pub(crate) fn store(
    alloc: Global,
    names: &Names<'_>,
    span: Span,
    var: VarId,
    items: &[ExprId],
    lowering: &mut Lowering,
) -> Result<(), AllocError>
    ensures { Doing result (output_of lowering.old) (items_in (code_in names.now) (leaf_places (code_in names.now).scope.structs (type_at (code_in names.now).scope.variables var.0) span (variable (code_in names.now) var.0)) items.now) (output_of lowering.new) }
{
    let mut walk = Walk::over(alloc, names, names.variable_type(var))?;
    for item in items {
        let found = walk.to_leaf(names)?;
        if !found {
            return Ok(());
        }
        let place = walk.place(alloc, span, var)?;
        store_item(alloc, names, place, item, lowering)?;
    }
    Ok(())
}

// an item is evaluated, and stored in this place
fn store_item(
    alloc: Global,
    names: &Names<'_>,
    place: Place,
    item: &ExprId,
    lowering: &mut Lowering,
) -> Result<(), AllocError>
    ensures { Doing result (output_of lowering.old) (item_in (code_in names.now) (view_place place) item.now) (output_of lowering.new) }
{
    let value = value_of(alloc, names, *item, lowering)?;
    lowering.add(Stmt::Assign { place, value })
}
