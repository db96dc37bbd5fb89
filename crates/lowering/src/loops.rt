// The first turn of a loop, which temporaries tell.
ghost use Rattle.std.specs.Prelude.{◌≡◌, [], map, IfOk, OnOk};
ghost use Rattle.pt_core.specs.CodeTree.{view_stmt};
ghost use Rattle.lowering.specs.Output.{output_of, next, added, Does};
ghost use Rattle.lowering.specs.StatementParts.{first_turn, back_only};

use crate::flow::number;
use crate::output::{Lowering, local, temp};
use crate::temporary::Temporary;
use pt_base::{IntType, VarId};
use pt_core::Stmt;
use std::alloc::{AllocError, Global};
use typed_tree::VarTy;

/// A temporary that tells the first turn of a loop.
pub fn tell_first(alloc: Global, lowering: &mut Lowering) -> Result<VarId, AllocError>
    ensures number { IfOk result (λ k. k.0 ≡ next (output_of lowering.old)) }
    ensures output { OnOk result (Does (output_of lowering.old) (first_turn (next (output_of lowering.old))) (output_of lowering.new)) }
{
    let first = Temporary::counting(VarTy::Int(IntType::Int));
    lowering.hold(alloc, first, number(1))
}

/// Statements that are run on the way back to the head alone: a temporary tells the first turn.
pub fn on_the_way_back(
    alloc: Global,
    first: VarId,
    back: Vec<Stmt>,
    lowering: &mut Lowering,
) -> Result<(), AllocError>
    ensures { OnOk result (output_of lowering.new ≡ added (output_of lowering.old) (back_only first.0 (map view_stmt back.items)) []) }
{
    let mut begin = Vec::new(alloc);
    begin.push(Stmt::Assign {
        place: local(alloc, first),
        value: number(0),
    })?;
    lowering.add(Stmt::choose(temp(alloc, first), begin, back))
}
