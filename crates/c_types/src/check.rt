// The types of a program.
ghost use Rattle.std.specs.Prelude.{◌<◌, ◌^◌, IfOk, map};
ghost use Rattle.pt_tree.specs.ProgramTree.{view_item};
ghost use Rattle.typed_tree.specs.Nodes.{nodes_of};
ghost use Rattle.typed_tree.specs.TypedView.{view_typed};
ghost use Rattle.c_types.specs.Answers.{IsAnswer};

use check_programs::{TypeError, elaborate};
use pt_tree::Program;
use std::alloc::Global;
use typed_tree::Typed;

/// The typed tree of a program, which has fewer than 16,777,216 nodes, or all its type faults.
pub fn check_types(alloc: Global, program: &Program) -> Result<Typed, TypeError>
    ensures answer { IsAnswer result (map view_item program.now.items.items) }
    ensures small { IfOk result (λ t. nodes_of (view_typed t) < 2 ^ 24) }
{
    let parts = elaborate(alloc, program)?;
    Ok(Typed::new(parts.structs, parts.globals, parts.functions, parts.exprs))
}
