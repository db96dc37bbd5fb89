// The program that the machine runs.
ghost use Rattle.std.specs.Prelude.{◌≡◌, Some, IfOk, codes};
ghost use Rattle.typed_tree.specs.Lookup.{function_named};
ghost use Rattle.typed_tree.specs.TypedView.{view_typed};
ghost use Rattle.pt_core.specs.CodeTree.{view_program};
ghost use Rattle.lowering.specs.Functions.{core_program};

use c_lower::whole_program;
use lowering_threads::lower_all;
use pt_base::{FnId, Watch};
use pt_core::CoreProgram;
use std::alloc::{AllocError, Global};
use std::thread::Threads;
use typed_tree::Typed;

/// The normal form of a program, its functions lowered in threads. The watch is told of each function that has
/// a body, as the work on it begins.
pub(crate) fn lowered<R: Threads + Sync, W: Watch>(
    rt: &R,
    alloc: Global,
    program: &Typed,
    watch: &W,
) -> Result<CoreProgram, AllocError>
    ensures { IfOk result (λ p. view_program p ≡ core_program (view_typed program.now)) }
{
    let functions = lower_all(rt, alloc, program, watch)?;
    let code = whole_program(alloc, program, functions)?;
    Ok(code)
}

/// The number of main, which every program has.
pub(crate) fn main_of(program: &Typed) -> FnId
    ensures { function_named (view_typed program.now) (codes "main") ≡ Some result }
{
    program.function_of(b"main").unwrap()
}
