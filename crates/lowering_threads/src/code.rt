// The lowering of all functions.
ghost use Rattle.std.specs.Prelude.{◌≡◌, ◌<◌, ◌++◌, ℕ, All, IfOk, OnOk, length, map, slice_index_or, vec_len};
ghost use Rattle.std.specs.List.{flat_map};
ghost use Rattle.typed_tree.specs.TypedView.{view_typed};
ghost use Rattle.pt_core.specs.CodeTree.{view_function};
ghost use Rattle.lowering.specs.Functions.{functions_from};
ghost use Rattle.function_runs.specs.Defined.{HasBody};
ghost use Rattle.lowering_threads.specs.Codes.{code_at};
ghost use Rattle.function_runs.specs.Runs.{IsWithin, part};
ghost use Rattle.function_runs.specs.declared.neighbours.Run.{Run};

use c_lower::lower_function;
use function_runs::{Run, defined_functions, joined, runs_of};
use pt_base::{FnId, Watch};
use pt_core::CoreFn;
use std::alloc::{AllocError, Global};
use std::thread;
use std::thread::Threads;
use typed_tree::Typed;

// adds the normal form of a function
fn add_code(alloc: Global, t: &Typed, f: FnId, code: &mut Vec<CoreFn>) -> Result<(), AllocError>
    requires { HasBody (view_typed t.now) f }
    ensures { OnOk result (map view_function code.new.items ≡ map view_function code.old.items ++ code_at (view_typed t.now) f) }
{
    let lowered = lower_function(alloc, t, f)?;
    code.push(lowered)?;
    Ok(())
}

// the normal forms of these functions, of each of which the watch is told as the work begins
fn lower_run<W: Watch>(
    alloc: Global,
    t: &Typed,
    functions: &[FnId],
    watch: &W,
) -> Result<Vec<CoreFn>, AllocError>
    requires { All (HasBody (view_typed t.now)) functions.now }
    ensures { IfOk result (λ v. map view_function v.items ≡ flat_map (code_at (view_typed t.now)) functions.now) }
{
    let mut code = Vec::new(alloc);
    for f in functions {
        watch.begin(*f);
        add_code(alloc, t, *f, &mut code)?;
    }
    Ok(code)
}

// what each run of the functions gives, in threads
fn lower_parts<R: Threads + Sync, W: Watch>(
    rt: &R,
    alloc: Global,
    t: &Typed,
    functions: &[FnId],
    runs: Vec<Run>,
    watch: &W,
) -> Result<Vec<Result<Vec<CoreFn>, AllocError>>, AllocError>
    requires defined { All (HasBody (view_typed t.now)) functions.now }
    requires within { All (IsWithin (length functions.now)) runs.items }
    ensures len { IfOk result (λ v. vec_len v ≡ vec_len runs) }
    ensures each { IfOk result (λ v. (i : ℕ) (d : _) (e : Run) → i < vec_len runs →
        IfOk (slice_index_or v.items i d) (λ w. map view_function w.items ≡ flat_map (code_at (view_typed t.now)) (part functions.now (slice_index_or runs.items i e)))) }
{
    thread::map_vec(
        rt,
        runs,
        &|run: Run| -> Result<Vec<CoreFn>, AllocError>
            requires { IsWithin (length functions.now) run × All (HasBody (view_typed t.now)) functions.now }
            ensures { IfOk result (λ v. map view_function v.items ≡ flat_map (code_at (view_typed t.entry.now)) (part functions.entry.now run)) }
        { lower_run(alloc, t, &functions[run.from..run.to], watch) },
    )
}

/// The normal forms of all functions that have bodies, in their order, made by at most eight threads at once;
/// where a thread can't be started, its work is done by the caller. The watch is told of each function, by its own
/// number, as the work on it begins, and whatever it does, the answer is the same. `whole_program` makes the
/// program of them that one thread would make.
///
/// # Errors
///
/// Want of memory.
pub fn lower_all<R: Threads + Sync, W: Watch>(
    rt: &R,
    alloc: Global,
    t: &Typed,
    watch: &W,
) -> Result<Vec<CoreFn>, AllocError>
    ensures { IfOk result (λ fs. map view_function fs.items ≡ functions_from (view_typed t.now) 0 (view_typed t.now).functions) }
{
    let functions = defined_functions(alloc, t)?;
    let runs = runs_of(alloc, functions.len())?;
    let parts = lower_parts(rt, alloc, t, functions.as_slice(), runs, watch)?;
    let code = joined(alloc, parts)?;
    Ok(code)
}
