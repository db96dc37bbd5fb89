// The edges of all functions.
ghost use Rattle.std.specs.Prelude.{◌≡◌, ◌≤◌, ◌<◌, ◌++◌, ◌^◌, ℕ, All, IfOk, OnOk, length, slice_index_or, vec_len};
ghost use Rattle.std.specs.List.{flat_map};
ghost use Rattle.typed_tree.specs.TypedView.{view_typed};
ghost use Rattle.sides.specs.Placed.{AreSides};
ghost use Rattle.sides.specs.Slots.{slots_of};
ghost use Rattle.usages.specs.Lent.{AreUsages};
ghost use Rattle.flow_edges.specs.Edges.{edges_in};
ghost use Rattle.flow_edges.specs.MoveView.{moved_edges};
ghost use Rattle.function_runs.specs.Defined.{HasBody};
ghost use Rattle.function_runs.specs.Runs.{IsWithin, part};
ghost use Rattle.function_runs.specs.declared.neighbours.Run.{Run};
ghost use Rattle.flow_threads.specs.OwnEdges.{AreOwn, own_edges};

use flow_edges::{Move, edges_along, moves_of};
use function_runs::{Run, append, defined_functions, joined, runs_of};
use pt_base::{Edge, FnId, Listed, Watch};
use sides::Sides;
use std::alloc::{AllocError, Global};
use std::thread;
use std::thread::Threads;
use typed_tree::Typed;
use usages::Usages;

// adds the values that move in a function
fn add_moves(
    alloc: Global,
    t: &Typed,
    usages: &Usages<'_>,
    sides: &Sides,
    f: FnId,
    moves: &mut Vec<Move>,
) -> Result<(), AllocError>
    requires used { AreUsages (view_typed t.now) usages.now }
    requires sides { AreSides (view_typed t.now) sides.now }
    requires function { HasBody (view_typed t.now) f }
    ensures { OnOk result (moved_edges moves.new.items ≡ moved_edges moves.old.items ++ own_edges (view_typed t.now) sides.now f) }
{
    let own = moves_of(alloc, t, usages, f, sides)?;
    append(moves, own)
}

// the values that move in these functions, of each of which the watch is told as the work begins
fn moves_of_run<W: Watch>(
    alloc: Global,
    t: &Typed,
    usages: &Usages<'_>,
    sides: &Sides,
    functions: &[FnId],
    watch: &W,
) -> Result<Vec<Move>, AllocError>
    requires used { AreUsages (view_typed t.now) usages.now }
    requires sides { AreSides (view_typed t.now) sides.now }
    requires functions { All (HasBody (view_typed t.now)) functions.now }
    ensures { IfOk result (λ v. AreOwn (view_typed t.now) sides.now functions.now v.items) }
{
    let mut moves = Vec::new(alloc);
    for f in functions {
        watch.begin(*f);
        add_moves(alloc, t, usages, sides, *f, &mut moves)?;
    }
    Ok(moves)
}

// what each run of the functions gives, in threads
fn move_parts<R: Threads + Sync, W: Watch>(
    rt: &R,
    alloc: Global,
    t: &Typed,
    usages: &Usages<'_>,
    sides: &Sides,
    functions: &[FnId],
    runs: Vec<Run>,
    watch: &W,
) -> Result<Vec<Result<Vec<Move>, AllocError>>, AllocError>
    requires used { AreUsages (view_typed t.now) usages.now }
    requires sides { AreSides (view_typed t.now) sides.now }
    requires defined { All (HasBody (view_typed t.now)) functions.now }
    requires within { All (IsWithin (length functions.now)) runs.items }
    ensures len { IfOk result (λ v. vec_len v ≡ vec_len runs) }
    ensures each { IfOk result (λ v. (i : ℕ) (d : _) (e : Run) → i < vec_len runs →
        IfOk (slice_index_or v.items i d) (λ w. AreOwn (view_typed t.now) sides.now (part functions.now (slice_index_or runs.items i e)) w.items)) }
{
    thread::map_vec(
        rt,
        runs,
        &|run: Run| -> Result<Vec<Move>, AllocError>
            requires { IsWithin (length functions.now) run × All (HasBody (view_typed t.now)) functions.now × AreUsages (view_typed t.now) usages.now × AreSides (view_typed t.now) sides.now }
            ensures { IfOk result (λ v. AreOwn (view_typed t.entry.now) sides.entry.now (part functions.entry.now run) v.items) }
        { moves_of_run(alloc, t, usages, sides, &functions[run.from..run.to], watch) },
    )
}

// the values that move in all functions that the slave runs, in the order of the functions
fn moves_all<R: Threads + Sync, W: Watch>(
    rt: &R,
    alloc: Global,
    t: &Typed,
    usages: &Usages<'_>,
    sides: &Sides,
    watch: &W,
) -> Result<Vec<Move>, AllocError>
    requires used { AreUsages (view_typed t.now) usages.now }
    requires sides { AreSides (view_typed t.now) sides.now }
    ensures { IfOk result (λ ms. moved_edges ms.items ≡ flat_map (edges_in (view_typed t.now)) sides.now.slave) }
{
    let functions = defined_functions(alloc, t)?;
    let runs = runs_of(alloc, functions.len())?;
    let parts = move_parts(
        rt,
        alloc,
        t,
        usages,
        sides,
        functions.as_slice(),
        runs,
        watch,
    )?;
    let moves = joined(alloc, parts)?;
    Ok(moves)
}

/// The edges of all functions that the slave runs, in the order of the functions. What moves in them is found by
/// at most eight threads at once; where a thread can't be started, its work is done by the caller. The watch is
/// told of each function that has a body, by its own number, as the work on it begins, and whatever it does, the
/// answer is the same. The edges are counted before the first is made, and made in one list.
///
/// # Errors
///
/// Want of memory; more than [`MOST_EDGES`](flow_edges::MOST_EDGES) edges in all are that too.
pub fn edges_all<R: Threads + Sync, W: Watch>(
    rt: &R,
    alloc: Global,
    t: &Typed,
    usages: &Usages<'_>,
    sides: &Sides,
    watch: &W,
) -> Result<Listed<Edge>, AllocError>
    requires used { AreUsages (view_typed t.now) usages.now }
    requires sides { AreSides (view_typed t.now) sides.now }
    ensures edges { IfOk result (λ es. es ≡ flat_map (edges_in (view_typed t.now)) sides.now.slave) }
    ensures few { IfOk result (λ es. length es ≤ 2 ^ 25) }
    ensures froms { IfOk result (λ es. All (λ e. e.from.0 < length (slots_of (view_typed t.now))) es) }
    ensures tos { IfOk result (λ es. All (λ e. e.to.0 < length (slots_of (view_typed t.now))) es) }
{
    let moves = moves_all(rt, alloc, t, usages, sides, watch)?;
    let slots = sides.slots.as_slice().len() as u64;
    let edges = edges_along(alloc, &moves, slots)?;
    Ok(edges)
}
