// Where the values of a program lie and move, and how far its secrets come.
ghost use Rattle.std.specs.Prelude.{IfOk};
ghost use Rattle.typed_tree.specs.TypedView.{view_typed};
ghost use Rattle.usages.specs.Lent.{AreUsages};
ghost use Rattle.stages.specs.Seen.{IsTraced};

use flow_threads::edges_all;
use propagation::{Marks, propagate};
use pt_base::{Edge, Listed, Watch};
use sides::{Sides, place};
use std::alloc::{AllocError, Global};
use std::thread::Threads;
use typed_tree::Typed;
use usages::Usages;

/// What the flows of a program are judged by, and what a picture shows of them.
#[derive(Drop)]
pub struct Traced {
    /// What each half has, all slots, and where secrets begin.
    pub sides: Sides,
    /// Along which values move: the edges of the slave's functions, one function after the other.
    pub edges: Listed<Edge>,
    /// How far the secrets come.
    pub marks: Marks,
}

/// Traces the flows of a program, of which these are the usages. The watch is told of each function that has a
/// body, as its edges are made.
///
/// Time and memory are linear in the program, in its slots and edges.
///
/// # Errors
///
/// Want of memory alone.
pub fn trace<R: Threads + Sync, W: Watch>(
    rt: &R,
    alloc: Global,
    t: &Typed,
    usages: &Usages<'_>,
    watch: &W,
) -> Result<Traced, AllocError>
    requires used { AreUsages (view_typed t.now) usages.now }
    ensures { IfOk result (IsTraced (view_typed t.now)) }
{
    let sides = place(alloc, t, usages)?;
    let edges = edges_all(rt, alloc, t, usages, &sides, watch)?;
    let slots = sides.slots.as_slice().len() as u64;
    let marks = propagate(alloc, sides.seeds.as_slice(), edges.as_slice(), slots)?;
    Ok(Traced {
        sides,
        edges,
        marks,
    })
}
