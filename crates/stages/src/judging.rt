// Whether a program breaks a rule of flows.
ghost use Rattle.typed_tree.specs.TypedView.{view_typed};
ghost use Rattle.stages.specs.Seen.{IsJudged};

use crate::tracing::{Traced, trace};
use flow_rules::{Accepted, FlowError, check_flows};
use pt_base::Watch;
use std::alloc::Global;
use std::thread::Threads;
use typed_tree::Typed;
use usages::usages_of;

/// The halves and the privileged slots of a program that breaks no rule. The watch is told of each function
/// that has a body, as its edges are made.
///
/// Time and memory are linear in the program, in its slots and edges and in the ways that faults show, but
/// for putting faults in order.
///
/// # Errors
///
/// All its faults, by where they begin, then by where they end, then by the number of the rule; or want of
/// memory.
pub fn judge<R: Threads + Sync, W: Watch>(
    rt: &R,
    alloc: Global,
    t: &Typed,
    watch: &W,
) -> Result<Accepted, FlowError>
    ensures { IsJudged (view_typed t.now) result }
{
    let usages = usages_of(alloc, t)?;
    let traced = trace(rt, alloc, t, &usages, watch)?;
    let Traced {
        sides,
        edges,
        marks,
    } = traced;
    check_flows(alloc, t, &usages, sides, edges.as_slice(), marks)
}
