// What is found of a monitor's program.
ghost use Rattle.std.specs.Prelude.{◌≡◌, ◌<◌, ◌↔◌, All, IfOk, IsTrue, map};
ghost use Rattle.pt_core.specs.CodeTree.{view_monitor};
ghost use Rattle.pt_core.specs.WellFormed.{is_well_formed_monitor};
ghost use Rattle.monitor_labels.specs.Nodes.{of_result};
ghost use Rattle.monitor_labels.specs.NodesView.{AreNodes};
ghost use Rattle.monitor_labels.specs.Secrecy.{AreLabelMarks, IsSecret, audited};

use label_threads::labels_all;
use monitor_labels::{Nodes, Verdict, nodes_of, verdicts_of};
use propagation::{Marks, propagate};
use pt_base::Watch;
use pt_core::MonitorProgram;
use std::alloc::{AllocError, Global};
use std::thread::Threads;

// how far the secrets of a program come, of which these are the nodes
fn label_marks<R: Threads + Sync, W: Watch>(
    rt: &R,
    alloc: Global,
    p: &MonitorProgram,
    nodes: &Nodes,
    watch: &W,
) -> Result<Marks, AllocError>
    requires well_formed { IsTrue (is_well_formed_monitor (view_monitor p.now)) }
    requires nodes { AreNodes (view_monitor p.now) nodes.now }
    requires seeds { All (λ s. s.0 < nodes.now.count) nodes.now.seeds }
    ensures { IfOk result (λ marks. AreLabelMarks (view_monitor p.now) marks) }
{
    let edges = labels_all(rt, alloc, p, nodes, watch)?;
    let marks = propagate(alloc, nodes.seeds.as_slice(), edges.as_slice(), nodes.count)?;
    Ok(marks)
}

/// On each function of a monitor's program that gives its result openly, in the order of the functions, whether that may
/// depend on a secret. The watch is told of each function, as its label edges are made.
pub(crate) fn verdicts<R: Threads + Sync, W: Watch>(
    rt: &R,
    alloc: Global,
    p: &MonitorProgram,
    watch: &W,
) -> Result<Vec<Verdict>, AllocError>
    requires well_formed { IsTrue (is_well_formed_monitor (view_monitor p.now)) }
    ensures functions { IfOk result (λ vs. map (λ v. v.function.0) vs.items ≡ audited (view_monitor p.now)) }
    ensures exact { IfOk result (λ vs. All (λ v. IsTrue v.dependent ↔ IsSecret (view_monitor p.now) (of_result v.function.0)) vs.items) }
{
    let nodes = nodes_of(alloc, p)?;
    let marks = label_marks(rt, alloc, p, &nodes, watch)?;
    let found = verdicts_of(alloc, p, &nodes, &marks)?;
    Ok(found)
}
