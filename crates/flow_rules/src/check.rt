// Whether a program breaks a rule.
ghost use Rattle.std.specs.Prelude.{◌≡◌, IfOk, length};
ghost use Rattle.propagation.specs.Marks.{AreMarks};
ghost use Rattle.sides.specs.Placed.{AreSides};
ghost use Rattle.sides.specs.Slots.{slots_of};
ghost use Rattle.typed_tree.specs.TypedView.{view_typed};
ghost use Rattle.usages.specs.Lent.{AreUsages};
ghost use Rattle.flow_rules.specs.Faults.{Answers, AreFaults, edges_of_all, flows_of};

use crate::accepted::Accepted;
use crate::fault::{FlowError, FlowFault};
use crate::findings::all_findings;
use crate::flows::Flows;
use crate::order::arrange;
use crate::paths::faults_of;
use propagation::Marks;
use pt_base::{Edge, Listed};
use sides::Sides;
use std::alloc::{AllocError, Global};
use typed_tree::Typed;
use usages::Usages;

// all faults of a program
fn all_faults(
    alloc: Global,
    t: &Typed,
    usages: &Usages<'_>,
    sides: &Sides,
    edges: &[Edge],
    marks: &Marks,
) -> Result<Vec<FlowFault>, AllocError>
    requires used { AreUsages (view_typed t.now) usages.now }
    requires sides { AreSides (view_typed t.now) sides.now }
    requires marks { AreMarks sides.now.seeds edges.now (length (slots_of (view_typed t.now))) marks.now }
    ensures { IfOk result (λ v. AreFaults (flows_of (view_typed t.now) sides.now marks.now) sides.now.seeds edges.now v.items) }
{
    let flows = Flows {
        t,
        usages,
        sides,
        marks,
    };
    let mut list = all_findings(alloc, &flows)?;
    arrange(&mut list);
    let places = list.as_slice();
    let faults = faults_of(alloc, &flows, edges, places)?;
    Ok(faults)
}

/// Keeps the halves and the privileged slots of a program that breaks no rule, and else tells all its
/// faults, each with a way by which a secret comes there. Usages, sides and edges are the program's own, the edges
/// those of the slave's functions one after the other, and the marks are what `propagate` gives for them.
///
/// # Errors
///
/// [`FlowError::Faults`] exactly where a rule is broken, of which there is at least one fault.
/// [`FlowError::Memory`] is want of memory, and the answer where the ways of all faults would have more
/// than [`MOST_SPANS`](crate::MOST_SPANS) spans. Neither hands back the sides or the marks.
///
/// Time and memory are linear in what the slave's and the monitor's functions evaluate, in the leaves of
/// their values and objects, and in the lengths of the ways; the faults are sorted.
pub fn check_flows(
    alloc: Global,
    t: &Typed,
    usages: &Usages<'_>,
    sides: Sides,
    edges: &[Edge],
    marks: Marks,
) -> Result<Accepted, FlowError>
    requires used { AreUsages (view_typed t.now) usages.now }
    requires sides { AreSides (view_typed t.now) sides }
    requires edges { edges.now ≡ edges_of_all (view_typed t.now) sides }
    requires marks { AreMarks sides.seeds edges.now (length (slots_of (view_typed t.now))) marks }
    ensures { Answers (view_typed t.now) sides edges.now marks result }
{
    let faults = all_faults(alloc, t, usages, &sides, edges, &marks)?;
    if faults.is_empty() {
        Ok(Accepted { sides, marks })
    } else {
        Err(FlowError::Faults(Listed::new(faults)))
    }
}
