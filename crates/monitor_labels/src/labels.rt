// The label edges of a function.
ghost use Rattle.std.specs.Prelude.{◌≡◌, IfOk, IsTrue};
ghost use Rattle.pt_core.specs.CodeTree.{view_monitor};
ghost use Rattle.pt_core.specs.WellFormed.{is_well_formed_monitor};
ghost use Rattle.monitor_labels.specs.Labels as is;
ghost use Rattle.monitor_labels.specs.NodesView.{AreNodes};

use crate::aliases::add_aliases;
use crate::nodes::Nodes;
use crate::scope::scope_of;
use crate::statements::add_statements;
use pt_base::{Edge, FnId};
use pt_core::MonitorProgram;
use std::alloc::{AllocError, Global};

/// The edges along which secrets go in a function of a monitor's program: from all that is read for it to each
/// variable that is written, to what the function gives and to each callee's parameter; from what a condition
/// looks at to whether the function's statements are done, and from there to all that the function writes and
/// calls; and both ways between a pointer and what its value starts from. No expression stands for them alone:
/// their spans are 0 to 0.
///
/// Time and memory are linear in the code, but for the searches of functions and globals, by halves. What is nested
/// takes stack; a chain of operators to the left takes none.
///
/// # Errors
///
/// Want of memory alone; so would be a call of what isn't there, which a well-formed program has none of, and so is
/// a number of a function that the program hasn't.
pub fn label_edges<'a>(
    alloc: Global,
    p: &'a MonitorProgram,
    nodes: &'a Nodes,
    f: FnId,
) -> Result<Vec<Edge>, AllocError>
    requires well_formed { IsTrue (is_well_formed_monitor (view_monitor p.now)) }
    requires nodes { AreNodes (view_monitor p.now) nodes.now }
    ensures { IfOk result (λ edges. edges.items ≡ is.label_edges (view_monitor p.now) f.0) }
{
    let scope = scope_of(p, nodes, f)?;
    let mut edges = Vec::new(alloc);
    add_aliases(alloc, &scope, &mut edges)?;
    let body = &scope.function.body;
    add_statements(&scope, body, &mut edges)?;
    Ok(edges)
}
