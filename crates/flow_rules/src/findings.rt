// All that a program breaks.
ghost use Rattle.std.specs.Prelude.{◌≡◌, IfOk, map};
ghost use Rattle.flow_rules.specs.Findings.{findings_of};
ghost use Rattle.flow_rules.specs.FlowsView.{view_flows};
ghost use Rattle.flow_rules.specs.Kept.{kept};
ghost use Rattle.typed_tree.specs.TypedView.{view_typed};
ghost use Rattle.usages.specs.Lent.{AreUsages};

use crate::bodies::{add_monitor, add_slave};
use crate::flows::Flows;
use crate::found::Found;
use crate::function_rules::add_functions;
use crate::object_rules::add_globals;
use std::alloc::{AllocError, Global};

/// Every place where a program breaks a rule, some more than once.
pub(crate) fn all_findings(alloc: Global, flows: &Flows<'_>) -> Result<Vec<Found>, AllocError>
    requires used { AreUsages (view_typed flows.now.t.now) flows.now.usages.now }
    ensures { IfOk result (λ v. v.items ≡ map kept (findings_of (view_flows flows.now))) }
{
    let mut list = Vec::new(alloc);
    add_slave(alloc, flows, &mut list)?;
    add_monitor(flows, &mut list)?;
    add_globals(alloc, flows, &mut list)?;
    add_functions(flows.t, &mut list)?;
    Ok(list)
}
