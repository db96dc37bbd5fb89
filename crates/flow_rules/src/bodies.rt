// What the bodies of functions break.
ghost use Rattle.std.specs.Prelude.{◌≡◌, ◌++◌, OnOk, map};
ghost use Rattle.std.specs.List.{flat_map};
ghost use Rattle.usages.specs.Usages as usages;
ghost use Rattle.typed_tree.specs.TypedView.{view_typed};
ghost use Rattle.flow_rules.specs.Findings as is;
ghost use Rattle.flow_rules.specs.FlowsView.{view_flows};
ghost use Rattle.flow_rules.specs.Kept.{kept};
ghost use Rattle.flow_rules.specs.Memory.{Knows};
ghost use Rattle.usages.specs.Lent.{AreUsages};

use crate::flows::Flows;
use crate::found::Found;
use crate::function_rules::add_call;
use crate::memo::Memo;
use crate::object_rules::add_variables;
use crate::usage_rules::add_usage;
use pt_base::FnId;
use std::alloc::{AllocError, Global};

// what the expressions of a function of the slave break
fn add_slave_usages(
    alloc: Global,
    flows: &Flows<'_>,
    f: FnId,
    memo: &mut Memo,
    list: &mut Vec<Found>,
) -> Result<(), AllocError>
    requires used { AreUsages (view_typed flows.now.t.now) flows.now.usages.now }
    requires memo { Knows (view_flows flows.now) memo.old }
    ensures found { OnOk result (list.new.items ≡ list.old.items ++ map kept (flat_map (is.usage_findings (view_flows flows.now) f) (usages.usages_in (view_typed flows.now.t.now) f))) }
    ensures memo { OnOk result (Knows (view_flows flows.now) memo.new) }
{
    let usages = flows.usages.of(flows.t, f);
    let scope = flows.sides.layout.scope(flows.t, f);
    for usage in usages {
        add_usage(alloc, flows, &scope, f, usage, memo, list)?;
    }
    Ok(())
}

// what a function of the slave breaks
fn add_slave_function(
    alloc: Global,
    flows: &Flows<'_>,
    f: FnId,
    memo: &mut Memo,
    list: &mut Vec<Found>,
) -> Result<(), AllocError>
    requires used { AreUsages (view_typed flows.now.t.now) flows.now.usages.now }
    requires memo { Knows (view_flows flows.now) memo.old }
    ensures found { OnOk result (list.new.items ≡ list.old.items ++ map kept (is.slave_findings (view_flows flows.now) f)) }
    ensures memo { OnOk result (Knows (view_flows flows.now) memo.new) }
{
    add_slave_usages(alloc, flows, f, memo, list)?;
    add_variables(alloc, flows, f, list)?;
    Ok(())
}

/// Adds what the functions of the slave break.
pub(crate) fn add_slave(
    alloc: Global,
    flows: &Flows<'_>,
    list: &mut Vec<Found>,
) -> Result<(), AllocError>
    requires used { AreUsages (view_typed flows.now.t.now) flows.now.usages.now }
    ensures { OnOk result (list.new.items ≡ list.old.items ++ map kept (flat_map (is.slave_findings (view_flows flows.now)) flows.now.sides.now.slave)) }
{
    let functions = flows.sides.slave.as_slice();
    let mut memo = Memo::none(alloc);
    for f in functions {
        add_slave_function(alloc, flows, *f, &mut memo, list)?;
    }
    Ok(())
}

// what the body of a function of the monitor breaks
fn add_monitor_usages(flows: &Flows<'_>, f: FnId, list: &mut Vec<Found>) -> Result<(), AllocError>
    requires used { AreUsages (view_typed flows.now.t.now) flows.now.usages.now }
    ensures { OnOk result (list.new.items ≡ list.old.items ++ map kept (is.monitor_findings (view_flows flows.now) f)) }
{
    let usages = flows.usages.of(flows.t, f);
    for usage in usages {
        add_call(flows, usage, list)?;
    }
    Ok(())
}

/// Adds what the functions of the monitor break.
pub(crate) fn add_monitor(flows: &Flows<'_>, list: &mut Vec<Found>) -> Result<(), AllocError>
    requires used { AreUsages (view_typed flows.now.t.now) flows.now.usages.now }
    ensures { OnOk result (list.new.items ≡ list.old.items ++ map kept (flat_map (is.monitor_findings (view_flows flows.now)) flows.now.sides.now.monitor)) }
{
    let functions = flows.sides.monitor.as_slice();
    for f in functions {
        add_monitor_usages(flows, *f, list)?;
    }
    Ok(())
}
