// The rules on objects.
ghost use Rattle.std.specs.Prelude.{◌≡◌, ◌++◌, ◌&&◌, false, get_or, OnOk, map};
ghost use Rattle.sides.specs.Objects.{global_objects};
ghost use Rattle.typed_tree.specs.TypedView.{view_typed};
ghost use Rattle.flow_rules.specs.Findings as is;
ghost use Rattle.flow_rules.specs.FlowsView.{view_flows};
ghost use Rattle.flow_rules.specs.Kept.{kept, shared_in};
ghost use Rattle.usages.specs.Lent.{AreUsages};

use crate::flows::Flows;
use crate::found::Found;
use crate::function_rules::add_if;
use crate::plain_rule::object_at;
use crate::rule::Rule;
use crate::secrets::{add_secret, all_leaves};
use pt_base::FnId;
use reach::{function_at, named_by};
use sides::Object;
use std::alloc::{AllocError, Global};
use typed_tree::{TypedGlobal, Var};

// an object that is marked `unpriv`
fn add_unpriv(
    alloc: Global,
    flows: &Flows<'_>,
    var: &Var,
    object: Object,
    list: &mut Vec<Found>,
) -> Result<(), AllocError>
    ensures { OnOk result (list.new.items ≡ list.old.items ++ map kept (is.priv_into_unpriv (view_flows flows.now) var.now object)) }
{
    if !var.unpriv {
        return Ok(());
    }
    let leaves = all_leaves(alloc, flows.sides.layout.table.count(object.ty))?;
    add_secret(
        flows,
        &[object.start],
        leaves.as_slice(),
        Rule::PrivIntoUnpriv,
        var.span,
        list,
    )
}

// variables and their objects
fn add_objects(
    alloc: Global,
    flows: &Flows<'_>,
    vars: &[Var],
    objects: &[Object],
    list: &mut Vec<Found>,
) -> Result<(), AllocError>
    ensures { OnOk result (list.new.items ≡ list.old.items ++ map kept (is.objects_findings (view_flows flows.now) vars.now objects.now)) }
{
    for (number, var) in vars.iter().enumerate() {
        let Some(object) = object_at(objects, number) else {
            return Ok(());
        };
        add_unpriv(alloc, flows, var, object, list)?;
    }
    Ok(())
}

/// Adds the variables of a function that are marked `unpriv` and may be secret.
pub(crate) fn add_variables(
    alloc: Global,
    flows: &Flows<'_>,
    f: FnId,
    list: &mut Vec<Found>,
) -> Result<(), AllocError>
    ensures { OnOk result (list.new.items ≡ list.old.items ++ map kept (is.variables_findings (view_flows flows.now) f)) }
{
    let objects = flows.sides.layout.variables_of(flows.t, f);
    match function_at(flows.t, f) {
        Some(function) => {
            let vars = function.vars.as_slice();
            add_objects(alloc, flows, vars, objects, list)?;
            Ok(())
        }
        None => Ok(()),
    }
}

// globals and their objects
fn add_global_objects(
    alloc: Global,
    flows: &Flows<'_>,
    globals: &[TypedGlobal],
    objects: &[Object],
    list: &mut Vec<Found>,
) -> Result<(), AllocError>
    ensures { OnOk result (list.new.items ≡ list.old.items ++ map kept (is.objects_findings (view_flows flows.now) (map (λ x. x.var) globals.now) objects.now)) }
{
    for (number, global) in globals.iter().enumerate() {
        let Some(object) = object_at(objects, number) else {
            return Ok(());
        };
        add_unpriv(alloc, flows, &global.var, object, list)?;
    }
    Ok(())
}

// whether the number is in the set
fn is_in(table: &[bool], number: usize) -> bool
    ensures { result ≡ get_or table.now number false }
{
    match table.get(number) {
        Some(truth) => *truth,
        None => false,
    }
}

// whether the number is in both sets
fn is_shared(slave: &[bool], monitor: &[bool], number: usize) -> bool
    ensures { result ≡ (get_or slave.now number false && get_or monitor.now number false) }
{
    is_in(slave, number) && is_in(monitor, number)
}

// globals that are in both sets
fn add_shared_in(
    slave: &[bool],
    monitor: &[bool],
    globals: &[TypedGlobal],
    list: &mut Vec<Found>,
) -> Result<(), AllocError>
    ensures { OnOk result (list.new.items ≡ list.old.items ++ map kept (shared_in slave.now monitor.now 0 globals.now)) }
{
    for (number, global) in globals.iter().enumerate() {
        let wrong = is_shared(slave, monitor, number);
        add_if(wrong, Rule::SharedGlobal, global.var.span, list)?;
    }
    Ok(())
}

// the globals that code of both halves names
fn add_shared(alloc: Global, flows: &Flows<'_>, list: &mut Vec<Found>) -> Result<(), AllocError>
    requires used { AreUsages (view_typed flows.now.t.now) flows.now.usages.now }
    ensures { OnOk result (list.new.items ≡ list.old.items ++ map kept (is.shared_globals (view_flows flows.now) 0 (view_typed flows.now.t.now).globals)) }
{
    let of_slave = flows.sides.slave.as_slice();
    let of_monitor = flows.sides.monitor.as_slice();
    let slave = named_by(alloc, flows.t, flows.usages, of_slave)?;
    let monitor = named_by(alloc, flows.t, flows.usages, of_monitor)?;
    let in_slave = slave.as_slice();
    let in_monitor = monitor.as_slice();
    let globals = flows.t.globals.as_slice();
    add_shared_in(in_slave, in_monitor, globals, list)?;
    Ok(())
}

/// Adds the globals that are marked `unpriv` and may be secret, and those that code of both halves names.
pub(crate) fn add_globals(
    alloc: Global,
    flows: &Flows<'_>,
    list: &mut Vec<Found>,
) -> Result<(), AllocError>
    requires used { AreUsages (view_typed flows.now.t.now) flows.now.usages.now }
    ensures { OnOk result (list.new.items ≡ list.old.items ++ map kept (is.global_findings (view_flows flows.now))) }
{
    let globals = flows.t.globals.as_slice();
    let objects = flows.sides.layout.globals.as_slice();
    add_global_objects(alloc, flows, globals, objects, list)?;
    add_shared(alloc, flows, list)?;
    Ok(())
}
