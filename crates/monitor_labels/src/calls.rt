// The label edges of calls.
ghost use Rattle.std.specs.Prelude.{◌≡◌, ◌++◌, ◌∷◌, [], OnOk, map, option_map};
ghost use Rattle.pt_core.specs.CodeTree.{expr_trees, view_expr};
ghost use Rattle.pt_core.specs.Calls.{signature_in};
ghost use Rattle.pt_core.specs.WellFormed.{monitor_program};
ghost use Rattle.monitor_labels.specs.Arrows as arrows;
ghost use Rattle.monitor_labels.specs.Labels.{edges_along};
ghost use Rattle.monitor_labels.specs.Nodes.{of_result, of_control, of_variable};
ghost use Rattle.monitor_labels.specs.Scopes.{IsScope, edges_if, edges_to, function_call_edges, function_of, program_of};

use crate::reads::{add_back, add_edge, add_reads};
use crate::scope::{Scope, result_of, scope_of, signature_of};
use pt_base::{Edge, FnId, Slot, VarId, next_number};
use pt_core::Expr;
use std::alloc::AllocError;

// an argument for the callee's variable of this number
fn add_argument(
    scope: &Scope<'_>,
    callee: &Scope<'_>,
    parameter: VarId,
    argument: &Expr,
    edges: &mut Vec<Edge>,
) -> Result<(), AllocError>
    requires scope { IsScope scope.now }
    requires callee { IsScope callee.now }
    requires program { program_of callee.now ≡ program_of scope.now }
    ensures { OnOk result (edges.new.items ≡ edges.old.items ++ edges_along (program_of scope.now) (arrows.argument_arrow (function_of scope.now) (function_of callee.now) parameter.0 (view_expr argument.now))) }
{
    let to = callee.variable(parameter)?;
    add_reads(scope, argument, to, edges)?;
    let pointer = callee.is_pointer_variable(parameter);
    add_back(scope, argument, pointer, to, edges)
}

// all arguments
fn add_arguments(
    scope: &Scope<'_>,
    callee: &Scope<'_>,
    arguments: &[Expr],
    edges: &mut Vec<Edge>,
) -> Result<(), AllocError>
    requires scope { IsScope scope.now }
    requires callee { IsScope callee.now }
    requires program { program_of callee.now ≡ program_of scope.now }
    ensures { OnOk result (edges.new.items ≡ edges.old.items ++ edges_along (program_of scope.now) (arrows.argument_arrows (function_of scope.now) (function_of callee.now) 0 (expr_trees (map view_expr arguments.now)))) }
{
    let mut number: u32 = 0;
    for argument in arguments {
        add_argument(scope, callee, VarId(number), argument, edges)?;
        number = next_number(number)?;
    }
    Ok(())
}

// what all arguments read
fn add_all_reads(
    scope: &Scope<'_>,
    arguments: &[Expr],
    to: Slot,
    edges: &mut Vec<Edge>,
) -> Result<(), AllocError>
    requires { IsScope scope.now }
    ensures { OnOk result (edges.new.items ≡ edges.old.items ++ edges_to (program_of scope.now) (arrows.all_reads (function_of scope.now).id (expr_trees (map view_expr arguments.now))) to) }
{
    for argument in arguments {
        add_reads(scope, argument, to, edges)?;
    }
    Ok(())
}

// what a function or privileged host gives goes to a slot, if there is one, where the call is done
fn add_result(
    scope: &Scope<'_>,
    callee: FnId,
    to: Option<Slot>,
    edges: &mut Vec<Edge>,
) -> Result<(), AllocError>
    requires { IsScope scope.now }
    ensures { OnOk result (edges.new.items ≡ edges.old.items ++ edges_if (program_of scope.now) (of_result callee.0 ∷ of_control (function_of scope.now).id ∷ []) to) }
{
    let Some(to) = to else {
        return Ok(());
    };
    let from = result_of(scope.program, scope.nodes, callee)?;
    add_edge(from, to, edges)?;
    add_edge(scope.control, to, edges)
}

// what another host gives, which is made of its arguments
fn add_answer(
    scope: &Scope<'_>,
    arguments: &[Expr],
    to: Option<Slot>,
    edges: &mut Vec<Edge>,
) -> Result<(), AllocError>
    requires { IsScope scope.now }
    ensures { OnOk result (edges.new.items ≡ edges.old.items ++ edges_if (program_of scope.now) (arrows.all_reads (function_of scope.now).id (expr_trees (map view_expr arguments.now)) ++ of_control (function_of scope.now).id ∷ []) to) }
{
    let Some(to) = to else {
        return Ok(());
    };
    add_all_reads(scope, arguments, to, edges)?;
    add_edge(scope.control, to, edges)
}

// a call of a function
fn add_function_call(
    scope: &Scope<'_>,
    callee: FnId,
    arguments: &[Expr],
    to: Option<Slot>,
    edges: &mut Vec<Edge>,
) -> Result<(), AllocError>
    requires { IsScope scope.now }
    ensures { OnOk result (edges.new.items ≡ edges.old.items ++ function_call_edges (program_of scope.now) (function_of scope.now) callee.0 (expr_trees (map view_expr arguments.now)) to) }
{
    let called = scope_of(scope.program, scope.nodes, callee)?;
    add_arguments(scope, &called, arguments, edges)?;
    add_edge(scope.control, called.control, edges)?;
    add_result(scope, callee, to, edges)
}

/// Adds the edges of a call, whose result goes to a variable if there is one.
pub(crate) fn add_call(
    scope: &Scope<'_>,
    callee: FnId,
    arguments: &[Expr],
    receiver: Option<VarId>,
    edges: &mut Vec<Edge>,
) -> Result<(), AllocError>
    requires { IsScope scope.now }
    ensures { OnOk result (edges.new.items ≡ edges.old.items ++ edges_along (program_of scope.now)
        (arrows.call_arrows (program_of scope.now) (function_of scope.now) callee.0 (signature_in (monitor_program (program_of scope.now)) callee.0)
        (expr_trees (map view_expr arguments.now)) (option_map (of_variable (function_of scope.now).id) (option_map (λ v. v.0) receiver)))) }
{
    let to = scope.receiver(receiver)?;
    let signature = signature_of(scope.program, callee)?;
    if !signature.host {
        return add_function_call(scope, callee, arguments, to, edges);
    }
    if signature.privileged {
        add_result(scope, callee, to, edges)
    } else {
        add_answer(scope, arguments, to, edges)
    }
}
