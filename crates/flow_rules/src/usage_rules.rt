// The rules on the values of expressions, in the body of a function of the slave.
ghost use Rattle.std.specs.Prelude.{◌≡◌, ◌++◌, OnOk, map};
ghost use Rattle.sides.specs.Carried.{scope_of};
ghost use Rattle.sides.specs.ScopeView.{view_scope};
ghost use Rattle.usages.specs.UsageView.{view_usage};
ghost use Rattle.usages.specs.declared.usage.How.TheVariants.{Passed, Returned};
ghost use Rattle.typed_tree.specs.ExpressionTree.{view_expr, view_place};
ghost use Rattle.typed_tree.specs.TypedView.{view_typed};
ghost use Rattle.flow_rules.specs.Findings as is;
ghost use Rattle.flow_rules.specs.FlowsView.{view_flows};
ghost use Rattle.flow_rules.specs.Kept.{kept};
ghost use Rattle.flow_rules.specs.Memory.{Knows};

use crate::flows::Flows;
use crate::found::Found;
use crate::functions::{is_main_number, is_plain_parameter, is_shown_parameter};
use crate::memo::Memo;
use crate::plain_rule::add_unmarked_secret;
use crate::rule::Rule;
use crate::secrets::{add_expression, add_value};
use pt_base::{FnId, Span};
use sides::{Scope, place_slots};
use std::alloc::{AllocError, Global};
use typed_tree::{Form, Place, TypedExpr, VarTy};
use usages::{How, Usage};

// an operator looks at what is in this place, an object of this type
fn add_looked_at(
    alloc: Global,
    flows: &Flows<'_>,
    scope: &Scope<'_>,
    f: FnId,
    ty: Option<VarTy>,
    at: Span,
    place: &Place,
    list: &mut Vec<Found>,
) -> Result<(), AllocError>
    requires { view_scope scope.now ≡ scope_of (view_typed flows.now.t.now) f.0 }
    ensures { OnOk result (list.new.items ≡ list.old.items ++ map kept (is.looked_at (view_flows flows.now) f ty at (view_place place.now))) }
{
    let starts = place_slots(alloc, scope, place)?;
    add_value(
        alloc,
        flows,
        scope,
        starts.as_slice(),
        ty,
        Rule::OperationOnPriv,
        at,
        list,
    )
}

// what `++`, `--` and a compound assignment change
fn add_changed(
    alloc: Global,
    flows: &Flows<'_>,
    scope: &Scope<'_>,
    f: FnId,
    e: &TypedExpr,
    list: &mut Vec<Found>,
) -> Result<(), AllocError>
    requires { view_scope scope.now ≡ scope_of (view_typed flows.now.t.now) f.0 }
    ensures { OnOk result (list.new.items ≡ list.old.items ++ map kept (is.changed_operands (view_flows flows.now) f (view_expr e.now))) }
{
    match &e.form {
        Form::Compound { place, at, .. } => {
            add_looked_at(alloc, flows, scope, f, e.ty, *at, place, list)
        }
        Form::Step { place, at, .. } => {
            add_looked_at(alloc, flows, scope, f, e.ty, *at, place, list)
        }
        Form::Constant(_)
        | Form::Null
        | Form::Read(_)
        | Form::Decay(_)
        | Form::Address(_)
        | Form::Unary(_, _)
        | Form::Convert(_)
        | Form::Discard(_)
        | Form::Chain(_, _)
        | Form::Logical(_, _, _)
        | Form::Choice(_, _, _)
        | Form::Assign(_, _)
        | Form::Call(_, _) => Ok(()),
    }
}

// OperationOnPriv
fn add_operated(
    alloc: Global,
    flows: &Flows<'_>,
    scope: &Scope<'_>,
    f: FnId,
    how: How,
    e: &TypedExpr,
    list: &mut Vec<Found>,
) -> Result<(), AllocError>
    requires { view_scope scope.now ≡ scope_of (view_typed flows.now.t.now) f.0 }
    ensures { OnOk result (list.new.items ≡ list.old.items ++ map kept (is.operation_on_priv (view_flows flows.now) f how (view_expr e.now))) }
{
    match how {
        How::Operated => add_expression(alloc, flows, scope, e, Rule::OperationOnPriv, list),
        How::Kept | How::Passed(_, _) | How::Begins(_, _) | How::Returned => Ok(()),
    }
}

// an argument of a host of the slave
fn add_shown(
    alloc: Global,
    flows: &Flows<'_>,
    scope: &Scope<'_>,
    f: FnId,
    g: FnId,
    k: usize,
    e: &TypedExpr,
    list: &mut Vec<Found>,
) -> Result<(), AllocError>
    requires { view_scope scope.now ≡ scope_of (view_typed flows.now.t.now) f.0 }
    ensures { OnOk result (list.new.items ≡ list.old.items ++ map kept (is.priv_to_host (view_flows flows.now) f (Passed g k) (view_expr e.now))) }
{
    if is_shown_parameter(flows.t, g, k) {
        add_expression(alloc, flows, scope, e, Rule::PrivToHost, list)
    } else {
        Ok(())
    }
}

// PrivToHost
fn add_to_host(
    alloc: Global,
    flows: &Flows<'_>,
    scope: &Scope<'_>,
    f: FnId,
    how: How,
    e: &TypedExpr,
    list: &mut Vec<Found>,
) -> Result<(), AllocError>
    requires { view_scope scope.now ≡ scope_of (view_typed flows.now.t.now) f.0 }
    ensures { OnOk result (list.new.items ≡ list.old.items ++ map kept (is.priv_to_host (view_flows flows.now) f how (view_expr e.now))) }
{
    match how {
        How::Passed(g, k) => add_shown(alloc, flows, scope, f, g, k, e, list),
        How::Kept | How::Operated | How::Begins(_, _) | How::Returned => Ok(()),
    }
}

// an argument of a privileged function or host
fn add_sent(
    alloc: Global,
    flows: &Flows<'_>,
    scope: &Scope<'_>,
    f: FnId,
    g: FnId,
    k: usize,
    e: &TypedExpr,
    memo: &mut Memo,
    list: &mut Vec<Found>,
) -> Result<(), AllocError>
    requires scope { view_scope scope.now ≡ scope_of (view_typed flows.now.t.now) f.0 }
    requires memo { Knows (view_flows flows.now) memo.old }
    ensures found { OnOk result (list.new.items ≡ list.old.items ++ map kept (is.priv_to_plain_param (view_flows flows.now) f (Passed g k) (view_expr e.now))) }
    ensures memo { OnOk result (Knows (view_flows flows.now) memo.new) }
{
    if is_plain_parameter(flows.t, g, k) {
        add_unmarked_secret(alloc, flows, scope, g, k, e, memo, list)
    } else {
        Ok(())
    }
}

// PrivToPlainParam
fn add_to_plain(
    alloc: Global,
    flows: &Flows<'_>,
    scope: &Scope<'_>,
    f: FnId,
    how: How,
    e: &TypedExpr,
    memo: &mut Memo,
    list: &mut Vec<Found>,
) -> Result<(), AllocError>
    requires scope { view_scope scope.now ≡ scope_of (view_typed flows.now.t.now) f.0 }
    requires memo { Knows (view_flows flows.now) memo.old }
    ensures found { OnOk result (list.new.items ≡ list.old.items ++ map kept (is.priv_to_plain_param (view_flows flows.now) f how (view_expr e.now))) }
    ensures memo { OnOk result (Knows (view_flows flows.now) memo.new) }
{
    match how {
        How::Passed(g, k) => add_sent(alloc, flows, scope, f, g, k, e, memo, list),
        How::Kept | How::Operated | How::Begins(_, _) | How::Returned => Ok(()),
    }
}

// what a function returns
fn add_returned(
    alloc: Global,
    flows: &Flows<'_>,
    scope: &Scope<'_>,
    f: FnId,
    e: &TypedExpr,
    list: &mut Vec<Found>,
) -> Result<(), AllocError>
    requires { view_scope scope.now ≡ scope_of (view_typed flows.now.t.now) f.0 }
    ensures { OnOk result (list.new.items ≡ list.old.items ++ map kept (is.priv_status (view_flows flows.now) f Returned (view_expr e.now))) }
{
    if is_main_number(flows.t, f) {
        add_expression(alloc, flows, scope, e, Rule::PrivStatus, list)
    } else {
        Ok(())
    }
}

// PrivStatus
fn add_status(
    alloc: Global,
    flows: &Flows<'_>,
    scope: &Scope<'_>,
    f: FnId,
    how: How,
    e: &TypedExpr,
    list: &mut Vec<Found>,
) -> Result<(), AllocError>
    requires { view_scope scope.now ≡ scope_of (view_typed flows.now.t.now) f.0 }
    ensures { OnOk result (list.new.items ≡ list.old.items ++ map kept (is.priv_status (view_flows flows.now) f how (view_expr e.now))) }
{
    match how {
        How::Returned => add_returned(alloc, flows, scope, f, e, list),
        How::Kept | How::Operated | How::Passed(_, _) | How::Begins(_, _) => Ok(()),
    }
}

/// Adds what is broken by an expression that the body of a function of the slave evaluates.
pub(crate) fn add_usage(
    alloc: Global,
    flows: &Flows<'_>,
    scope: &Scope<'_>,
    f: FnId,
    usage: &Usage<'_>,
    memo: &mut Memo,
    list: &mut Vec<Found>,
) -> Result<(), AllocError>
    requires scope { view_scope scope.now ≡ scope_of (view_typed flows.now.t.now) f.0 }
    requires memo { Knows (view_flows flows.now) memo.old }
    ensures found { OnOk result (list.new.items ≡ list.old.items ++ map kept (is.usage_findings (view_flows flows.now) f (view_usage usage.now))) }
    ensures memo { OnOk result (Knows (view_flows flows.now) memo.new) }
{
    let value = usage.value;
    add_operated(alloc, flows, scope, f, usage.how, value, list)?;
    add_changed(alloc, flows, scope, f, value, list)?;
    add_to_host(alloc, flows, scope, f, usage.how, value, list)?;
    add_to_plain(alloc, flows, scope, f, usage.how, value, memo, list)?;
    add_status(alloc, flows, scope, f, usage.how, value, list)?;
    Ok(())
}
