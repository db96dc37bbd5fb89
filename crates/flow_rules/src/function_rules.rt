// The rules on functions.
ghost use Rattle.std.specs.Prelude.{◌≡◌, ◌++◌, ◌&&◌, ◌||◌, not, OnOk, map, option_map, slice_get};
ghost use Rattle.std.specs.List.{flat_map, list_any};
ghost use Rattle.reach.specs.Contexts.{expr_callees};
ghost use Rattle.sides.specs.Seeds as seeds;
ghost use Rattle.usages.specs.UsageView.{view_usage};
ghost use Rattle.typed_tree.specs.ExpressionTree.{view_expr};
ghost use Rattle.typed_tree.specs.TypedTree.{view_function};
ghost use Rattle.typed_tree.specs.TypedView.{view_typed};
ghost use Rattle.flow_rules.specs.Findings as is;
ghost use Rattle.flow_rules.specs.FlowsView.{view_flows};
ghost use Rattle.flow_rules.specs.Kept.{kept};

use crate::flows::Flows;
use crate::found::Found;
use crate::functions::{is_main_function, is_plain_host_number};
use crate::rule::Rule;
use pt_base::Span;
use pt_tree::Param;
use sides::is_out;
use std::alloc::AllocError;
use typed_tree::{Form, Typed, TypedExpr, TypedFn, Var};
use usages::Usage;

/// Adds that the rule is broken, where something is wrong.
pub(crate) fn add_if(
    wrong: bool,
    rule: Rule,
    span: Span,
    list: &mut Vec<Found>,
) -> Result<(), AllocError>
    ensures { OnOk result (list.new.items ≡ list.old.items ++ map kept (is.found_if wrong rule span)) }
{
    if wrong {
        list.push(Found {
            span,
            rule,
            slot: None,
        })?;
    }
    Ok(())
}

// whether it is a call of a plain host
fn calls_plain_host(t: &Typed, e: &TypedExpr) -> bool
    ensures { result ≡ list_any (is.function_is is.is_plain_host (view_typed t.now)) (expr_callees (view_expr e.now)) }
{
    match &e.form {
        Form::Call(callee, _) => is_plain_host_number(t, *callee),
        Form::Constant(_)
        | Form::Null
        | Form::Read(_)
        | Form::Decay(_)
        | Form::Address(_)
        | Form::Unary(_, _)
        | Form::Convert(_)
        | Form::Discard(_)
        | Form::Chain(_, _)
        | Form::Logical(_, _, _)
        | Form::Choice(_, _, _)
        | Form::Assign(_, _)
        | Form::Compound { .. }
        | Form::Step { .. } => false,
    }
}

/// Adds a call of a plain host in the monitor's code.
pub(crate) fn add_call(
    flows: &Flows<'_>,
    usage: &Usage<'_>,
    list: &mut Vec<Found>,
) -> Result<(), AllocError>
    ensures { OnOk result (list.new.items ≡ list.old.items ++ map kept (is.host_in_monitor (view_flows flows.now) (view_usage usage.now))) }
{
    let wrong = calls_plain_host(flows.t, usage.value);
    add_if(wrong, Rule::HostInMonitor, usage.value.span, list)
}

// main, where it is marked
fn add_main(f: &TypedFn, list: &mut Vec<Found>) -> Result<(), AllocError>
    ensures { OnOk result (list.new.items ≡ list.old.items ++ map kept (is.priv_main (view_function f.now))) }
{
    let wrong = is_main_function(f) && f.signature.privileged;
    add_if(wrong, Rule::PrivMain, f.name, list)
}

// whether something comes back through it, and it doesn't say how
fn is_unmarked_out(param: Param) -> bool
    ensures { result ≡ (seeds.is_out param.kind && not (param.marked || param.declassify)) }
{
    is_out(param.kind) && !(param.marked || param.declassify)
}

// where the variable of this number is declared
fn span_at(vars: &[Var], number: usize) -> Option<Span>
    ensures { result ≡ option_map (λ x. x.span) (slice_get vars.now number) }
{
    let var = vars.get(number)?;
    Some(var.span)
}

// parameters through which something comes back and that don't say how, with their variables
fn add_outs(params: &[Param], vars: &[Var], list: &mut Vec<Found>) -> Result<(), AllocError>
    ensures { OnOk result (list.new.items ≡ list.old.items ++ map kept (is.unmarked_outs params.now vars.now)) }
{
    for (number, param) in params.iter().enumerate() {
        let Some(span) = span_at(vars, number) else {
            return Ok(());
        };
        let wrong = is_unmarked_out(*param);
        add_if(wrong, Rule::UnmarkedOut, span, list)?;
    }
    Ok(())
}

// such parameters of a privileged function
fn add_unmarked_outs(f: &TypedFn, list: &mut Vec<Found>) -> Result<(), AllocError>
    ensures { OnOk result (list.new.items ≡ list.old.items ++ map kept (is.unmarked_out (view_function f.now))) }
{
    if f.signature.privileged {
        add_outs(f.signature.params.as_slice(), f.vars.as_slice(), list)
    } else {
        Ok(())
    }
}

// what the marks of a function break
fn add_function(f: &TypedFn, list: &mut Vec<Found>) -> Result<(), AllocError>
    ensures { OnOk result (list.new.items ≡ list.old.items ++ map kept (is.function_findings (view_function f.now))) }
{
    add_unmarked_outs(f, list)?;
    add_main(f, list)?;
    Ok(())
}

/// Adds what the marks of all functions break.
pub(crate) fn add_functions(t: &Typed, list: &mut Vec<Found>) -> Result<(), AllocError>
    ensures { OnOk result (list.new.items ≡ list.old.items ++ map kept (flat_map is.function_findings (view_typed t.now).functions)) }
{
    for function in &t.functions {
        add_function(function, list)?;
    }
    Ok(())
}
