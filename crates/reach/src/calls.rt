// The halves of a program, and the functions in each: those that its calls reach.
ghost use Rattle.std.specs.Prelude.{◌≡◌, ◌++◌, IfOk, OnOk, codes, is_some, length, map};
ghost use Rattle.std.specs.List.{filter};
ghost use Rattle.typed_tree.specs.ExpressionTree.{view_expr};
ghost use Rattle.typed_tree.specs.Lookup.{function_named};
ghost use Rattle.typed_tree.specs.TypedView.{view_typed};
ghost use Rattle.reach.specs.CallGraph as is;
ghost use Rattle.reach.specs.Contexts.{expr_callees, test_function};
ghost use Rattle.reach.specs.Reached.{IsReached};
ghost use Rattle.usages.specs.Lent.{AreUsages};

use crate::functions::{is_privileged, stays};
use crate::tables::add_if;
use propagation::{Marks, propagate};
use pt_base::{Edge, FnId, Slot, Span, next_number, sum};
use std::alloc::{AllocError, Global};
use typed_tree::{Form, Typed, TypedExpr};
use usages::Usages;

/// A half.
#[derive(Clone, Copy)]
pub enum Half {
    Monitor,
    Slave,
}

// appends the edge of a call, where this is one that stays in the half
fn add_call(
    t: &Typed,
    half: Half,
    caller: u32,
    e: &TypedExpr,
    edges: &mut Vec<Edge>,
) -> Result<(), AllocError>
    ensures { OnOk result (edges.new.items ≡ edges.old.items ++ map (is.call_edge caller) (filter (test_function (is.is_entered half) (view_typed t.now)) (expr_callees (view_expr e.now)))) }
{
    if let Form::Call(callee, _) = &e.form
        && stays(t, half, *callee)
    {
        edges.push(Edge {
            from: Slot(u64::from(caller)),
            to: Slot(u64::from(callee.0)),
            span: Span { from: 0, to: 0 },
        })?;
    }
    Ok(())
}

// appends the calls in the body of a function that stay in a half, for each half
fn add_calls(
    t: &Typed,
    usages: &Usages<'_>,
    caller: u32,
    monitor: &mut Vec<Edge>,
    slave: &mut Vec<Edge>,
) -> Result<(), AllocError>
    requires used { AreUsages (view_typed t.now) usages.now }
    ensures monitor { OnOk result (monitor.new.items ≡ monitor.old.items ++ is.calls_of (view_typed t.now) Half.Monitor caller) }
    ensures slave { OnOk result (slave.new.items ≡ slave.old.items ++ is.calls_of (view_typed t.now) Half.Slave caller) }
{
    let list = usages.of(t, FnId(caller));
    for usage in list {
        add_call(t, Half::Monitor, caller, usage.value, monitor)?;
        add_call(t, Half::Slave, caller, usage.value, slave)?;
    }
    Ok(())
}

/// The calls that stay in the monitor and those that stay in the slave, as edges.
pub fn call_edges(
    alloc: Global,
    t: &Typed,
    usages: &Usages<'_>,
) -> Result<(Vec<Edge>, Vec<Edge>), AllocError>
    requires used { AreUsages (view_typed t.now) usages.now }
    ensures monitor { IfOk result (λ p. p.0.items ≡ is.call_edges (view_typed t.now) Half.Monitor) }
    ensures slave { IfOk result (λ p. p.1.items ≡ is.call_edges (view_typed t.now) Half.Slave) }
{
    let mut monitor = Vec::new(alloc);
    let mut slave = Vec::new(alloc);
    let mut caller: u32 = 0;
    for _function in &t.functions {
        add_calls(t, usages, caller, &mut monitor, &mut slave)?;
        caller = next_number(caller)?;
    }
    Ok((monitor, slave))
}

// the privileged functions
fn privileged(alloc: Global, t: &Typed) -> Result<Vec<Slot>, AllocError>
    ensures { IfOk result (λ v. v.items ≡ is.privileged_from 0 (view_typed t.now).functions) }
{
    let mut list = Vec::new(alloc);
    let mut number: u64 = 0;
    for function in &t.functions {
        add_if(is_privileged(function), Slot(number), &mut list)?;
        number = sum(number, 1)?;
    }
    Ok(list)
}

// the main function, where there is one
fn main_start(alloc: Global, main: Option<FnId>) -> Result<Vec<Slot>, AllocError>
    ensures { IfOk result (λ v. v.items ≡ is.main_start main) }
{
    let mut list = Vec::new(alloc);
    if let Some(f) = main {
        list.push(Slot(u64::from(f.0)))?;
    }
    Ok(list)
}

// where the code of a half begins
fn half_starts(
    alloc: Global,
    t: &Typed,
    half: Half,
    main: Option<FnId>,
) -> Result<Vec<Slot>, AllocError>
    requires { main ≡ function_named (view_typed t.now) (codes "main") }
    ensures { IfOk result (λ v. v.items ≡ is.half_starts (view_typed t.now) half) }
{
    match half {
        Half::Monitor => privileged(alloc, t),
        Half::Slave => main_start(alloc, main),
    }
}

// for each of so many functions, whether it is marked
fn table_of(alloc: Global, marks: &Marks, functions: usize) -> Result<Vec<bool>, AllocError>
    requires { length marks.now ≡ functions }
    ensures { IfOk result (λ v. v.items ≡ map is_some marks.now) }
{
    let mut table = Vec::new(alloc);
    for number in 0..functions {
        table.push(marks.is_priv(Slot(number as u64)))?;
    }
    Ok(table)
}

/// For each function, whether it is in the half: the calls that stay there are followed from where the half
/// begins.
pub fn reached(
    alloc: Global,
    t: &Typed,
    half: Half,
    calls: &[Edge],
) -> Result<Vec<bool>, AllocError>
    requires { calls.now ≡ is.call_edges (view_typed t.now) half }
    ensures { IfOk result (λ v. IsReached (view_typed t.now) half v.items) }
{
    let main = t.function_of(b"main");
    let starts = half_starts(alloc, t, half, main)?;
    let functions = t.functions.len();
    let marks = propagate(alloc, &starts, calls, functions as u64)?;
    let table = table_of(alloc, &marks, functions)?;
    Ok(table)
}
