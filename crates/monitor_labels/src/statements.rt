// The label edges of statements.
ghost use Rattle.std.specs.Prelude.{◌≡◌, ◌++◌, OnOk, map, option_map};
ghost use Rattle.pt_core.specs.CodeTree.{stmt_trees, view_expr, view_place, view_stmt};
ghost use Rattle.monitor_labels.specs.Arrows as arrows;
ghost use Rattle.monitor_labels.specs.Labels.{edges_along};
ghost use Rattle.monitor_labels.specs.Scopes.{IsScope, function_of, program_of};

use crate::calls::add_call;
use crate::reads::{add_back, add_edge, add_place_reads, add_reads, place_start};
use crate::scope::Scope;
use pt_base::{Edge, VarId};
use pt_core::{Expr, Place, Root, Stmt};
use std::alloc::AllocError;

// whether it is a whole variable that is a pointer
fn is_pointer_place(scope: &Scope<'_>, place: &Place) -> bool
    ensures { result ≡ arrows.is_pointer_place (function_of scope.now) (view_place place.now) }
{
    match &place.root {
        Root::Local(v) => place.path.is_empty() && scope.is_pointer_variable(*v),
        Root::Global(_) | Root::Deref { .. } => false,
    }
}

// a variable as it is where it is declared
fn add_cleared(scope: &Scope<'_>, var: VarId, edges: &mut Vec<Edge>) -> Result<(), AllocError>
    requires { IsScope scope.now }
    ensures { OnOk result (edges.new.items ≡ edges.old.items ++ edges_along (program_of scope.now) (arrows.cleared_arrows (function_of scope.now) var.0)) }
{
    let to = scope.variable(var)?;
    add_edge(scope.control, to, edges)
}

fn add_assigned(
    scope: &Scope<'_>,
    place: &Place,
    value: &Expr,
    edges: &mut Vec<Edge>,
) -> Result<(), AllocError>
    requires { IsScope scope.now }
    ensures { OnOk result (edges.new.items ≡ edges.old.items ++ edges_along (program_of scope.now) (arrows.assigned_arrows (function_of scope.now) (view_place place.now) (view_expr value.now))) }
{
    let Some(to) = place_start(scope, place)? else {
        return Ok(());
    };
    add_reads(scope, value, to, edges)?;
    add_place_reads(scope, place, to, edges)?;
    add_edge(scope.control, to, edges)?;
    let pointer = is_pointer_place(scope, place);
    add_back(scope, value, pointer, to, edges)
}

fn add_copied(
    scope: &Scope<'_>,
    to: &Place,
    of: &Place,
    edges: &mut Vec<Edge>,
) -> Result<(), AllocError>
    requires { IsScope scope.now }
    ensures { OnOk result (edges.new.items ≡ edges.old.items ++ edges_along (program_of scope.now) (arrows.copied_arrows (function_of scope.now) (view_place to.now) (view_place of.now))) }
{
    let Some(start) = place_start(scope, to)? else {
        return Ok(());
    };
    add_place_reads(scope, of, start, edges)?;
    add_place_reads(scope, to, start, edges)?;
    add_edge(scope.control, start, edges)
}

fn add_returned(
    scope: &Scope<'_>,
    value: &Option<Expr>,
    edges: &mut Vec<Edge>,
) -> Result<(), AllocError>
    requires { IsScope scope.now }
    ensures { OnOk result (edges.new.items ≡ edges.old.items ++ edges_along (program_of scope.now) (arrows.returned_arrows (function_of scope.now) (option_map view_expr value.now))) }
{
    let Some(value) = value else {
        return Ok(());
    };
    add_reads(scope, value, scope.result, edges)?;
    add_edge(scope.control, scope.result, edges)
}

/// Adds the edges of statements, one after the other. What is nested takes stack.
#[cycle(statements)]
pub(crate) fn add_statements(
    scope: &Scope<'_>,
    statements: &[Stmt],
    edges: &mut Vec<Edge>,
) -> Result<(), AllocError>
    requires { IsScope scope.now }
    ensures { OnOk result (edges.new.items ≡ edges.old.items ++ edges_along (program_of scope.now) (arrows.all_arrows (program_of scope.now) (function_of scope.now) (stmt_trees (map view_stmt statements.now)))) }
{
    for statement in statements {
        add_statement(scope, statement, edges)?;
    }
    Ok(())
}

// one statement, of two lists of statements both
#[cycle(statements)]
fn add_statement(
    scope: &Scope<'_>,
    statement: &Stmt,
    edges: &mut Vec<Edge>,
) -> Result<(), AllocError>
    requires { IsScope scope.now }
    ensures { OnOk result (edges.new.items ≡ edges.old.items ++ edges_along (program_of scope.now) (arrows.stmt_arrows (program_of scope.now) (function_of scope.now) (view_stmt statement.now))) }
{
    match statement {
        Stmt::Clear { var } => add_cleared(scope, *var, edges),
        Stmt::Assign { place, value } => add_assigned(scope, place, value, edges),
        Stmt::Copy { to, of } => add_copied(scope, to, of, edges),
        Stmt::Call {
            callee,
            args,
            result,
            ..
        } => add_call(scope, *callee, args, *result, edges),
        Stmt::If { cond, yes, no } => {
            add_reads(scope, cond, scope.control, edges)?;
            add_statements(scope, yes, edges)?;
            add_statements(scope, no, edges)
        }
        Stmt::Loop { body, .. } => add_statements(scope, body, edges),
        Stmt::Return { value } => add_returned(scope, value, edges),
        Stmt::Check { .. } | Stmt::Break | Stmt::Continue => Ok(()),
    }
}
