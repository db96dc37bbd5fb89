// What functions call.
ghost use Rattle.std.specs.Prelude.{◌≡◌, false, IfOk, map, replicate};
ghost use Rattle.reach.specs.Tables.{set_all};
ghost use Rattle.pt_core.specs.CodeTree.{stmt_trees, view_function, view_stmt};
ghost use Rattle.pt_core.specs.WellFormedStatement.{callees_in, callees_of};
ghost use Rattle.splitter.specs.Halves as is;

use crate::number_set::NumberSet;
use pt_core::{CoreFn, Stmt};
use std::alloc::{AllocError, Global};

// adds what a statement calls
#[cycle(callees)]
fn add_callees(statement: &Stmt, called: &mut NumberSet)
    ensures { called.new ≡ set_all called.old (callees_in (view_stmt statement.now)) }
{
    match statement {
        Stmt::Call { callee, .. } => called.add(callee.0),
        Stmt::If { yes, no, .. } => {
            add_all_callees(yes, called);
            add_all_callees(no, called);
        }
        Stmt::Loop { body, .. } => add_all_callees(body, called),
        Stmt::Clear { .. }
        | Stmt::Check { .. }
        | Stmt::Assign { .. }
        | Stmt::Copy { .. }
        | Stmt::Break
        | Stmt::Continue
        | Stmt::Return { .. } => {}
    }
}

// adds what statements call
#[cycle(callees)]
fn add_all_callees(statements: &[Stmt], called: &mut NumberSet)
    ensures { called.new ≡ set_all called.old (callees_of (stmt_trees (map view_stmt statements.now))) }
{
    for statement in statements {
        add_callees(statement, called);
    }
}

/// The functions and hosts that these functions call, among those of numbers below this one.
pub(crate) fn called_by(
    alloc: Global,
    functions: &[CoreFn],
    bound: usize,
) -> Result<NumberSet, AllocError>
    ensures { IfOk result (λ called. called ≡ set_all (replicate bound false) (is.called_by (map view_function functions.now))) }
{
    let mut called = NumberSet::none(alloc, bound)?;
    for function in functions {
        add_all_callees(&function.body, &mut called);
    }
    Ok(called)
}
