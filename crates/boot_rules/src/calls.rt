// Which calls are well formed.
ghost use Rattle.std.specs.Prelude.{◌≡◌, map};
ghost use Rattle.std.specs.List.{flat_map, list_all};
ghost use Rattle.pt_core.specs.CodeTree.{stmt_trees, view_boot, view_function, view_stmt};
ghost use Rattle.pt_core.specs.WellFormedStatement.{callees_in, callees_of};
ghost use Rattle.boot_rules.specs.Tests as tests;

use crate::candidate::Candidate;
use crate::code::{has_model, is_function, signature_at};
use pt_base::FnId;
use pt_core::{CoreFn, Stmt};

/// Whether all that functions call is there: functions but for those that are privileged, and
/// models of hosts but for those that are privileged.
pub(crate) fn calls_fit(candidate: &Candidate<'_>, functions: &[CoreFn]) -> bool
    ensures { result ≡ list_all (tests.call_fits (view_boot candidate.now.boot.now)) (flat_map (λ f. callees_of f.body) (map view_function functions.now)) }
{
    for function in functions {
        if !all_calls_fit(&function.body, candidate) {
            return false;
        }
    }
    true
}

// The same of what statements call.
#[cycle(statements)]
fn all_calls_fit(statements: &[Stmt], candidate: &Candidate<'_>) -> bool
    ensures { result ≡ list_all (tests.call_fits (view_boot candidate.now.boot.now)) (callees_of (stmt_trees (map view_stmt statements.now))) }
{
    for statement in statements {
        if !its_calls_fit(statement, candidate) {
            return false;
        }
    }
    true
}

#[cycle(statements)]
fn its_calls_fit(statement: &Stmt, candidate: &Candidate<'_>) -> bool
    ensures { result ≡ list_all (tests.call_fits (view_boot candidate.now.boot.now)) (callees_in (view_stmt statement.now)) }
{
    match statement {
        Stmt::Call { callee, .. } => call_fits(candidate, *callee),
        Stmt::If { yes, no, .. } => {
            all_calls_fit(yes, candidate) && all_calls_fit(no, candidate)
        }
        Stmt::Loop { body, .. } => all_calls_fit(body, candidate),
        Stmt::Clear { .. }
        | Stmt::Check { .. }
        | Stmt::Assign { .. }
        | Stmt::Copy { .. }
        | Stmt::Break
        | Stmt::Continue
        | Stmt::Return { .. } => true,
    }
}

// Whether what is called is there where it is to be.
#[tactic(auto, unfolding(crate::specs::Tests::call_fits))]
fn call_fits(candidate: &Candidate<'_>, f: FnId) -> bool
    ensures { result ≡ tests.call_fits (view_boot candidate.now.boot.now) f.0 }
{
    match signature_at(candidate, f) {
        Some(signature) => {
            (signature.host || signature.privileged || is_function(candidate, f))
                && (!signature.host || signature.privileged || has_model(candidate, f))
        }
        None => false,
    }
}
