// Which statements are well formed.
ghost use Rattle.std.specs.Prelude.{◌≡◌, ◌&&◌, false, IsTrue, Some, map, option_map};
ghost use Rattle.pt_core.specs.CodeTree.{assign, check, copy, expr_trees, stmt_trees, view_expr, view_place, view_stmt};
ghost use Rattle.pt_core.specs.Types.{type_of};
ghost use Rattle.pt_core.specs.WellFormedExpression.{expr_fits};
ghost use Rattle.pt_core.specs.WellFormedStatement as is;
ghost use Rattle.typed_tree.specs.TypeTests as tests;
ghost use Rattle.code_rules.specs.Parts as parts;
ghost use Rattle.code_rules.specs.Scopes.{are_ordered, context_of, scope_of, signature_in};

use crate::expressions::{expression_type, place_type};
use crate::names::{Scope, is_variable, signature_of, variable_type};
use crate::types::{both_int, integer_of, is_compound, is_scalar, stands};
use pt_base::{FnId, IntType, VarId};
use pt_core::{Expr, Place, Stmt};
use pt_tree::{Param, Signature};
use typed_tree::{VarTy, is_main, param_type, same_type};

/// Whether the statements of a function are well formed: what they name is there, operators and
/// calls have operands and arguments of the types that they ask for, what is stored, passed and
/// returned has the type of what it goes to, and `break` and `continue` stand in loops.
///
/// It takes no memory, and time that grows with the code. What is nested takes stack: two calls for
/// each level of statements, at most three for one of expressions and places. Operators of integers
/// that are chained to the left take none, however many.
pub fn body_fits(scope: &Scope<'_>, body: &[Stmt]) -> bool
    requires { IsTrue (are_ordered scope.now.names.now) }
    ensures { result ≡ is.stmts_fit (scope_of scope.now) false (stmt_trees (map view_stmt body.now)) }
{
    statements_fit(body, scope, false)
}

#[cycle(statements)]
fn statements_fit(statements: &[Stmt], scope: &Scope<'_>, looped: bool) -> bool
    requires { IsTrue (are_ordered scope.now.names.now) }
    ensures { result ≡ is.stmts_fit (scope_of scope.now) looped (stmt_trees (map view_stmt statements.now)) }
{
    for statement in statements {
        if !statement_fits(statement, scope, looped) {
            return false;
        }
    }
    true
}

#[cycle(statements)]
fn statement_fits(statement: &Stmt, scope: &Scope<'_>, looped: bool) -> bool
    requires { IsTrue (are_ordered scope.now.names.now) }
    ensures { result ≡ is.stmt_fits (scope_of scope.now) looped (view_stmt statement.now) }
{
    match statement {
        Stmt::Clear { var } => is_variable(scope, *var),
        Stmt::Check { place } => check_fits(place, scope),
        Stmt::Assign { place, value } => assignment_fits(place, value, scope),
        Stmt::Copy { to, of } => copy_fits(to, of, scope),
        Stmt::Call {
            callee,
            args,
            result,
            ..
        } => call_fits(*callee, args, *result, scope),
        Stmt::If { cond, yes, no } => {
            condition_fits(cond, scope)
                && (statements_fit(yes, scope, looped) && statements_fit(no, scope, looped))
        }
        Stmt::Loop { body, .. } => statements_fit(body, scope, true),
        Stmt::Break | Stmt::Continue => looped,
        Stmt::Return { value } => return_fits(value, scope),
    }
}

// A place that is found. Whether it stands in a loop doesn't matter, here and below.
fn check_fits(place: &Place, scope: &Scope<'_>) -> bool
    requires { IsTrue (are_ordered scope.now.names.now) }
    ensures { result ≡ is.stmt_fits (scope_of scope.now) false (check (view_place place.now)) }
{
    place_type(place, scope).is_some()
}

fn assignment_fits(place: &Place, value: &Expr, scope: &Scope<'_>) -> bool
    requires { IsTrue (are_ordered scope.now.names.now) }
    ensures { result ≡ is.stmt_fits (scope_of scope.now) false (assign (view_place place.now) (view_expr value.now)) }
{
    let to = place_type(place, scope);
    stores(to, expression_type(value, scope))
}

// Whether a value of the one type may be stored in an object of the other.
fn stores(to: Option<VarTy>, ty: Option<VarTy>) -> bool
    ensures { result ≡ parts.stores to ty }
{
    match to {
        Some(to) => is_scalar(Some(to)) && stands(to, ty),
        None => false,
    }
}

fn copy_fits(to: &Place, of: &Place, scope: &Scope<'_>) -> bool
    requires { IsTrue (are_ordered scope.now.names.now) }
    ensures { result ≡ is.stmt_fits (scope_of scope.now) false (copy (view_place to.now) (view_place of.now)) }
{
    let to = place_type(to, scope);
    copies(to, place_type(of, scope))
}

// Whether an object of the one type may be copied to one of the other.
fn copies(to: Option<VarTy>, of: Option<VarTy>) -> bool
    ensures { result ≡ parts.copies to of }
{
    match (to, of) {
        (Some(to), Some(of)) => is_compound(to) && same_type(to, of),
        _ => false,
    }
}

// Whether it may decide which statements are done.
fn condition_fits(cond: &Expr, scope: &Scope<'_>) -> bool
    requires { IsTrue (are_ordered scope.now.names.now) }
    ensures { result ≡ (expr_fits (context_of scope.now) (view_expr cond.now) && tests.is_scalar (Some (type_of (context_of scope.now) (view_expr cond.now)))) }
{
    is_scalar(expression_type(cond, scope))
}

fn call_fits(callee: FnId, arguments: &[Expr], receiver: Option<VarId>, scope: &Scope<'_>) -> bool
    requires { IsTrue (are_ordered scope.now.names.now) }
    ensures { result ≡ is.call_fits (context_of scope.now) (signature_in scope.now.names.now callee.0) (expr_trees (map view_expr arguments.now)) (option_map (λ v. v.0) receiver) }
{
    match signature_of(scope.names, callee) {
        Some(signature) => may_be_called(signature, arguments, receiver, scope),
        None => false,
    }
}

// Whether a function may be called so: it isn't main.
fn may_be_called(
    signature: &Signature,
    arguments: &[Expr],
    receiver: Option<VarId>,
    scope: &Scope<'_>,
) -> bool
    requires { IsTrue (are_ordered scope.now.names.now) }
    ensures { result ≡ is.call_fits (context_of scope.now) (Some signature.now) (expr_trees (map view_expr arguments.now)) (option_map (λ v. v.0) receiver) }
{
    !is_main(signature)
        && arguments_fit(signature.params.as_slice(), arguments, scope)
        && receiver_fits(signature.result, receiver, scope)
}

// One argument for each parameter, of its type.
fn arguments_fit(params: &[Param], arguments: &[Expr], scope: &Scope<'_>) -> bool
    requires { IsTrue (are_ordered scope.now.names.now) }
    ensures { result ≡ is.arguments_fit (context_of scope.now) params.now (expr_trees (map view_expr arguments.now)) }
{
    let mut rest = params;
    for argument in arguments {
        let [param, after @ ..] = rest else {
            return false;
        };
        if !value_fits(param_type(param.kind), argument, scope) {
            return false;
        }
        rest = after;
    }
    rest.is_empty()
}

// An expression that may stand where this type is wanted.
fn value_fits(wanted: VarTy, value: &Expr, scope: &Scope<'_>) -> bool
    requires { IsTrue (are_ordered scope.now.names.now) }
    ensures { result ≡ is.value_fits (context_of scope.now) wanted (view_expr value.now) }
{
    stands(wanted, expression_type(value, scope))
}

// Whether a result of this type may go to this variable, if there is one.
fn receiver_fits(of: Option<IntType>, receiver: Option<VarId>, scope: &Scope<'_>) -> bool
    ensures { result ≡ is.result_fits (context_of scope.now) of (option_map (λ v. v.0) receiver) }
{
    match receiver {
        Some(v) => receives(of, variable_type(scope, v)),
        None => true,
    }
}

// Whether a result goes to an object of the other type.
fn receives(of: Option<IntType>, to: Option<VarTy>) -> bool
    ensures { result ≡ parts.receives of to }
{
    match (of, to) {
        (Some(t), Some(ty)) => same_type(VarTy::Int(t), ty),
        _ => false,
    }
}

fn return_fits(value: &Option<Expr>, scope: &Scope<'_>) -> bool
    requires { IsTrue (are_ordered scope.now.names.now) }
    ensures { result ≡ is.return_fits (scope_of scope.now) (option_map view_expr value.now) }
{
    match value {
        Some(value) => both_int(integer_of(expression_type(value, scope)), scope.result),
        None => scope.result.is_none(),
    }
}
