// The C trees of statements.
ghost use Rattle.std.specs.Prelude.{◌≡◌, ◌++◌, ◌∷◌, [], IfOk, OnOk, map, option_map};
ghost use Rattle.std.specs.List.{range_with_len};
ghost use Rattle.pt_tree.specs.ExpressionTree as e;
ghost use Rattle.pt_tree.specs.StatementTree as c;
ghost use Rattle.pt_core.specs.CodeTree.{expr_trees, stmt_trees, view_expr, view_place, view_stmt};
ghost use Rattle.pt_core.specs.Types as types;
ghost use Rattle.half_trees.specs.Built as built;
ghost use Rattle.half_trees.specs.Expressions as trees;
ghost use Rattle.half_trees.specs.Leaves as leaves;
ghost use Rattle.half_trees.specs.Names as names;
ghost use Rattle.half_trees.specs.Statements as s;
ghost use Rattle.half_trees.specs.Views.{view_half, view_scope};

use crate::clearing::{push_cleared, push_store, variable};
use crate::constants::number;
use crate::expressions::{expression, place};
use crate::half::Scope;
use crate::names::{NOWHERE, function_name, word};
use crate::postfixes::extended;
use pt_base::{FnId, IntType, VarId};
use pt_core::{Expr as CodeExpr, Place, Stmt as Code};
use pt_tree::{Block, Expr, Postfix, Stmt};
use std::alloc::{AllocError, Global};
use typed_tree::VarTy;

// ---- copies

// An element of an array.
fn element(alloc: Global, array: Expr, n: u32) -> Result<Expr, AllocError>
    ensures { IfOk result (λ x. e.view_expr x ≡ trees.extended (e.view_expr array) (leaves.element n ∷ [])) }
{
    let mut postfixes = Vec::new(alloc);
    postfixes.push(Postfix::Index(NOWHERE, number(IntType::Int, n)))?;
    extended(alloc, array, postfixes)
}

// Appends one element of an array, stored in that of another.
fn push_element(
    to: &Place,
    of: &Place,
    n: u32,
    alloc: Global,
    scope: &Scope<'_>,
    out: &mut Vec<Stmt>,
) -> Result<(), AllocError>
    ensures { OnOk result (map c.view_stmt out.new.items ≡ map c.view_stmt out.old.items ++ s.element_copied (trees.place_tree (view_scope scope.now) (view_place to.now)) (trees.place_tree (view_scope scope.now) (view_place of.now)) n ∷ []) }
{
    let to = element(alloc, place(to, alloc, scope)?.tree, n)?;
    let of = element(alloc, place(of, alloc, scope)?.tree, n)?;
    push_store(alloc, to, of, out)
}

// Appends the elements of an array, each stored in that of another.
fn push_elements(
    to: &Place,
    of: &Place,
    count: u32,
    alloc: Global,
    scope: &Scope<'_>,
    out: &mut Vec<Stmt>,
) -> Result<(), AllocError>
    ensures { OnOk result (map c.view_stmt out.new.items ≡ map c.view_stmt out.old.items ++ map (s.element_copied (trees.place_tree (view_scope scope.now) (view_place to.now)) (trees.place_tree (view_scope scope.now) (view_place of.now))) (range_with_len 0 count)) }
{
    for n in 0..count {
        push_element(to, of, n, alloc, scope, out)?;
    }
    Ok(())
}

// Appends an object stored in another.
fn push_object(
    to: Expr,
    of: &Place,
    alloc: Global,
    scope: &Scope<'_>,
    out: &mut Vec<Stmt>,
) -> Result<(), AllocError>
    ensures { OnOk result (map c.view_stmt out.new.items ≡ map c.view_stmt out.old.items ++ s.evaluated (s.stored (e.view_expr to) (trees.place_tree (view_scope scope.now) (view_place of.now))) ∷ []) }
{
    let of = place(of, alloc, scope)?.tree;
    push_store(alloc, to, of, out)
}

// Appends what copies an object to another: an array by its elements.
fn push_copied(
    to: &Place,
    of: &Place,
    alloc: Global,
    scope: &Scope<'_>,
    out: &mut Vec<Stmt>,
) -> Result<(), AllocError>
    ensures { OnOk result (map c.view_stmt out.new.items ≡ map c.view_stmt out.old.items ++ s.copied (types.place_type (view_scope scope.now) (view_place to.now)) (trees.place_tree (view_scope scope.now) (view_place to.now)) (trees.place_tree (view_scope scope.now) (view_place of.now))) }
{
    let whole = place(to, alloc, scope)?;
    match whole.ty {
        VarTy::Array { count, .. } => push_elements(to, of, count, alloc, scope, out),
        VarTy::Int(_) => push_object(whole.tree, of, alloc, scope, out),
        VarTy::Struct(_) => push_object(whole.tree, of, alloc, scope, out),
        VarTy::Pointer { .. } => push_object(whole.tree, of, alloc, scope, out),
    }
}

// ---- calls

// The arguments of a call.
fn arguments(alloc: Global, scope: &Scope<'_>, args: &[CodeExpr]) -> Result<Vec<Expr>, AllocError>
    ensures { IfOk result (λ v. map e.view_expr v.items ≡ map (λ a. trees.expression_tree (view_scope scope.now) (view_expr a)) args.now) }
{
    let mut trees = Vec::with_capacity(alloc, args.len())?;
    for arg in args {
        trees.push(expression(arg, alloc, scope)?.tree)?;
    }
    Ok(trees)
}

// A call of what has this name.
fn call_of(alloc: Global, name: Vec<u8>, args: Vec<Expr>) -> Result<Expr, AllocError>
    ensures { IfOk result (λ x. e.view_expr x ≡ e.postfix names.nowhere (e.name (names.word name.items)) (e.postfix_and (e.call names.nowhere (e.expr_trees (map e.view_expr args.items))) e.no_postfixes)) }
{
    let mut postfixes = Vec::new(alloc);
    postfixes.push(Postfix::called(NOWHERE, args))?;
    Expr::with_postfixes(alloc, NOWHERE, Expr::Name(word(name)), postfixes)
}

// A call.
fn call_tree(
    alloc: Global,
    scope: &Scope<'_>,
    f: FnId,
    args: &[CodeExpr],
) -> Result<Expr, AllocError>
    ensures { IfOk result (λ x. e.view_expr x ≡ s.call_tree (view_half scope.now.half.now).signatures (view_scope scope.now) f.0 (expr_trees (map view_expr args.now))) }
{
    let name = function_name(alloc, f.0 as usize, scope.half.signature(f.0))?;
    let args = arguments(alloc, scope, args)?;
    call_of(alloc, name, args)
}

// Appends a call, whose result goes to a variable where there is one.
fn push_call(
    alloc: Global,
    call: Expr,
    receiver: Option<VarId>,
    out: &mut Vec<Stmt>,
) -> Result<(), AllocError>
    ensures { OnOk result (map c.view_stmt out.new.items ≡ map c.view_stmt out.old.items ++ s.evaluated (s.received (option_map (λ v. v.0) receiver) (e.view_expr call)) ∷ []) }
{
    match receiver {
        Some(v) => push_store(alloc, variable(alloc, v.0)?, call, out),
        None => {
            out.push(Stmt::Expr(NOWHERE, call))?;
            Ok(())
        }
    }
}

// ---- branches, loops and returns

// Statements in braces.
fn braced(items: Vec<Stmt>) -> Stmt
    ensures { c.view_stmt result ≡ s.braced (map c.view_stmt items.items) }
{
    Stmt::braces(Block {
        span: NOWHERE,
        items,
    })
}

// Appends a choice between blocks.
fn push_choice(
    alloc: Global,
    test: Expr,
    yes: Vec<Stmt>,
    no: Vec<Stmt>,
    out: &mut Vec<Stmt>,
) -> Result<(), AllocError>
    ensures { OnOk result (map c.view_stmt out.new.items ≡ map c.view_stmt out.old.items ++ c.choose names.nowhere (e.view_expr test) (s.braced (map c.view_stmt yes.items)) (c.otherwise (s.braced (map c.view_stmt no.items))) ∷ []) }
{
    out.push(Stmt::choice(alloc, NOWHERE, test, braced(yes), braced(no))?)?;
    Ok(())
}

// Appends a block behind a condition.
fn push_when(
    alloc: Global,
    test: Expr,
    yes: Vec<Stmt>,
    out: &mut Vec<Stmt>,
) -> Result<(), AllocError>
    ensures { OnOk result (map c.view_stmt out.new.items ≡ map c.view_stmt out.old.items ++ c.choose names.nowhere (e.view_expr test) (s.braced (map c.view_stmt yes.items)) c.no_else ∷ []) }
{
    out.push(Stmt::when(alloc, NOWHERE, test, braced(yes))?)?;
    Ok(())
}

// Appends a choice, without `else` where the second list is empty.
fn push_if(
    alloc: Global,
    test: Expr,
    first: Vec<Stmt>,
    no: &[Code],
    second: Vec<Stmt>,
    out: &mut Vec<Stmt>,
) -> Result<(), AllocError>
    ensures { OnOk result (map c.view_stmt out.new.items ≡ map c.view_stmt out.old.items ++ c.choose names.nowhere (e.view_expr test) (s.braced (map c.view_stmt first.items)) (s.else_tree (stmt_trees (map view_stmt no.now)) (map c.view_stmt second.items)) ∷ []) }
{
    if no.is_empty() {
        return push_when(alloc, test, first, out);
    }
    push_choice(alloc, test, first, second, out)
}

// Appends a loop.
fn push_loop(alloc: Global, body: Vec<Stmt>, out: &mut Vec<Stmt>) -> Result<(), AllocError>
    ensures { OnOk result (map c.view_stmt out.new.items ≡ map c.view_stmt out.old.items ++ c.while_true names.nowhere (trees.number IntType.Int 1) (s.braced (map c.view_stmt body.items)) ∷ []) }
{
    let test = number(IntType::Int, 1);
    out.push(Stmt::while_true(alloc, NOWHERE, test, braced(body))?)?;
    Ok(())
}

// Appends a return.
fn push_return(
    alloc: Global,
    scope: &Scope<'_>,
    value: &Option<CodeExpr>,
    out: &mut Vec<Stmt>,
) -> Result<(), AllocError>
    ensures { OnOk result (map c.view_stmt out.new.items ≡ map c.view_stmt out.old.items ++ c.give_back names.nowhere (option_map (trees.expression_tree (view_scope scope.now)) (option_map view_expr value.now)) ∷ []) }
{
    let value = match value {
        Some(value) => Some(expression(value, alloc, scope)?.tree),
        None => None,
    };
    out.push(Stmt::Return(NOWHERE, value))?;
    Ok(())
}

// Appends a place or a call whose value is dropped.
fn push_value(value: Expr, out: &mut Vec<Stmt>) -> Result<(), AllocError>
    ensures { OnOk result (map c.view_stmt out.new.items ≡ map c.view_stmt out.old.items ++ s.evaluated (e.view_expr value) ∷ []) }
{
    out.push(Stmt::Expr(NOWHERE, value))?;
    Ok(())
}

// ---- statements

/// Appends the C trees of a statement. Nesting takes stack.
#[cycle(statements)]
fn push_statement(
    statement: &Code,
    alloc: Global,
    scope: &Scope<'_>,
    out: &mut Vec<Stmt>,
) -> Result<(), AllocError>
    ensures { OnOk result (map c.view_stmt out.new.items ≡ map c.view_stmt out.old.items ++ s.statement_trees (view_half scope.now.half.now).signatures (view_scope scope.now) (view_stmt statement.now)) }
{
    match statement {
        Code::Clear { var } => {
            push_cleared(
                alloc,
                scope.half.structs,
                scope.variable_type(var.0),
                var.0,
                out,
            )
        }
        Code::Check { place: checked } => push_value(place(checked, alloc, scope)?.tree, out),
        Code::Assign { place: to, value } => {
            let to = place(to, alloc, scope)?.tree;
            push_store(alloc, to, expression(value, alloc, scope)?.tree, out)
        }
        Code::Copy { to, of } => push_copied(to, of, alloc, scope, out),
        Code::Call {
            callee,
            args,
            result: receiver,
            ..
        } => {
            let call = call_tree(alloc, scope, *callee, args)?;
            push_call(alloc, call, *receiver, out)
        }
        Code::If { cond, yes, no } => {
            let test = expression(cond, alloc, scope)?.tree;
            let first = statements(yes, alloc, scope)?;
            let second = statements(no, alloc, scope)?;
            push_if(alloc, test, first, no, second, out)
        }
        Code::Loop { body, .. } => {
            let body = statements(body, alloc, scope)?;
            push_loop(alloc, body, out)
        }
        Code::Break => {
            out.push(Stmt::Break(NOWHERE))?;
            Ok(())
        }
        Code::Continue => {
            out.push(Stmt::Continue(NOWHERE))?;
            Ok(())
        }
        Code::Return { value } => push_return(alloc, scope, value, out),
    }
}

/// The C trees of statements. Nesting takes stack.
#[cycle(statements)]
pub(crate) fn statements(
    list: &[Code],
    alloc: Global,
    scope: &Scope<'_>,
) -> Result<Vec<Stmt>, AllocError>
    ensures { IfOk result (λ v. map c.view_stmt v.items ≡ s.statements_trees (view_half scope.now.half.now).signatures (view_scope scope.now) (stmt_trees (map view_stmt list.now))) }
{
    let mut out = Vec::new(alloc);
    for statement in list {
        push_statement(statement, alloc, scope, &mut out)?;
    }
    Ok(out)
}
