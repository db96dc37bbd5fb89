// Reading statements, functions and globals.
ghost use Rattle.std.specs.Prelude.{◌≡◌, map, option_map};
ghost use Rattle.pt_core.specs.CodeTree.{FunctionTree, GlobalTree, stmt_trees, view_stmt, view_function, view_global};
ghost use Rattle.boot_fields.specs.Reading.{Gives, deepest, option_at, number32_at, expr_at, assign_at, copy_at, call_at, choose_at, repeat_at, step_at, stmt_at, stmts_at, function_at, global_at};

use crate::expressions::{expr, exprs, place, value};
use crate::hosts::numbers;
use crate::lists::{Part, list};
use boot_fields::{ReadError, byte, number_u32, number_u64, span};
use pt_base::{FnId, GlobalId, Listed, VarId};
use pt_core::{CoreFn, GlobalVar, Stmt};
use std::alloc::Global;
use typed_tree::Var;

// How many nodes of code may stand one inside the other.
const DEEPEST: u32 = 1_048_576;

// the variable that a result goes to, where there is one
#[tactic(auto, unfolding(boot_fields::specs::Reading::option_at))]
fn target(bytes: &[u8]) -> Result<(Option<VarId>, &[u8]), ReadError>
    ensures { Gives (λ x. (option_map (λ v. v.0) x.0, x.1.now)) result (option_at number32_at bytes.now) }
{
    match bytes {
        [] => Err(ReadError::Bad),
        [0, rest @ ..] => Ok((None, rest)),
        [1, rest @ ..] => {
            let (number, rest) = number_u32(rest)?;
            Ok((Some(VarId(number)), rest))
        }
        [_, ..] => Err(ReadError::Bad),
    }
}

fn assignment(alloc: Global, depth: u32, bytes: &[u8]) -> Result<(Stmt, &[u8]), ReadError>
    ensures { Gives (λ x. (view_stmt x.0, x.1.now)) result (assign_at (expr_at depth) bytes.now) }
{
    let (place, rest) = place(alloc, depth, bytes)?;
    let (value, rest) = expr(alloc, depth, rest)?;
    Ok((Stmt::Assign { place, value }, rest))
}

fn copy(alloc: Global, depth: u32, bytes: &[u8]) -> Result<(Stmt, &[u8]), ReadError>
    ensures { Gives (λ x. (view_stmt x.0, x.1.now)) result (copy_at (expr_at depth) bytes.now) }
{
    let (to, rest) = place(alloc, depth, bytes)?;
    let (of, rest) = place(alloc, depth, rest)?;
    Ok((Stmt::Copy { to, of }, rest))
}

#[tactic(auto, unfolding(boot_fields::specs::Reading::exprs_at))]
fn call(alloc: Global, depth: u32, bytes: &[u8]) -> Result<(Stmt, &[u8]), ReadError>
    ensures { Gives (λ x. (view_stmt x.0, x.1.now)) result (call_at (expr_at depth) bytes.now) }
{
    let (callee, rest) = number_u32(bytes)?;
    let (args, rest) = exprs(alloc, depth, rest)?;
    let (result, rest) = target(rest)?;
    let (span, rest) = span(rest)?;
    let call = Stmt::Call {
        callee: FnId(callee),
        args,
        result,
        span,
    };
    Ok((call, rest))
}

#[cycle(steps)]
fn choice(alloc: Global, depth: u32, bytes: &[u8]) -> Result<(Stmt, &[u8]), ReadError>
    ensures { Gives (λ x. (view_stmt x.0, x.1.now)) result (choose_at (expr_at depth) (stmt_at depth) bytes.now) }
{
    let (cond, rest) = expr(alloc, depth, bytes)?;
    let (yes, rest) = stmts(alloc, depth, rest)?;
    let (no, rest) = stmts(alloc, depth, rest)?;
    Ok((Stmt::choose(cond, yes, no), rest))
}

#[cycle(steps)]
fn repetition(alloc: Global, depth: u32, bytes: &[u8]) -> Result<(Stmt, &[u8]), ReadError>
    ensures { Gives (λ x. (view_stmt x.0, x.1.now)) result (repeat_at (stmt_at depth) bytes.now) }
{
    let (body, rest) = stmts(alloc, depth, bytes)?;
    let (span, rest) = span(rest)?;
    Ok((Stmt::repeat(body, span), rest))
}

#[tactic(auto, unfolding(boot_fields::specs::Reading::step_at))]
#[cycle(steps)]
fn step(alloc: Global, depth: u32, bytes: &[u8]) -> Result<(Stmt, &[u8]), ReadError>
    ensures { Gives (λ x. (view_stmt x.0, x.1.now)) result (step_at (expr_at depth) (stmt_at depth) bytes.now) }
{
    match bytes {
        [] => Err(ReadError::Bad),
        [0, rest @ ..] => {
            let (number, rest) = number_u32(rest)?;
            let var = VarId(number);
            Ok((Stmt::Clear { var }, rest))
        }
        [1, rest @ ..] => {
            let (place, rest) = place(alloc, depth, rest)?;
            Ok((Stmt::Check { place }, rest))
        }
        [2, rest @ ..] => assignment(alloc, depth, rest),
        [3, rest @ ..] => copy(alloc, depth, rest),
        [4, rest @ ..] => call(alloc, depth, rest),
        [5, rest @ ..] => choice(alloc, depth, rest),
        [6, rest @ ..] => repetition(alloc, depth, rest),
        [7, rest @ ..] => Ok((Stmt::Break, rest)),
        [8, rest @ ..] => Ok((Stmt::Continue, rest)),
        [9, rest @ ..] => {
            let (value, rest) = value(alloc, depth, rest)?;
            Ok((Stmt::Return { value }, rest))
        }
        [_, ..] => Err(ReadError::Bad),
    }
}

#[tactic(auto, unfolding(boot_fields::specs::Reading::stmt_at))]
#[cycle(steps)]
fn stmt(alloc: Global, depth: u32, bytes: &[u8]) -> Result<(Stmt, &[u8]), ReadError>
    ensures { Gives (λ x. (view_stmt x.0, x.1.now)) result (stmt_at depth bytes.now) }
{
    if depth == 0 {
        return Err(ReadError::Memory);
    }
    step(alloc, depth - 1, bytes)
}

#[cycle(steps)]
fn stmts(alloc: Global, depth: u32, bytes: &[u8]) -> Result<(Vec<Stmt>, &[u8]), ReadError>
    ensures { Gives (λ x. (stmt_trees (map view_stmt x.0.items), x.1.now)) result (stmts_at (stmt_at depth) bytes.now) }
{
    let (count, front) = number_u64(bytes)?;
    let mut items = Vec::new(alloc);
    let mut rest = front;
    for _ in 0..count {
        let (item, after) = stmt(alloc, depth, rest)?;
        items.push(item)?;
        rest = after;
    }
    Ok((items, rest))
}

impl Part for CoreFn {
    ghost Seen = { FunctionTree };

    ghost seen = { view_function };

    ghost part = { function_at deepest };

    #[tactic(auto, unfolding(boot_fields::specs::Reading::function_at))]
    fn read(alloc: Global, bytes: &[u8]) -> Result<(Self, &[u8]), ReadError> {
        let (id, rest) = number_u32(bytes)?;
        let (params, rest) = byte(rest)?;
        let (vars, rest) = list(alloc, rest)?;
        let (body, rest) = stmts(alloc, DEEPEST, rest)?;
        let (end, rest) = span(rest)?;
        let function = CoreFn {
            id: FnId(id),
            params,
            vars: Listed::new(vars),
            body,
            end,
        };
        Ok((function, rest))
    }
}

impl Part for GlobalVar {
    ghost Seen = { GlobalTree };

    ghost seen = { view_global };

    ghost part = { global_at };

    #[tactic(auto, unfolding(boot_fields::specs::Reading::global_at))]
    fn read(alloc: Global, bytes: &[u8]) -> Result<(Self, &[u8]), ReadError> {
        let (id, rest) = number_u32(bytes)?;
        let (var, rest) = Var::read(alloc, rest)?;
        let (cells, rest) = numbers(alloc, rest)?;
        let global = GlobalVar {
            id: GlobalId(id),
            var,
            cells: Listed::new(cells),
        };
        Ok((global, rest))
    }
}
